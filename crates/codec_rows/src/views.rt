//! Worked captures with their views.

use crate::rows::are_same;
use row_text::{bytes, first};
use std::alloc::Global;
use std::process::Abort;
use std::test::Fail;
use stream_view::{ViewEnd, view_text};
use wire_base::{MAX_FED, Version};

/// The view of the bytes is written behind what stands there.
fn push_view(alloc: Global, text: &mut Vec<u8>, version: Version, bytes: &[u8]) -> ViewEnd {
    if bytes.len() as u64 > MAX_FED {
        return ViewEnd::OutOfMemory;
    }
    view_text(alloc, version, bytes, text)
}

/// How the view ends is written behind it.
fn push_end(alloc: Global, text: &mut Vec<u8>, end: ViewEnd) -> Result<(), Fail> {
    let end = format!(in alloc; "{end:?}")?;
    text.extend_from_slice(end.as_bytes())?;
    Ok(())
}

fn viewed(alloc: Global, version: Version, bytes: &[u8]) -> Result<Vec<u8>, Fail> {
    let mut text = Vec::from_slice(alloc, b"> ")?;
    let end = push_view(alloc, &mut text, version, bytes);
    push_end(alloc, &mut text, end)?;
    Ok(text)
}

/// The view has these lines between its first and its last, and ends so.
fn is_viewed(
    rt: &impl Abort,
    alloc: Global,
    version: Version,
    bytes: &[u8],
    (lines, end): (&str, &str),
) -> Result<(), Fail> {
    let wanted = format!(in alloc; "> view 1\n{lines}end\n{end}")?;
    let text = viewed(alloc, version, bytes)?;
    are_same(rt, text.as_slice(), wanted.as_bytes());
    Ok(())
}

fn version(word: &str) -> Version {
    match word {
        "1" => Version::One,
        "2" => Version::Two,
        _ => Version::Three,
    }
}

/// The first line, and the others.
fn head_of(capture: &str) -> (&str, &str) {
    capture.split_once('\n').unwrap_or((capture, ""))
}

/// A capture is its version and its bytes, and in the next lines its view, without the first line and the last one.
fn has_view(rt: &impl Abort, alloc: Global, capture: &str, end: &str) -> Result<(), Fail> {
    let (head, lines) = head_of(capture);
    let (number, words) = first(head);
    let bytes = bytes(alloc, words)?;
    is_viewed(rt, alloc, version(number), bytes.as_slice(), (lines, end))
}

/// An offer of "a" with a window of 8, and the content "hell".
const TWO_FRAMES: &[u8; 20] = b"\x94\x00\x01\x01\xc4\x04\x92\xa1a\x08\x94\x02\x01\x01\xc4\x04hell";

/// The lines of the frames in the first so many bytes of them, and how many bytes those frames have.
fn frame_lines(count: usize) -> (&'static str, usize) {
    match count {
        0..=9 => ("", 0),
        10..=19 => ("0 Offer 1 sender \"a\" 8\n", 10),
        _ => (
            "0 Offer 1 sender \"a\" 8\n10 Content 1 sender 68656c6c\n",
            20,
        ),
    }
}

/// The lines of the first so many bytes of them.
fn cut_lines(alloc: Global, count: usize) -> Result<String, Fail> {
    let (frames, at) = frame_lines(count);
    match count.saturating_sub(at) {
        0 => Ok(String::from_str(alloc, frames)?),
        left => Ok(format!(in alloc; "{frames}rest {at} {left}\n")?),
    }
}

fn is_viewed_cut(rt: &impl Abort, alloc: Global, bytes: &[u8]) -> Result<(), Fail> {
    let lines = cut_lines(alloc, bytes.len())?;
    is_viewed(rt, alloc, Version::Three, bytes, (lines.as_str(), "Whole"))
}

#[test]
fn cut_captures_end_with_their_rest(rt: HostRuntime) -> Result<(), Fail> {
    for count in 0..21 {
        is_viewed_cut(&rt, rt.alloc(), &TWO_FRAMES[..count])?;
    }
    Ok(())
}

#[test]
fn worked_captures_have_their_views(rt: HostRuntime) -> Result<(), Fail> {
    let cut = r#"3 94000101c40492a1610894020101c40468656c6c94
0 Offer 1 sender "a" 8
10 Content 1 sender 68656c6c
rest 20 1
"#;
    has_view(&rt, rt.alloc(), cut, "Whole")?;
    let refused = r#"3 94000101c40492a1610894020101c40468656c6cc1
0 Offer 1 sender "a" 8
10 Content 1 sender 68656c6c
refused 20 1 Unused
"#;
    has_view(&rt, rt.alloc(), refused, "Refused(Place(20), Unused)")
}

/// A capture a version with each kind of frame. No rule that asks for the state of a channel is applied.
#[test]
fn each_frame_has_its_line(rt: HostRuntime) -> Result<(), Fail> {
    let of_version_1 =
        r#"1 2fdf1d50000102030405060708090a0b0c0d0e0f0000000001000161010000000100000200000001000568656c6c6f0300000001000004000000010000
0 Hello 000102030405060708090a0b0c0d0e0f
20 Offer 1 - "a" -
28 OfferAccepted 1 - -
35 Content 1 - 68656c6c6f
47 ContentWritingCompleted 1 -
54 ChannelTerminated 1 -
"#;
    has_view(&rt, rt.alloc(), of_version_1, "Whole")?;
    // The handshake and the first frame in other widths, an offer without a window, and content of no bytes.
    let of_version_2 =
        r#"2 dc000292d1000200c500100101010101010101010101010101010193cc00cd0001c40391a161930101c4029107920201920301920401930501c4029102
0 Hello 01010101010101010101010101010101
27 Offer 1 - "a" -
38 OfferAccepted 1 - 7
45 Content 1 - -
48 ContentWritingCompleted 1 -
51 ChannelTerminated 1 -
54 ContentProcessed 1 - 2
"#;
    has_view(&rt, rt.alloc(), of_version_2, "Whole")?;
    let of_version_3 = r#"3 940001ffc40792a4220ac3a908940101ffc40190930301ff93040101940501ffc402917f
0 Offer 1 receiver "\"\né" 8
13 OfferAccepted 1 receiver -
20 ContentWritingCompleted 1 receiver
24 ChannelTerminated 1 sender
28 ContentProcessed 1 receiver 127
"#;
    has_view(&rt, rt.alloc(), of_version_3, "Whole")?;
    let refused = "2 92920200c41000000000000000000000000000000000930601
0 Hello 00000000000000000000000000000000
refused 23 10 BadCode
";
    has_view(&rt, rt.alloc(), refused, "Refused(Place(23), BadCode)")
}

#[test]
fn handshakes_are_short_or_refused(rt: HostRuntime) -> Result<(), Fail> {
    let short = "1 2fdf1d50000102030405060708090a0b0c0d0e\nrest 0 19\n";
    has_view(&rt, rt.alloc(), "1", "Whole")?;
    has_view(&rt, rt.alloc(), short, "Whole")?;
    has_view(&rt, rt.alloc(), "2 92920200c410\nrest 0 6\n", "Whole")?;
    has_view(&rt, rt.alloc(), "3", "Whole")
}

#[test]
fn refused_handshakes_end_the_view(rt: HostRuntime) -> Result<(), Fail> {
    has_view(
        &rt,
        rt.alloc(),
        "1 2fdf1d51\nrefused 3 20 BadMagic\n",
        "Refused(Place(3), BadMagic)",
    )?;
    has_view(
        &rt,
        rt.alloc(),
        "2 92920300\nrefused 2 21 BadVersion\n",
        "Refused(Place(2), BadVersion)",
    )?;
    has_view(
        &rt,
        rt.alloc(),
        "2 93\nrefused 0 23 BadShape\n",
        "Refused(Place(0), BadShape2)",
    )?;
    has_view(
        &rt,
        rt.alloc(),
        "2 92c1\nrefused 1 1 Unused\n",
        "Refused(Place(1), Unused)",
    )
}
