//! Frames of a version that is known only as the program runs.

use any_codec::AnyCodec;
use frame_reader::{FrameReader, NextFrame};
use row_text::{bytes, first, parted, word};
use std::alloc::Global;
use std::process::Abort;
use std::test::Fail;
use wire_base::{Place, Version};

/// An offer of "a" with a window of 8, a completion, which has no payload, and the content "hell".
const STREAM: &str = "94000101c40492a16108 93030101 94020101c40468656c6c";

/// More bytes than a reader is fed here.
const MOST: u64 = 100;

type Reader = FrameReader<AnyCodec>;

fn fresh(alloc: Global) -> Reader {
    FrameReader::new(alloc, AnyCodec::new(Version::Three), Place(7))
}

fn feed(reader: &mut Reader, piece: &[u8]) -> bool {
    reader.fed() < MOST && (piece.len() as u64) < MOST && reader.feed(piece).is_ok()
}

fn next(reader: &mut Reader) -> NextFrame {
    reader.next()
}

fn of_next(alloc: Global, next: &NextFrame) -> Result<String, Fail> {
    match next {
        NextFrame::Frame(place, frame) => Ok(format!(in alloc; "{} {frame:?}; ", place.0)?),
        NextFrame::Short => word(alloc, "short"),
        NextFrame::Refused(place, reason) => Ok(format!(in alloc; "{} {reason:?}", place.0)?),
        NextFrame::OutOfMemory => word(alloc, "out of memory"),
    }
}

fn nexts(alloc: Global, reader: &mut Reader) -> Result<String, Fail> {
    of_next(alloc, &next(reader))
}

/// Tells the next frame, if one is whole.
fn push_frame(alloc: Global, told: &mut String, next: &NextFrame) -> Result<(), Fail> {
    match next {
        NextFrame::Frame(_, _) => told.push_str(of_next(alloc, next)?.as_str())?,
        _ => {}
    }
    Ok(())
}

/// Tells all frames that are whole with this piece.
fn push_frames(
    alloc: Global,
    told: &mut String,
    reader: &mut Reader,
    piece: &[u8],
) -> Result<(), Fail> {
    if !feed(reader, piece) {
        told.push_str("not fed")?;
    }
    for _ in 0..4 {
        push_frame(alloc, told, &next(reader))?;
    }
    Ok(())
}

/// The bytes of the words, or of the stream.
fn spelled(alloc: Global, words: &str) -> Result<Vec<u8>, Fail> {
    bytes(alloc, if words == "stream" { STREAM } else { words })
}

/// The frames of these bytes, which come in pieces of so many.
fn takes(alloc: Global, reader: &mut Reader, bytes: &[u8], size: usize) -> Result<String, Fail> {
    let mut told = String::new(alloc);
    for piece in bytes.chunks(size.max(1)) {
        push_frames(alloc, &mut told, reader, piece)?;
    }
    Ok(told)
}

fn feeds(alloc: Global, reader: &mut Reader, bytes: &[u8]) -> Result<String, Fail> {
    word(alloc, if feed(reader, bytes) { "ok" } else { "not fed" })
}

fn left(alloc: Global, reader: &Reader) -> Result<String, Fail> {
    Ok(format!(in alloc; "{}", reader.left())?)
}

fn fed(alloc: Global, reader: &Reader) -> Result<String, Fail> {
    Ok(format!(in alloc; "{}", reader.fed())?)
}

fn place(alloc: Global, reader: &Reader) -> Result<String, Fail> {
    Ok(format!(in alloc; "{}", reader.place().0)?)
}

/// What this call answers.
fn happens(alloc: Global, reader: &mut Reader, size: usize, call: &str) -> Result<String, Fail> {
    let (name, words) = first(call);
    match name {
        "takes" => takes(alloc, reader, spelled(alloc, words)?.as_slice(), size),
        "feeds" => feeds(alloc, reader, spelled(alloc, words)?.as_slice()),
        "next" => nexts(alloc, reader),
        "left" => left(alloc, reader),
        "fed" => fed(alloc, reader),
        "place" => place(alloc, reader),
        _ => word(alloc, "no such call"),
    }
}

fn is_told(rt: &impl Abort, told: &str, wanted: &str, row: &str) {
    assert_eq!(rt; told.trim(), wanted, "at {row}");
}

/// A row is a call, and its answer, behind a bar.
fn lives_once(
    rt: &impl Abort,
    alloc: Global,
    reader: &mut Reader,
    size: usize,
    row: &str,
) -> Result<(), Fail> {
    let (call, wanted) = parted(row);
    let told = happens(alloc, reader, size, call)?;
    is_told(rt, told.as_str(), wanted, row);
    Ok(())
}

fn lives(
    rt: &impl Abort,
    alloc: Global,
    reader: &mut Reader,
    size: usize,
    rows: &str,
) -> Result<(), Fail> {
    for row in rows.lines() {
        if !row.trim().is_empty() {
            lives_once(rt, alloc, reader, size, row)?;
        }
    }
    Ok(())
}

/// A reader that takes bytes in pieces of this size lives through the rows.
fn a_life(rt: &impl Abort, alloc: Global, size: usize, rows: &str) -> Result<(), Fail> {
    lives(rt, alloc, &mut fresh(alloc), size, rows)
}

#[test]
fn pieces_do_not_matter(rt: HostRuntime) -> Result<(), Fail> {
    let rows = r#"
        takes stream | 7 Frame { code: Offer, id: 1, origin: Sender, payload: Offer(Text { inner: "a" }, Some(8)) }; 17 Frame { code: ContentWritingCompleted, id: 1, origin: Sender, payload: Nothing }; 21 Frame { code: Content, id: 1, origin: Sender, payload: Content(Blob { inner: [104, 101, 108, 108] }) };
        left         | 0
        fed          | 24"#;
    for size in [24, 1, 2, 3, 10, 11, 23] {
        a_life(&rt, rt.alloc(), size, rows)?;
    }
    Ok(())
}

/// The third frame goes on with a nil in place of its channel id.
#[test]
fn a_broken_token_is_refused_for_good(rt: HostRuntime) -> Result<(), Fail> {
    let rows = r#"
        takes 94000101c40492a16108 93030101 9402 | 7 Frame { code: Offer, id: 1, origin: Sender, payload: Offer(Text { inner: "a" }, Some(8)) }; 17 Frame { code: ContentWritingCompleted, id: 1, origin: Sender, payload: Nothing };
        next         | short
        feeds c0     | ok
        next         | 23 BadId
        feeds stream | ok
        next         | 23 BadId
        feeds stream | ok
        next         | 23 BadId
        feeds stream | ok
        left         | 75
        fed          | 89"#;
    a_life(&rt, rt.alloc(), 1, rows)?;
    a_life(&rt, rt.alloc(), 16, rows)
}

/// A reader that has skipped a greeting.
fn greeted(alloc: Global, greeting: &[u8; 4]) -> Result<Reader, Fail> {
    let mut reader = FrameReader::new(alloc, AnyCodec::new(Version::Three), Place(7));
    reader.feed(greeting)?;
    reader.skip_greeting(4);
    Ok(reader)
}

/// Four bytes that are no frame, and a completion.
#[test]
fn a_greeting_is_skipped(rt: HostRuntime) -> Result<(), Fail> {
    let rows = "
        place          | 11
        left           | 0
        feeds 93030101 | ok
        next           | 11 Frame { code: ContentWritingCompleted, id: 1, origin: Sender, payload: Nothing };";
    let mut reader = greeted(rt.alloc(), b"\x2f\xdf\x1d\x50")?;
    lives(&rt, rt.alloc(), &mut reader, 4, rows)
}
