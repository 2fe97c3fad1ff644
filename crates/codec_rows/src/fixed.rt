//! Frames of version 1.

use crate::fronts::{Codec, Front, decoded, fits_fixed, push};
use crate::rows::{are_same, reads, tells};
use row_text::{bytes, count, first, parted};
use std::alloc::Global;
use std::process::Abort;
use std::test::Fail;
use wire_base::{Blob, Code, Frame, FrameStep, Origin, Payload};

#[test]
fn reads_each_code(rt: HostRuntime) -> Result<(), Fail> {
    let rows = "
        00 00000001 0001 61         | Offer 1                   | 00 00000001 0001 61
        00 00000002 0001 61         | Offer 2                   | 00 00000002 0001 61
        00 00000001 0000            | Offer 1                   | 00 00000001 0000
        00 01020304 0002 c3a9       | Offer 16909060            | 00 01020304 0002 c3a9
        01 00000001 0000            | OfferAccepted 1           | 01 00000001 0000
        02 00000003 0005 68656c6c6f | Content 3                 | 02 00000003 0005 68656c6c6f
        02 ffffffff 0000            | Content 4294967295        | 02 ffffffff 0000
        02 01020304 0102 07*258     | Content 16909060          | 02 01020304 0102 07*258
        03 00000003 0000            | ContentWritingCompleted 3 | 03 00000003 0000
        04 00000003 0000            | ChannelTerminated 3       | 04 00000003 0000";
    reads(&rt, rt.alloc(), Codec::Fixed, rows)
}

#[test]
fn ignores_a_payload_where_none_is_due(rt: HostRuntime) -> Result<(), Fail> {
    let rows = "
        01 00000001 0002 ffff | OfferAccepted 1           | 01 00000001 0000
        03 00000001 0001 ff   | ContentWritingCompleted 1 | 03 00000001 0000
        04 00000001 0001 ff   | ChannelTerminated 1       | 04 00000001 0000";
    reads(&rt, rt.alloc(), Codec::Fixed, rows)
}

/// Each front is refused as soon as it is in, whatever stands behind it, and not before.
#[test]
fn refuses_at_the_first_field_that_breaks_a_rule(rt: HostRuntime) -> Result<(), Fail> {
    let rows = "
        05                        | 000000010000 | 0 BadCode
        05                        | 00000000     | 0 BadCode
        06                        | 000000010000 | 0 BadCode
        ff                        |              | 0 BadCode
        02 00000000               |              | 1 BadId
        00 00000000               | 0001 ff      | 1 BadId
        00 00000001 0001 ff       |              | 7 BadName
        00 00000001 0002 61 ff    | 00           | 7 BadName
        00 00000001 0001 c3       | a9           | 7 BadName
        00 00000001 0003 ed a0 80 | 05           | 7 BadName";
    tells(&rt, rt.alloc(), &Front::Frame(Codec::Fixed), rows)
}

/// A frame of this content.
fn content(alloc: Global, id: u64, bytes: &[u8]) -> Result<Frame, Fail> {
    Ok(Frame {
        code: Code::Content,
        id,
        origin: Origin::ByParity,
        payload: Payload::Content(Blob::from_bytes(alloc, bytes)?),
    })
}

/// A byte, and the content behind it.
fn written(alloc: Global, bytes: &[u8]) -> Result<Vec<u8>, Fail> {
    let mut text = Vec::from_slice(alloc, b"\x09")?;
    let frame = content(alloc, 0x01020304, bytes)?;
    push(&mut text, Codec::Fixed, &frame)?;
    Ok(text)
}

fn is_written(rt: &impl Abort, alloc: Global, bytes: &[u8], wanted: &[u8]) -> Result<(), Fail> {
    let text = written(alloc, bytes)?;
    are_same(rt, text.as_slice(), wanted);
    Ok(())
}

/// The content that was got, if any.
fn carried(step: &FrameStep) -> &[u8] {
    match step {
        FrameStep::Got(frame, _) => match &frame.payload {
            Payload::Content(bytes) => bytes.as_bytes(),
            _ => b"",
        },
        _ => b"",
    }
}

fn is_carried(rt: &impl Abort, alloc: Global, text: &[u8], bytes: &[u8]) {
    let step = decoded(alloc, Codec::Fixed, text);
    are_same(rt, carried(&step), bytes);
}

/// The bytes are the content of a frame with this text.
fn is_spelled(rt: &impl Abort, alloc: Global, bytes: &[u8], text: &[u8]) -> Result<(), Fail> {
    is_written(rt, alloc, bytes, text)?;
    is_carried(rt, alloc, text.get(1..).unwrap_or(b""), bytes);
    Ok(())
}

#[test]
fn writes_the_high_byte_of_a_length_first(rt: HostRuntime) -> Result<(), Fail> {
    let long = bytes(rt.alloc(), "07*258")?;
    let text = bytes(rt.alloc(), "09 02 01020304 0102 07*258")?;
    is_spelled(&rt, rt.alloc(), long.as_slice(), text.as_slice())
}

/// Whether a frame of so many bytes of content on this channel fits.
fn fits(alloc: Global, count: u64, id: u64) -> Result<bool, Fail> {
    let bytes = vec![in alloc; 0; count as usize]?;
    let frame = content(alloc, id, bytes.as_slice())?;
    Ok(fits_fixed(&frame))
}

fn is_fit(rt: &impl Abort, fits: bool, wanted: &str, row: &str) {
    assert!(rt; fits == (wanted == "fits"), "{row}");
}

fn fits_so(rt: &impl Abort, alloc: Global, row: &str) -> Result<(), Fail> {
    let (words, wanted) = parted(row);
    let (length, id) = first(words);
    is_fit(rt, fits(alloc, count(length), count(id))?, wanted, row);
    Ok(())
}

#[test]
fn fits_what_its_fields_hold(rt: HostRuntime) -> Result<(), Fail> {
    fits_so(&rt, rt.alloc(), "65535 4294967295 | fits")?;
    fits_so(&rt, rt.alloc(), "65536 1          | no")?;
    fits_so(&rt, rt.alloc(), "1 4294967296     | no")?;
    fits_so(&rt, rt.alloc(), "1 0              | no")
}
