//! Rows of bytes with what stands at their front.

use crate::fronts::{Codec, Front, decoded, push, told};
use row_text::{bytes, parted, push_bytes};
use std::alloc::Global;
use std::process::Abort;
use std::test::Fail;
use wire_base::FrameStep;

fn is_same(rt: &impl Abort, told: &str, wanted: &str, bytes: &[u8]) {
    assert_eq!(rt; told, wanted, "of {bytes:?}");
}

pub fn are_same(rt: &impl Abort, bytes: &[u8], wanted: &[u8]) {
    assert_eq!(rt; bytes, wanted);
}

fn is_told(
    rt: &impl Abort,
    alloc: Global,
    front: &Front,
    bytes: &[u8],
    wanted: &str,
) -> Result<(), Fail> {
    let told = told(alloc, front, bytes)?;
    is_same(rt, told.as_str(), wanted, bytes);
    Ok(())
}

fn due(count: usize, known: usize, wanted: &str) -> &str {
    if count < known { "short" } else { wanted }
}

/// Bytes are told so as soon as so many of them are in, and not before.
fn is_told_from(
    rt: &impl Abort,
    alloc: Global,
    front: &Front,
    bytes: &[u8],
    (known, wanted): (usize, &str),
) -> Result<(), Fail> {
    for end in 0..=bytes.len() {
        is_told(rt, alloc, front, &bytes[..end], due(end, known, wanted))?;
    }
    Ok(())
}

/// A row is bytes, more bytes that change nothing, and what is told of them, between bars.
pub fn tells_once(rt: &impl Abort, alloc: Global, front: &Front, row: &str) -> Result<(), Fail> {
    let (known, row) = parted(row);
    let (more, wanted) = parted(row);
    let mut all = bytes(alloc, known)?;
    let count = all.len();
    push_bytes(alloc, &mut all, more)?;
    is_told_from(rt, alloc, front, all.as_slice(), (count, wanted))
}

pub fn tells(rt: &impl Abort, alloc: Global, front: &Front, rows: &str) -> Result<(), Fail> {
    for row in rows.lines() {
        if !row.trim().is_empty() {
            tells_once(rt, alloc, front, row)?;
        }
    }
    Ok(())
}

/// The frame is read when its last byte is in and not before, whatever follows.
fn is_read(
    rt: &impl Abort,
    alloc: Global,
    codec: Codec,
    spelling: &str,
    head: &str,
) -> Result<(), Fail> {
    let size = bytes(alloc, spelling)?.len();
    let row = format!(in alloc; "{spelling} | 00ff | {head} {size}")?;
    tells_once(rt, alloc, &Front::Frame(codec), row.as_str())
}

/// What was got is written.
fn push_again(text: &mut Vec<u8>, codec: Codec, step: &FrameStep) -> Result<(), Fail> {
    match step {
        FrameStep::Got(frame, _) => push(text, codec, frame),
        _ => Ok(()),
    }
}

fn respelled(alloc: Global, codec: Codec, spelling: &[u8]) -> Result<Vec<u8>, Fail> {
    let mut text = Vec::new(alloc);
    push_again(&mut text, codec, &decoded(alloc, codec, spelling))?;
    Ok(text)
}

/// The frame is then written in its shortest spelling.
fn is_respelled(
    rt: &impl Abort,
    alloc: Global,
    codec: Codec,
    spelling: &[u8],
    shortest: &str,
) -> Result<(), Fail> {
    let text = respelled(alloc, codec, spelling)?;
    let shortest = bytes(alloc, shortest)?;
    are_same(rt, text.as_slice(), shortest.as_slice());
    Ok(())
}

/// A row is a spelling of a frame, its code and id, and its shortest spelling, between bars.
fn reads_once(rt: &impl Abort, alloc: Global, codec: Codec, row: &str) -> Result<(), Fail> {
    let (spelling, row) = parted(row);
    let (head, shortest) = parted(row);
    is_read(rt, alloc, codec, spelling, head)?;
    let spelling = bytes(alloc, spelling)?;
    is_respelled(rt, alloc, codec, spelling.as_slice(), shortest)
}

pub fn reads(rt: &impl Abort, alloc: Global, codec: Codec, rows: &str) -> Result<(), Fail> {
    for row in rows.lines() {
        if !row.trim().is_empty() {
            reads_once(rt, alloc, codec, row)?;
        }
    }
    Ok(())
}
