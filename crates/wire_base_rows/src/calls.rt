//! Calls on a source or a sink, of which a row has the answer.

use crate::rows::is_told;
use crate::words::of_count;
use row_text::{first, parted, word};
use std::alloc::Global;
use std::process::Abort;
use std::test::Fail;
use wire_base::{Failed, Sink, Source};

pub fn are_same(rt: &impl Abort, bytes: &[u8], wanted: &str) {
    assert_eq!(rt; bytes, wanted.as_bytes());
}

/// How many bytes were moved, or `failed`.
fn of_moved(alloc: Global, answer: Result<usize, Failed>) -> Result<String, Fail> {
    match answer {
        Ok(count) => of_count(alloc, count),
        Err(Failed) => word(alloc, "failed"),
    }
}

fn read(source: &mut impl Source, buf: &mut [u8]) -> Result<usize, Failed> {
    if buf.is_empty() {
        return Ok(0);
    }
    source.read(buf)
}

fn of_read(alloc: Global, source: &mut impl Source, buf: &mut [u8]) -> Result<String, Fail> {
    of_moved(alloc, read(source, buf))
}

fn gives_once(
    rt: &impl Abort,
    alloc: Global,
    source: &mut impl Source,
    buf: &mut [u8],
    row: &str,
) -> Result<(), Fail> {
    let (answer, held) = parted(row);
    let told = of_read(alloc, source, buf)?;
    is_told(rt, told.as_str(), answer, row);
    are_same(rt, buf, held);
    Ok(())
}

/// A row is the answer of a read, and what the buffer holds then.
pub fn gives(
    rt: &impl Abort,
    alloc: Global,
    source: &mut impl Source,
    buf: &mut [u8],
    rows: &str,
) -> Result<(), Fail> {
    for row in rows.lines() {
        if !row.trim().is_empty() {
            gives_once(rt, alloc, source, buf, row)?;
        }
    }
    Ok(())
}

fn write(sink: &mut impl Sink, piece: &[u8]) -> Result<usize, Failed> {
    if piece.is_empty() {
        return Ok(0);
    }
    sink.write(piece)
}

fn flush(sink: &mut impl Sink) -> &'static str {
    match sink.flush() {
        Ok(()) => "ok",
        Err(Failed) => "failed",
    }
}

fn of_call(alloc: Global, sink: &mut impl Sink, words: &str) -> Result<String, Fail> {
    match first(words) {
        ("write", piece) => of_moved(alloc, write(sink, piece.as_bytes())),
        _ => word(alloc, flush(sink)),
    }
}

fn takes_once(rt: &impl Abort, alloc: Global, sink: &mut impl Sink, row: &str) -> Result<(), Fail> {
    let (call, answer) = parted(row);
    let told = of_call(alloc, sink, call)?;
    is_told(rt, told.as_str(), answer, row);
    Ok(())
}

/// A row is a write with its bytes, or a flush, and the answer.
pub fn takes(rt: &impl Abort, alloc: Global, sink: &mut impl Sink, rows: &str) -> Result<(), Fail> {
    for row in rows.lines() {
        if !row.trim().is_empty() {
            takes_once(rt, alloc, sink, row)?;
        }
    }
    Ok(())
}
