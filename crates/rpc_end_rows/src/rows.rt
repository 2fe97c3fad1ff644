//! Rows of text, and the end that lives through them.

use crate::words::{feeds, happens, steps};
use row_text::parted;
use rpc_end::{Encoding, Framing, RpcEnd};
use std::alloc::Global;
use std::process::Abort;
use std::test::Fail;

pub fn start(alloc: Global, framing: Framing, encoding: Encoding) -> RpcEnd {
    RpcEnd::new(alloc, framing, encoding)
}

fn push(bytes: &mut Vec<u8>, more: &[u8]) -> Result<(), Fail> {
    bytes.extend_from_slice(more)?;
    Ok(())
}

fn push_header(alloc: Global, bytes: &mut Vec<u8>, count: usize) -> Result<(), Fail> {
    let head = format!(in alloc; "Content-Length: {count}\r\n\r\n")?;
    push(bytes, head.as_bytes())
}

fn push_length(bytes: &mut Vec<u8>, count: usize) -> Result<(), Fail> {
    let count = u32::try_from(count).unwrap_or(0);
    push(bytes, &count.to_be_bytes())
}

/// The head of a body of so many bytes.
fn push_head(
    alloc: Global,
    framing: Framing,
    bytes: &mut Vec<u8>,
    count: usize,
) -> Result<(), Fail> {
    match framing {
        Framing::Header => push_header(alloc, bytes, count),
        Framing::Length => push_length(bytes, count),
    }
}

fn push_body(alloc: Global, framing: Framing, bytes: &mut Vec<u8>, body: &str) -> Result<(), Fail> {
    if body.is_empty() {
        return Ok(());
    }
    push_head(alloc, framing, bytes, body.len())?;
    push(bytes, body.as_bytes())
}

fn push_bodies(
    alloc: Global,
    framing: Framing,
    bytes: &mut Vec<u8>,
    bodies: &str,
) -> Result<(), Fail> {
    for body in bodies.split('+') {
        push_body(alloc, framing, bytes, body.trim())?;
    }
    Ok(())
}

/// The bodies between `+` signs, each behind its head.
pub fn framed(alloc: Global, framing: Framing, bodies: &str) -> Result<Vec<u8>, Fail> {
    let mut bytes = Vec::new(alloc);
    push_bodies(alloc, framing, &mut bytes, bodies)?;
    Ok(bytes)
}

/// Bytes come, and the end takes one step.
pub fn comes(alloc: Global, end: &mut RpcEnd, bytes: &[u8]) -> Result<String, Fail> {
    feeds(alloc, end, bytes)?;
    steps(alloc, end)
}

fn feeds_bodies(
    alloc: Global,
    framing: Framing,
    end: &mut RpcEnd,
    bodies: &str,
) -> Result<String, Fail> {
    let bytes = framed(alloc, framing, bodies)?;
    feeds(alloc, end, &bytes)
}

fn comes_in_bodies(
    alloc: Global,
    framing: Framing,
    end: &mut RpcEnd,
    bodies: &str,
) -> Result<String, Fail> {
    let bytes = framed(alloc, framing, bodies)?;
    comes(alloc, end, &bytes)
}

/// What this call answers, or the arrival of these bodies.
fn arrives(alloc: Global, framing: Framing, end: &mut RpcEnd, call: &str) -> Result<String, Fail> {
    match call.split_once(' ') {
        Some(("feeds", bodies)) => feeds_bodies(alloc, framing, end, bodies),
        Some(("comes", bodies)) => comes_in_bodies(alloc, framing, end, bodies),
        _ => happens(alloc, end, call),
    }
}

pub fn is_told(rt: &impl Abort, told: &str, wanted: &str, row: &str) {
    assert_eq!(rt; told, wanted, "at {row}");
}

fn are_bytes(rt: &impl Abort, bytes: &[u8], wanted: &[u8], row: &str) {
    assert_eq!(rt; bytes, wanted, "at {row}");
}

/// All output, which is then taken from the end.
pub fn take_all(end: &mut RpcEnd) {
    let count = end.pending_output().len();
    end.took(count);
}

/// All output is these bytes, and it is then taken from the end.
pub fn is_sent(rt: &impl Abort, end: &mut RpcEnd, bytes: &[u8], row: &str) {
    are_bytes(rt, end.pending_output(), bytes, row);
    take_all(end);
}

fn is_answered(
    rt: &impl Abort,
    alloc: Global,
    framing: Framing,
    end: &mut RpcEnd,
    (call, wanted): (&str, &str),
) -> Result<(), Fail> {
    let answer = arrives(alloc, framing, end, call)?;
    is_told(rt, answer.as_str(), wanted, call);
    Ok(())
}

fn are_sent(
    rt: &impl Abort,
    alloc: Global,
    framing: Framing,
    end: &mut RpcEnd,
    bodies: &str,
    row: &str,
) -> Result<(), Fail> {
    let bytes = framed(alloc, framing, bodies)?;
    is_sent(rt, end, &bytes, row);
    Ok(())
}

/// A row is a call, its answer, and the bodies that are sent then, between bars.
fn lives_once(
    rt: &impl Abort,
    alloc: Global,
    framing: Framing,
    end: &mut RpcEnd,
    row: &str,
) -> Result<(), Fail> {
    let (call, others) = parted(row);
    let (wanted, bodies) = parted(others);
    is_answered(rt, alloc, framing, end, (call, wanted))?;
    are_sent(rt, alloc, framing, end, bodies, row)
}

fn lives(
    rt: &impl Abort,
    alloc: Global,
    framing: Framing,
    end: &mut RpcEnd,
    rows: &str,
) -> Result<(), Fail> {
    for row in rows.lines() {
        if !row.trim().is_empty() {
            lives_once(rt, alloc, framing, end, row)?;
        }
    }
    Ok(())
}

/// An end that writes and reads JSON lives through the rows.
pub fn a_life_in(rt: &impl Abort, alloc: Global, framing: Framing, rows: &str) -> Result<(), Fail> {
    let mut end = start(alloc, framing, Encoding::Json);
    lives(rt, alloc, framing, &mut end, rows)
}

/// The heads of the bodies are four-byte lengths.
pub fn a_life(rt: &impl Abort, alloc: Global, rows: &str) -> Result<(), Fail> {
    a_life_in(rt, alloc, Framing::Length, rows)
}

/// A fresh end lives through each row.
pub fn lives_apart(rt: &impl Abort, alloc: Global, rows: &str) -> Result<(), Fail> {
    for row in rows.lines() {
        if !row.trim().is_empty() {
            a_life(rt, alloc, row)?;
        }
    }
    Ok(())
}
