//! What steps answer, and bytes, as text.

use duo_world::{DuoAnswer, EventList, Reply, Tally};
use row_text::{push_escaped, word};
use std::alloc::Global;
use std::test::Fail;

/// Whether a byte stands for itself: the others tell rows and bytes apart.
fn is_plain(byte: u8) -> bool {
    byte.is_ascii_graphic() && !matches!(byte, b'\\' | b'|' | b';')
}

fn tell_byte(told: &mut String, byte: u8) -> Result<(), Fail> {
    if is_plain(byte) {
        return Ok(told.push(byte as char)?);
    }
    push_escaped(told, byte)
}

/// Visible characters as they are, other bytes as `\x` and two digits.
pub fn of_bytes(alloc: Global, bytes: &[u8]) -> Result<String, Fail> {
    let mut told = String::new(alloc);
    for byte in bytes {
        tell_byte(&mut told, *byte)?;
    }
    Ok(told)
}

fn quoted(alloc: Global, bytes: &[u8]) -> Result<String, Fail> {
    let told = of_bytes(alloc, bytes)?;
    Ok(format!(in alloc; "'{told}'")?)
}

fn of_reply(alloc: Global, reply: &Reply) -> Result<String, Fail> {
    match reply {
        Reply::Bytes(bytes) => quoted(alloc, bytes.as_bytes()),
        reply => Ok(format!(in alloc; "{reply:?}")?),
    }
}

fn of_call(alloc: Global, reply: &Reply, events: &EventList) -> Result<String, Fail> {
    let first = of_reply(alloc, reply)?;
    Ok(format!(in alloc; "{first} {:?}", events.as_slice())?)
}

fn of_delivery(alloc: Global, count: u64, events: &EventList) -> Result<String, Fail> {
    Ok(format!(in alloc; "{count} {:?}", events.as_slice())?)
}

/// A reply or the count of bytes that were delivered, and the events.
pub fn of_answer(alloc: Global, answer: &DuoAnswer) -> Result<String, Fail> {
    match answer {
        DuoAnswer::Replied(reply, events) => of_call(alloc, reply, events),
        DuoAnswer::Delivered(count, events) => of_delivery(alloc, *count, events),
        DuoAnswer::Ended => word(alloc, "ended"),
        DuoAnswer::OutOfMemory => word(alloc, "out of memory"),
    }
}

pub fn of_tally(alloc: Global, tally: Option<Tally>) -> Result<String, Fail> {
    Ok(format!(in alloc; "{tally:?}")?)
}
