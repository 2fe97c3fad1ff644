//! What is told of bodies in both encodings.

use crate::words::{blob, bytes_of, encoding, message, nested, reply, text_of};
use message_body::{BodyFault, Encoding, Message, read, write};
use row_text::{first, size, word};
use std::alloc::Global;
use std::test::Fail;
use wire_base::{CallFault, Datum};

/// A body behind its size.
fn sized(alloc: Global, body: &[u8]) -> Result<String, Fail> {
    let text = text_of(alloc, body)?;
    Ok(format!(in alloc; "{} {text}", body.len())?)
}

fn body_of(alloc: Global, encoding: Encoding, message: &Message) -> Result<Vec<u8>, Fail> {
    let mut out = Vec::new(alloc);
    match write(alloc, encoding, message, &mut out) {
        Ok(()) => Ok(out),
        Err(_) => Err(Fail::new("not written")),
    }
}

/// The body that a message is written as.
fn written(alloc: Global, encoding: Encoding, message: &Message) -> Result<String, Fail> {
    sized(alloc, body_of(alloc, encoding, message)?.as_slice())
}

/// The words are an encoding and a message.
pub fn writes(alloc: Global, words: &str) -> Result<String, Fail> {
    let (name, words) = first(words);
    written(alloc, encoding(name), &message(alloc, words)?)
}

fn rewritten(alloc: Global, encoding: Encoding, body: &[u8]) -> Result<String, Fail> {
    match read(alloc, encoding, body) {
        Ok(message) => written(alloc, encoding, &message),
        Err(_) => word(alloc, "not read"),
    }
}

/// The words are an encoding and a body, of which the body is told that its message is written as.
pub fn rewrites(alloc: Global, words: &str) -> Result<String, Fail> {
    let (name, text) = first(words);
    rewritten(alloc, encoding(name), bytes_of(alloc, text)?.as_slice())
}

fn of_fault(alloc: Global, fault: BodyFault) -> Result<String, Fail> {
    match fault {
        BodyFault::Refused(offset, reason) => Ok(format!(in alloc; "{reason:?} at {offset}")?),
        BodyFault::OutOfMemory => word(alloc, "out of memory"),
    }
}

fn refused(alloc: Global, encoding: Encoding, body: &[u8]) -> Result<String, Fail> {
    match read(alloc, encoding, body) {
        Ok(_) => word(alloc, "a message"),
        Err(fault) => of_fault(alloc, fault),
    }
}

/// The words are an encoding and a body.
pub fn reads(alloc: Global, words: &str) -> Result<String, Fail> {
    let (name, text) = first(words);
    refused(alloc, encoding(name), bytes_of(alloc, text)?.as_slice())
}

/// Why nothing is written, and what stands there.
fn of_refusal(alloc: Global, fault: CallFault, out: &[u8]) -> Result<String, Fail> {
    let out = text_of(alloc, out)?;
    match fault {
        CallFault::Refused(refusal) => Ok(format!(in alloc; "{refusal:?} behind {out}")?),
        CallFault::OutOfMemory => word(alloc, "out of memory"),
    }
}

/// Whether a reply by the value is written behind old bytes.
fn answered(alloc: Global, encoding: Encoding, value: Datum) -> Result<String, Fail> {
    let mut out = Vec::from_slice(alloc, b"old")?;
    match write(alloc, encoding, &reply(value), &mut out) {
        Ok(()) => word(alloc, "written"),
        Err(fault) => of_refusal(alloc, fault, out.as_slice()),
    }
}

/// The words are an encoding, how many arrays stand in one another, and the value in the inmost.
pub fn nests(alloc: Global, words: &str) -> Result<String, Fail> {
    let (name, words) = first(words);
    answered(alloc, encoding(name), nested(alloc, words)?)
}

fn zeros(alloc: Global, count: usize) -> Result<Datum, Fail> {
    let bytes = vec![in alloc; 0; count]?;
    blob(alloc, bytes.as_slice())
}

/// The words are an encoding and how many bytes the value has.
pub fn fills(alloc: Global, words: &str) -> Result<String, Fail> {
    let (name, count) = first(words);
    answered(alloc, encoding(name), zeros(alloc, size(count) as usize)?)
}
