//! What is told of messages in MessagePack.

use crate::words::{bytes_of, message, text_of};
use pack_value::{Step, decode, encode};
use rpc_message::{Message, MessageFault, Params, of_datum, to_datum};
use std::alloc::Global;
use std::test::Fail;
use wire_base::{Datum, Place};

fn of_params(params: &Params) -> (&'static str, usize) {
    match params {
        Params::Absent => ("absent", 0),
        Params::List(values) => ("list", values.len()),
        Params::Named(pairs) => ("named", pairs.len()),
    }
}

fn of_message(alloc: Global, message: &Message) -> Result<String, Fail> {
    match message {
        Message::Request(id, method, params) => {
            let (kind, count) = of_params(params);
            Ok(format!(in alloc; "request {id:?} {} {kind} {count}", method.as_str())?)
        }
        Message::Notification(method, params) => {
            let (kind, count) = of_params(params);
            Ok(format!(in alloc; "notification {} {kind} {count}", method.as_str())?)
        }
        Message::Result(id, value) => Ok(format!(in alloc; "result {id:?} {value:?}")?),
        Message::Error(id, code, text, more) => {
            Ok(format!(in alloc; "error {id:?} {code} {} {more:?}", text.as_str())?)
        }
    }
}

/// The number of a refusal.
fn of_fault(alloc: Global, fault: MessageFault) -> Result<String, Fail> {
    match fault {
        MessageFault::Refused(reason) => Ok(format!(in alloc; "{}", reason.number())?),
        MessageFault::OutOfMemory => Err(Fail::new("out of memory")),
    }
}

/// The message that a value is, or why it is none.
fn of_value(alloc: Global, value: &Datum) -> Result<String, Fail> {
    match of_datum(alloc, value) {
        Ok(message) => of_message(alloc, &message),
        Err(fault) => of_fault(alloc, fault),
    }
}

/// The value that bytes are.
pub fn unpacked(alloc: Global, bytes: &[u8]) -> Result<Datum, Fail> {
    match decode(alloc, bytes, Place(0)) {
        Step::Got(value, _) => Ok(value),
        _ => Err(Fail::new("no value")),
    }
}

/// The value that escaped bytes are.
pub fn value(alloc: Global, text: &str) -> Result<Datum, Fail> {
    unpacked(alloc, bytes_of(alloc, text)?.as_slice())
}

pub fn unpacks(alloc: Global, text: &str) -> Result<String, Fail> {
    of_value(alloc, &value(alloc, text)?)
}

fn packed(alloc: Global, value: &Datum) -> Result<Vec<u8>, Fail> {
    let mut out = Vec::new(alloc);
    encode(value, &mut out)?;
    Ok(out)
}

fn value_of(alloc: Global, message: &Message) -> Result<Datum, Fail> {
    Ok(to_datum(alloc, message)?)
}

/// The words are a message.
pub fn packs(alloc: Global, words: &str) -> Result<String, Fail> {
    let value = value_of(alloc, &message(alloc, words)?)?;
    text_of(alloc, packed(alloc, &value)?.as_slice())
}
