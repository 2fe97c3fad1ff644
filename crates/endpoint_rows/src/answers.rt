//! What an end answers, as text. A channel is told by the letter of the side that offered it and its id.

use endpoint::{ChannelKey, ChannelView, EndEvent, EndStep, MuxEvent, Reply, Tally};
use row_text::{push_escaped, word};
use row_words::{of_cause, of_outcome, of_value};
use std::alloc::Global;
use std::test::Fail;

/// The letter of the other side.
pub fn other(side: &str) -> &'static str {
    match side {
        "A" => "B",
        _ => "A",
    }
}

pub fn of_key(alloc: Global, side: &str, key: ChannelKey) -> Result<String, Fail> {
    let offerer = if key.own { side } else { other(side) };
    Ok(format!(in alloc; "{offerer}{}", key.id)?)
}

/// The count of bytes that were read, and the bytes.
fn of_bytes(alloc: Global, bytes: &[u8]) -> Result<String, Fail> {
    Ok(format!(in alloc; "{} {bytes:?}", bytes.len())?)
}

/// Printable characters as they are, but the backslash, and each other byte by two digits behind `\x`.
fn push_byte(text: &mut String, byte: u8) -> Result<(), Fail> {
    match byte {
        b'\\' => push_escaped(text, byte),
        b' '..=b'~' => Ok(text.push(char::from(byte))?),
        _ => push_escaped(text, byte),
    }
}

fn push_output(text: &mut String, bytes: &[u8]) -> Result<(), Fail> {
    for byte in bytes {
        push_byte(text, *byte)?;
    }
    Ok(())
}

/// The bytes of an output.
pub fn of_output(alloc: Global, bytes: &[u8]) -> Result<String, Fail> {
    let mut text = String::new(alloc);
    push_output(&mut text, bytes)?;
    Ok(text)
}

pub fn of_reply(alloc: Global, side: &str, reply: &Reply) -> Result<String, Fail> {
    match reply {
        Reply::Done => word(alloc, "ok"),
        Reply::Made(key) => of_key(alloc, side, *key),
        Reply::Bytes(bytes) => of_bytes(alloc, bytes.as_bytes()),
        Reply::Number(n) => Ok(format!(in alloc; "{n}")?),
        Reply::Report(Some(value)) => of_value(alloc, value),
        Reply::Report(None) => word(alloc, "none"),
        Reply::Known(outcome) => of_outcome(alloc, outcome),
        Reply::NotYet => word(alloc, "not yet"),
        Reply::Refused(refusal) => Ok(format!(in alloc; "{refusal:?}")?),
        Reply::OutOfMemory => word(alloc, "OutOfMemory"),
    }
}

/// The phase, and the bytes that are unread.
pub fn of_view(alloc: Global, view: Option<ChannelView>) -> Result<String, Fail> {
    match view {
        Some(view) => Ok(format!(in alloc; "{:?} {}", view.phase, view.unread)?),
        None => word(alloc, "none"),
    }
}

/// The phase, and the bytes that were written and read.
pub fn of_tally(alloc: Global, tally: Option<Tally>) -> Result<String, Fail> {
    match tally {
        Some(tally) => {
            Ok(format!(in alloc; "{:?} {} {}", tally.phase, tally.written, tally.handed)?)
        }
        None => word(alloc, "none"),
    }
}

pub fn of_numbers(alloc: Global, numbers: &[u64]) -> Result<String, Fail> {
    Ok(format!(in alloc; "{numbers:?}")?)
}

fn of_count(
    alloc: Global,
    side: &str,
    told: &str,
    (key, count): (ChannelKey, u64),
) -> Result<String, Fail> {
    let key = of_key(alloc, side, key)?;
    Ok(format!(in alloc; "{told} {key} {count}")?)
}

fn of_frame(alloc: Global, side: &str, event: &MuxEvent) -> Result<String, Fail> {
    let (told, key) = match event {
        MuxEvent::Ready => return word(alloc, "ready"),
        MuxEvent::Content(key, count) => {
            return of_count(alloc, side, "content", (*key, u64::from(*count)));
        }
        MuxEvent::Credit(key, count) => return of_count(alloc, side, "credit", (*key, *count)),
        MuxEvent::Offered(key) => ("offered", key),
        MuxEvent::Rejected(key) => ("rejected", key),
        MuxEvent::Accepted(key) => ("accepted", key),
        MuxEvent::Completed(key) => ("completed", key),
        MuxEvent::Closed(key) => ("closed", key),
        MuxEvent::Ignored(key) => ("ignored", key),
    };
    let key = of_key(alloc, side, *key)?;
    Ok(format!(in alloc; "{told} {key}")?)
}

fn of_event(alloc: Global, side: &str, event: &EndEvent) -> Result<String, Fail> {
    let (key, text) = match event {
        EndEvent::Mux(event) => return of_frame(alloc, side, event),
        EndEvent::Rpc(key, event) => (key, row_words::of_event(alloc, event)?),
        EndEvent::RpcEnded(key, cause) => (key, of_cause(alloc, *cause)?),
    };
    let key = of_key(alloc, side, *key)?;
    Ok(format!(in alloc; "{key} {text}")?)
}

pub fn of_step(alloc: Global, side: &str, step: &EndStep) -> Result<String, Fail> {
    match step {
        EndStep::Event(event) => of_event(alloc, side, event),
        EndStep::Ended(cause) => of_cause(alloc, *cause),
        step => Ok(format!(in alloc; "{step:?}")?),
    }
}
