//! What an end answers, as text. A channel is told as `own` or `peer` and its id.

use mux_end::{ChannelKey, ChannelView, MuxEvent, MuxStep, Tally};
use row_text::{push_hex, word};
use std::alloc::Global;
use std::test::Fail;
use wire_base::{CallFault, EndState};

pub fn of_fault(alloc: Global, fault: CallFault) -> Result<String, Fail> {
    match fault {
        CallFault::Refused(refusal) => Ok(format!(in alloc; "{refusal:?}")?),
        CallFault::OutOfMemory => word(alloc, "OutOfMemory"),
    }
}

pub fn of_call(alloc: Global, answer: Result<(), CallFault>) -> Result<String, Fail> {
    match answer {
        Ok(()) => word(alloc, "ok"),
        Err(fault) => of_fault(alloc, fault),
    }
}

pub fn of_key(alloc: Global, key: ChannelKey) -> Result<String, Fail> {
    let side = if key.own { "own" } else { "peer" };
    Ok(format!(in alloc; "{side}{}", key.id)?)
}

pub fn of_drawn(alloc: Global, answer: Result<ChannelKey, CallFault>) -> Result<String, Fail> {
    match answer {
        Ok(key) => of_key(alloc, key),
        Err(fault) => of_fault(alloc, fault),
    }
}

fn of_bytes(alloc: Global, bytes: &[u8]) -> Result<String, Fail> {
    let mut text = word(alloc, "bytes ")?;
    for byte in bytes {
        push_hex(&mut text, *byte)?;
    }
    Ok(text)
}

/// The bytes that were read, if so many are said to be.
pub fn of_read(alloc: Global, count: usize, bytes: &[u8]) -> Result<String, Fail> {
    if count == bytes.len() {
        of_bytes(alloc, bytes)
    } else {
        word(alloc, "another count")
    }
}

pub fn of_state(alloc: Global, state: EndState) -> Result<String, Fail> {
    Ok(format!(in alloc; "{state:?}")?)
}

pub fn of_flag(alloc: Global, flag: bool) -> Result<String, Fail> {
    word(alloc, if flag { "true" } else { "false" })
}

fn of_change(alloc: Global, change: &str, key: ChannelKey) -> Result<String, Fail> {
    let key = of_key(alloc, key)?;
    Ok(format!(in alloc; "{change} {key}")?)
}

fn of_count(alloc: Global, told: &str, key: ChannelKey, count: u64) -> Result<String, Fail> {
    let key = of_key(alloc, key)?;
    Ok(format!(in alloc; "{told} {key} {count}")?)
}

fn of_event(alloc: Global, event: MuxEvent) -> Result<String, Fail> {
    match event {
        MuxEvent::Ready => word(alloc, "ready"),
        MuxEvent::Offered(key) => of_change(alloc, "offered", key),
        MuxEvent::Rejected(key) => of_change(alloc, "rejected", key),
        MuxEvent::Accepted(key) => of_change(alloc, "accepted", key),
        MuxEvent::Content(key, count) => of_count(alloc, "content", key, u64::from(count)),
        MuxEvent::Completed(key) => of_change(alloc, "completed", key),
        MuxEvent::Closed(key) => of_change(alloc, "closed", key),
        MuxEvent::Credit(key, count) => of_count(alloc, "credit", key, count),
        MuxEvent::Ignored(key) => of_change(alloc, "ignored", key),
    }
}

pub fn of_step(alloc: Global, step: MuxStep) -> Result<String, Fail> {
    match step {
        MuxStep::Event(event) => of_event(alloc, event),
        step => Ok(format!(in alloc; "{step:?}")?),
    }
}

/// The phase, the unread, pending, emitted and granted bytes, and whether the peer has completed its writing.
pub fn of_view(alloc: Global, view: Option<ChannelView>) -> Result<String, Fail> {
    match view {
        Some(view) => Ok(format!(in alloc;
            "{:?} {} {} {} {:?} {}",
            view.phase, view.unread, view.pending, view.emitted, view.granted, view.completed
        )?),
        None => word(alloc, "none"),
    }
}

/// The phase, and the written, emitted, taken and handed bytes.
pub fn of_tally(alloc: Global, tally: Option<Tally>) -> Result<String, Fail> {
    match tally {
        Some(tally) => Ok(format!(in alloc;
            "{:?} {} {} {} {}",
            tally.phase, tally.written, tally.emitted, tally.taken, tally.handed
        )?),
        None => word(alloc, "none"),
    }
}

pub fn of_known(alloc: Global, key: Option<ChannelKey>) -> Result<String, Fail> {
    match key {
        Some(key) => of_key(alloc, key),
        None => word(alloc, "none"),
    }
}
