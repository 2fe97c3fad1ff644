//! What a channel answers, as text.

use channel_credit::{Due, TakeFault};
use mux_items::ChannelView;
use row_text::word;
use std::alloc::Global;
use std::test::Fail;
use wire_base::{CallFault, Reason, Refusal};

fn of_refused(alloc: Global, refusal: Refusal) -> Result<String, Fail> {
    Ok(format!(in alloc; "{refusal:?}")?)
}

fn of_reason(alloc: Global, reason: Reason) -> Result<String, Fail> {
    Ok(format!(in alloc; "{reason:?}")?)
}

pub fn of_fault(alloc: Global, fault: CallFault) -> Result<String, Fail> {
    match fault {
        CallFault::Refused(refusal) => of_refused(alloc, refusal),
        CallFault::OutOfMemory => word(alloc, "out of memory"),
    }
}

pub fn of_call(alloc: Global, answer: Result<(), CallFault>) -> Result<String, Fail> {
    match answer {
        Ok(()) => word(alloc, "ok"),
        Err(fault) => of_fault(alloc, fault),
    }
}

pub fn of_frame(alloc: Global, answer: Result<(), Reason>) -> Result<String, Fail> {
    match answer {
        Ok(()) => word(alloc, "ok"),
        Err(reason) => of_reason(alloc, reason),
    }
}

pub fn of_content(alloc: Global, answer: Result<(), TakeFault>) -> Result<String, Fail> {
    match answer {
        Ok(()) => word(alloc, "ok"),
        Err(TakeFault::Refused(reason)) => of_reason(alloc, reason),
        Err(TakeFault::OutOfMemory) => word(alloc, "out of memory"),
    }
}

pub fn of_refusal(alloc: Global, refusal: Option<Refusal>) -> Result<String, Fail> {
    match refusal {
        Some(refusal) => of_refused(alloc, refusal),
        None => word(alloc, "none"),
    }
}

/// How many bytes were read, if so many are said to be.
pub fn of_read(alloc: Global, count: usize, bytes: &[u8]) -> Result<String, Fail> {
    if count == bytes.len() {
        Ok(format!(in alloc; "{count}")?)
    } else {
        word(alloc, "another count")
    }
}

/// The phase, and how many bytes are unread, pending and emitted.
pub fn of_view(alloc: Global, view: ChannelView) -> Result<String, Fail> {
    Ok(format!(in alloc;
        "{:?} {} {} {}",
        view.phase, view.unread, view.pending, view.emitted
    )?)
}

pub fn push_due(told: &mut String, due: Due) -> Result<(), Fail> {
    write!(told, "{due:?} ")?;
    Ok(())
}
