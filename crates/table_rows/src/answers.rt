//! What the tables answer, as text.

use row_text::word;
use std::alloc::Global;
use std::test::Fail;
use wire_base::{CallFault, OutOfMemory, Refusal};

pub fn of_number(alloc: Global, n: u64) -> Result<String, Fail> {
    Ok(format!(in alloc; "{n}")?)
}

pub fn of_flag(alloc: Global, flag: bool) -> Result<String, Fail> {
    match flag {
        true => word(alloc, "true"),
        false => word(alloc, "false"),
    }
}

pub fn of_refusal(alloc: Global, refusal: Refusal) -> Result<String, Fail> {
    Ok(format!(in alloc; "{refusal:?}")?)
}

pub fn of_fault(alloc: Global, fault: CallFault) -> Result<String, Fail> {
    match fault {
        CallFault::Refused(refusal) => of_refusal(alloc, refusal),
        CallFault::OutOfMemory => word(alloc, "OutOfMemory"),
    }
}

/// Whether a call is refused.
pub fn of_check(alloc: Global, answer: Result<(), Refusal>) -> Result<String, Fail> {
    match answer {
        Ok(()) => word(alloc, "ok"),
        Err(refusal) => of_refusal(alloc, refusal),
    }
}

/// Of a call that nothing but want of memory can stop.
pub fn of_done(alloc: Global, answer: Result<(), OutOfMemory>) -> Result<String, Fail> {
    match answer {
        Ok(()) => word(alloc, "ok"),
        Err(_) => word(alloc, "OutOfMemory"),
    }
}
