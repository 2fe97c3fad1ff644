//! What an end answers, as text.

use row_text::word;
use row_words::{of_cause, of_event, of_outcome, of_value};
use rpc_end::{Look, RpcStep};
use std::alloc::Global;
use std::test::Fail;
use wire_base::{CallFault, Datum, OutOfMemory};

fn of_fault(alloc: Global, fault: CallFault) -> Result<String, Fail> {
    match fault {
        CallFault::Refused(refusal) => Ok(format!(in alloc; "{refusal:?}")?),
        CallFault::OutOfMemory => word(alloc, "OutOfMemory"),
    }
}

pub fn of_call(alloc: Global, answer: Result<(), CallFault>) -> Result<String, Fail> {
    match answer {
        Ok(()) => word(alloc, "ok"),
        Err(fault) => of_fault(alloc, fault),
    }
}

pub fn of_report(alloc: Global, answer: Result<Option<Datum>, CallFault>) -> Result<String, Fail> {
    match answer {
        Ok(Some(value)) => of_value(alloc, &value),
        Ok(None) => word(alloc, "none"),
        Err(fault) => of_fault(alloc, fault),
    }
}

pub fn of_drawn(alloc: Global, answer: Result<u64, CallFault>) -> Result<String, Fail> {
    match answer {
        Ok(n) => Ok(format!(in alloc; "{n}")?),
        Err(fault) => of_fault(alloc, fault),
    }
}

pub fn of_step(alloc: Global, step: &RpcStep) -> Result<String, Fail> {
    match step {
        RpcStep::Event(event) => of_event(alloc, event),
        RpcStep::Ended(cause) => of_cause(alloc, *cause),
        step => Ok(format!(in alloc; "{step:?}")?),
    }
}

pub fn of_number(alloc: Global, number: Option<u64>) -> Result<String, Fail> {
    match number {
        Some(n) => Ok(format!(in alloc; "{n}")?),
        None => word(alloc, "none"),
    }
}

pub fn of_look(alloc: Global, look: Look<'_>) -> Result<String, Fail> {
    match look {
        Look::Known(outcome) => of_outcome(alloc, outcome),
        Look::NotYet => word(alloc, "not yet"),
        Look::NoRequest => word(alloc, "no request"),
    }
}

/// Whether a whole message waits.
pub fn of_whole(alloc: Global, answer: Result<bool, OutOfMemory>) -> Result<String, Fail> {
    Ok(format!(in alloc; "{answer:?}")?)
}
