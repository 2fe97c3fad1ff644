//! What an end answers and what comes to it, as text.

use crate::value_text::of_value;
use row_text::word;
use rpc_items::{HandleKey, Outcome, Params, RpcEvent, Target};
use std::alloc::Global;
use std::test::Fail;
use wire_base::{Cause, EndState, Id, Text};

/// A refusal is told by its number and its place, and every other cause by its name.
pub fn of_cause(alloc: Global, cause: Cause) -> Result<String, Fail> {
    match cause {
        Cause::Refused(place, reason) => {
            Ok(format!(in alloc; "refused {} at {}", reason.number(), place.0)?)
        }
        cause => Ok(format!(in alloc; "{cause:?}")?),
    }
}

/// The cause of an end's end, or how it stands.
pub fn of_state(alloc: Global, state: EndState) -> Result<String, Fail> {
    match state {
        EndState::Ended(cause) => of_cause(alloc, cause),
        state => Ok(format!(in alloc; "{state:?}")?),
    }
}

fn of_id(alloc: Global, id: &Id) -> Result<String, Fail> {
    match id {
        Id::Number(n) => Ok(format!(in alloc; "{n}")?),
        Id::Name(name) => Ok(format!(in alloc; "\"{}\"", name.as_str())?),
    }
}

/// How the arguments are passed, and how many they are.
fn of_params(alloc: Global, params: &Params) -> Result<String, Fail> {
    match params {
        Params::Absent => word(alloc, "absent"),
        Params::List(values) => Ok(format!(in alloc; "list {}", values.len())?),
        Params::Named(pairs) => Ok(format!(in alloc; "named {}", pairs.len())?),
    }
}

/// Nothing of the service, or the object and the handle by which it is called.
fn of_target(alloc: Global, target: Target) -> Result<String, Fail> {
    match target {
        Target::Root => word(alloc, ""),
        Target::Object(object, handle) => {
            Ok(format!(in alloc; " of object {object} by {handle}")?)
        }
    }
}

fn of_asked(
    alloc: Global,
    id: &Id,
    target: Target,
    (method, params): (&Text, &Params),
) -> Result<String, Fail> {
    let (id, params) = (of_id(alloc, id)?, of_params(alloc, params)?);
    let target = of_target(alloc, target)?;
    Ok(format!(in alloc; "asked {id} {} {params}{target}", method.as_str())?)
}

fn of_handle(alloc: Global, key: HandleKey) -> Result<String, Fail> {
    let side = if key.own { "own" } else { "peer" };
    Ok(format!(in alloc; "{side} {}", key.number)?)
}

fn of_told(alloc: Global, method: &Text, params: &Params) -> Result<String, Fail> {
    let params = of_params(alloc, params)?;
    Ok(format!(in alloc; "told {} {params}", method.as_str())?)
}

fn of_cancelled(alloc: Global, id: &Id) -> Result<String, Fail> {
    let id = of_id(alloc, id)?;
    Ok(format!(in alloc; "cancelled {id}")?)
}

fn of_released(alloc: Global, key: HandleKey) -> Result<String, Fail> {
    let handle = of_handle(alloc, key)?;
    Ok(format!(in alloc; "released {handle}")?)
}

/// What a message was to an end: `asked` or `told`, with the method and how its arguments are passed, or another word with
/// the id, number, handle or method that it tells of.
pub fn of_event(alloc: Global, event: &RpcEvent) -> Result<String, Fail> {
    match event {
        RpcEvent::Asked(id, target, method, params) => {
            of_asked(alloc, id, *target, (method, params))
        }
        RpcEvent::Told(method, params) => of_told(alloc, method, params),
        RpcEvent::Cancelled(id) => of_cancelled(alloc, id),
        RpcEvent::Answered(n) => Ok(format!(in alloc; "answered {n}")?),
        RpcEvent::Reported(n) => Ok(format!(in alloc; "reported {n}")?),
        RpcEvent::Released(key) => of_released(alloc, *key),
        RpcEvent::Handled(method) => Ok(format!(in alloc; "handled {}", method.as_str())?),
        RpcEvent::Stray => word(alloc, "stray"),
    }
}

/// The value of a reply, `failed` with the code and the text of an error, or another word.
pub fn of_outcome(alloc: Global, outcome: &Outcome) -> Result<String, Fail> {
    match outcome {
        Outcome::Replied(value) => of_value(alloc, value),
        Outcome::Failed(code, text, _) => {
            Ok(format!(in alloc; "failed {code} {}", text.as_str())?)
        }
        Outcome::Lost => word(alloc, "lost"),
        Outcome::Starved => word(alloc, "starved"),
    }
}

/// Whether a handle lives.
pub fn of_life(alloc: Global, lives: Option<bool>) -> Result<String, Fail> {
    match lives {
        Some(true) => word(alloc, "lives"),
        Some(false) => word(alloc, "ended"),
        None => word(alloc, "none"),
    }
}
