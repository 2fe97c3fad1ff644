//! What methods ask for.

ghost use Rattle.std.specs.Prelude.{◌≡◌, IfOk, Some, codes};
ghost use Rattle.rpc_items.specs.Ids.{id_if};
ghost use Rattle.rpc_items.specs.Meanings.{aborts_by, calls_after, cancels_by, first_argument, meaning, one_argument, releases_by, reports_by, second_argument, turns_by};
ghost use Rattle.rpc_items.specs.Methods.{after_front, invoke_proxy};

use crate::arguments::{handle_in, one_argument, two_arguments};
use crate::called::called;
use crate::names::{ABORT_PAGES, CANCEL_REQUEST, NEXT_PAGE, PROGRESS, RELEASE_OBJECT};
use crate::reserved::is_reserved;
use rpc_items::{HandleKey, Meaning, Params};
use rpc_message::id_if;
use std::alloc::Global;
use wire_base::{Datum, Node, OutOfMemory, Text};

/// A cancellation names a request.
fn cancels(alloc: Global, params: &Params) -> Result<Meaning, OutOfMemory>
    ensures { IfOk result (λ m. m ≡ cancels_by (id_if (one_argument (codes "id") params.now))) }
{
    match id_if(alloc, one_argument(params, "id"))? {
        Some(id) => Ok(Meaning::Cancels(id)),
        None => Ok(Meaning::Mistakes),
    }
}

/// A report has a token and a value.
fn reports(alloc: Global, params: &Params) -> Result<Meaning, OutOfMemory>
    ensures { IfOk result (λ m. m ≡ reports_by (id_if (first_argument (codes "token") params.now)) (second_argument (codes "value") params.now)) }
{
    let (token, value) = two_arguments(params, "token", "value");
    match (id_if(alloc, token)?, value) {
        (Some(token), Some(value)) => Ok(Meaning::Reports(token, value.copy(alloc)?)),
        _ => Ok(Meaning::Mistakes),
    }
}

/// A request for a page names a sequence.
fn turns(alloc: Global, params: &Params) -> Result<Meaning, OutOfMemory>
    ensures { IfOk result (λ m. m ≡ turns_by (id_if (one_argument (codes "token") params.now))) }
{
    match id_if(alloc, one_argument(params, "token"))? {
        Some(token) => Ok(Meaning::Turns(token)),
        None => Ok(Meaning::Mistakes),
    }
}

/// An abort names a sequence.
fn aborts(alloc: Global, params: &Params) -> Result<Meaning, OutOfMemory>
    ensures { IfOk result (λ m. m ≡ aborts_by (id_if (one_argument (codes "token") params.now))) }
{
    match id_if(alloc, one_argument(params, "token"))? {
        Some(token) => Ok(Meaning::Aborts(token)),
        None => Ok(Meaning::Mistakes),
    }
}

/// The release of a handle, by these two arguments.
fn released(handle: &Datum, by_sender: &Datum) -> Meaning
    ensures { result ≡ releases_by (Some handle.now) (Some by_sender.now) }
{
    match (handle_in(handle), &by_sender.node) {
        (Some(number), Node::Flag(by_sender)) => Meaning::Releases(HandleKey {
            number,
            own: !*by_sender,
        }),
        _ => Meaning::Mistakes,
    }
}

/// A release names a handle and tells whether its sender made it.
fn releases(params: &Params) -> Meaning
    ensures { result ≡ releases_by (first_argument (codes "handle") params.now) (second_argument (codes "ownedBySender") params.now) }
{
    match two_arguments(params, "handle", "ownedBySender") {
        (Some(handle), Some(by_sender)) => released(handle, by_sender),
        _ => Meaning::Mistakes,
    }
}

/// A call on a handle.
fn calls(alloc: Global, method: &str) -> Result<Meaning, OutOfMemory>
    ensures { IfOk result (λ m. m ≡ calls_after (after_front invoke_proxy method.now)) }
{
    match called(method) {
        Some((handle, method)) => Ok(Meaning::Calls(handle, Text::from_str(alloc, method)?)),
        None => Ok(Meaning::Unknown),
    }
}

/// What a method with its parameters asks for.
pub fn meaning_of(alloc: Global, method: &Text, params: &Params) -> Result<Meaning, OutOfMemory>
    ensures { IfOk result (λ m. m ≡ meaning method.now params.now) }
{
    if !is_reserved(method) {
        return Ok(Meaning::Serves);
    }
    match method.as_str() {
        CANCEL_REQUEST => cancels(alloc, params),
        PROGRESS => reports(alloc, params),
        NEXT_PAGE => turns(alloc, params),
        ABORT_PAGES => aborts(alloc, params),
        RELEASE_OBJECT => Ok(releases(params)),
        method => calls(alloc, method),
    }
}
