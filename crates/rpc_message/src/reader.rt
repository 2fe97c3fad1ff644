//! The message that a value is.

ghost use Rattle.std.specs.Prelude.{codes, Ok, Some};
ghost use Rattle.std.specs.Option.{option_copied};
ghost use Rattle.wire_base.specs.Find.{last_of};
ghost use Rattle.wire_base.specs.Tree.{pairs, pairs_of};
ghost use Rattle.rpc_items.specs.Ids.{id_if};
ghost use Rattle.rpc_items.specs.Values.{member};
ghost use Rattle.rpc_items.specs.Reading.{call_in, error_with, message_in, optional_id, response_with, result_with, unless_nil};
ghost use Rattle.rpc_message.specs.Reads.{Reads};

use crate::fault::MessageFault;
use crate::members::{copied, has_version, id_if, optional_id, params_in, signed, unless_nil};
use rpc_items::Message;
use std::alloc::Global;
use wire_base::{Datum, Id, Node, PairList, Reason};

/// A call: a request with an id, a notification without one.
fn call_of(alloc: Global, method: &Datum, members: &PairList) -> Result<Message, MessageFault>
    ensures { Reads (call_in method.now (last_of (codes "id") members.now) (last_of (codes "params") members.now)) result }
{
    match &method.node {
        Node::Words(method) => {
            let id = optional_id(alloc, members.last("id"))?;
            let params = params_in(alloc, members.last("params"))?;
            let method = method.copy(alloc)?;
            match id {
                Some(id) => Ok(Message::Request(id, method, params)),
                None => Ok(Message::Notification(method, params)),
            }
        }
        _ => Err(MessageFault::Refused(Reason::BadMethod)),
    }
}

/// A result, which has to have an id.
fn result_of(alloc: Global, members: &PairList, value: &Datum) -> Result<Message, MessageFault>
    ensures { Reads (result_with (id_if (last_of (codes "id") members.now)) value.now) result }
{
    match id_if(alloc, members.last("id"))? {
        Some(id) => Ok(Message::Result(id, value.copy(alloc)?)),
        None => Err(MessageFault::Refused(Reason::BadId62)),
    }
}

/// An error with this code and text, whose id may be absent.
fn error_with(
    alloc: Global,
    id: Option<Id>,
    code: &Datum,
    text: &Datum,
    more: Option<&Datum>,
) -> Result<Message, MessageFault>
    ensures { Reads (error_with (Ok id) (Some code.now) (Some text.now) (option_copied more.entry)) result }
{
    match (&code.node, &text.node) {
        (Node::Whole(code), Node::Words(text)) => match signed(*code) {
            Some(code) => {
                let text = text.copy(alloc)?;
                let more = copied(alloc, more)?;
                Ok(Message::Error(id, code, text, more))
            }
            None => Err(MessageFault::Refused(Reason::BadError)),
        },
        _ => Err(MessageFault::Refused(Reason::BadError)),
    }
}

/// An error with these parts, whose id may be absent.
fn error_of(alloc: Global, id: Option<Id>, parts: &PairList) -> Result<Message, MessageFault>
    ensures { Reads (error_with (Ok id) (last_of (codes "code") parts.now) (last_of (codes "message") parts.now) (last_of (codes "data") parts.now)) result }
{
    match (parts.last("code"), parts.last("message")) {
        (Some(code), Some(text)) => error_with(alloc, id, code, text, parts.last("data")),
        _ => Err(MessageFault::Refused(Reason::BadError)),
    }
}

/// An error, whose id may be nil or absent.
#[tactic(auto, using(crate::proofs::Back::back))]
fn failure_of(alloc: Global, members: &PairList, error: &Datum) -> Result<Message, MessageFault>
    ensures { Reads (error_with (optional_id (unless_nil (last_of (codes "id") members.now))) (member (codes "code") error.now) (member (codes "message") error.now) (member (codes "data") error.now)) result }
{
    let id = optional_id(alloc, unless_nil(members, "id"))?;
    match &error.node {
        Node::Pairs(parts) => error_of(alloc, id, parts),
        _ => Err(MessageFault::Refused(Reason::BadError)),
    }
}

/// A response: a result or an error, and not both.
fn response_of(alloc: Global, members: &PairList) -> Result<Message, MessageFault>
    ensures { Reads (response_with (last_of (codes "id") members.now) (last_of (codes "result") members.now) (unless_nil (last_of (codes "error") members.now))) result }
{
    match (members.last("result"), unless_nil(members, "error")) {
        (Some(value), None) => result_of(alloc, members, value),
        (None, Some(error)) => failure_of(alloc, members, error),
        _ => Err(MessageFault::Refused(Reason::BothOrNeither)),
    }
}

/// A call where there is a method, a response where there is none.
#[tactic(auto, using(crate::proofs::Back::back))]
fn message_of(alloc: Global, members: &PairList) -> Result<Message, MessageFault>
    ensures { Reads (message_in (pairs (pairs_of members.now))) result }
{
    if !has_version(members) {
        return Err(MessageFault::Refused(Reason::NotVersion2));
    }
    match members.last("method") {
        Some(method) => call_of(alloc, method, members),
        None => response_of(alloc, members),
    }
}

/// The message that a value is.
///
/// Refuses with reasons 60 to 67. Members that no message has are passed over.
pub fn of_datum(alloc: Global, value: &Datum) -> Result<Message, MessageFault>
    ensures { Reads (message_in value.now) result }
{
    match &value.node {
        Node::Items(_) => Err(MessageFault::Refused(Reason::Batch)),
        Node::Pairs(members) => message_of(alloc, members),
        _ => Err(MessageFault::Refused(Reason::NotObject)),
    }
}
