//! What single members of a message are.

ghost use Rattle.std.specs.Prelude.{◌≡◌, codes, Err, IfOk, IfSome, IfNone, true, false};
ghost use Rattle.std.specs.Option.{option_copied};
ghost use Rattle.wire_base.specs.Find.{last_of};
ghost use Rattle.rpc_items.specs.Ids.{id_if, id_in, is_id_number};
ghost use Rattle.rpc_items.specs.Reading.{is_version, optional_id, params_in, unless_nil};
ghost use Rattle.rpc_message.specs.Reads.{Reads};
ghost use Rattle.rpc_message.specs.declared.fault.MessageFault.{MessageFault};

use crate::fault::MessageFault;
use rpc_items::{LONGEST_ID, Params};
use std::alloc::Global;
use wire_base::{Datum, Id, Node, OutOfMemory, PairList, Reason, Whole};

/// The version of messages.
pub(crate) const VERSION: &str = "2.0";

/// Whether the members tell the version.
pub(crate) fn has_version(members: &PairList) -> bool
    ensures { result ≡ is_version (last_of (codes "jsonrpc") members.now) }
{
    match members.last("jsonrpc") {
        Some(value) => match &value.node {
            Node::Words(text) => text.as_str() == VERSION,
            _ => false,
        },
        None => false,
    }
}

/// A member, where one that is nil counts as absent.
pub(crate) fn unless_nil<'a>(members: &'a PairList, key: &str) -> Option<&'a Datum>
    ensures { option_copied result ≡ unless_nil (last_of key.now members.now) }
{
    match members.last(key) {
        Some(value) => match &value.node {
            Node::Nil => None,
            _ => Some(value),
        },
        None => None,
    }
}

/// The number as one of 64 bits, signed, if it is in that range.
pub(crate) fn signed(n: Whole) -> Option<i64>
    ensures some { IfSome result (λ z. z ≡ n) }
    ensures in_range { IfSome result (λ z. is_id_number n ≡ true) }
    ensures none { IfNone result (is_id_number n ≡ false) }
{
    let n = n.get();
    if n <= i64::MAX as i128 {
        Some(n as i64)
    } else {
        None
    }
}

/// The id that a value is, if it is one.
pub fn id_in(alloc: Global, value: &Datum) -> Result<Option<Id>, OutOfMemory>
    ensures { IfOk result (λ id. id ≡ id_in value.now) }
{
    match &value.node {
        Node::Whole(n) => match signed(*n) {
            Some(n) => Ok(Some(Id::Number(n))),
            None => Ok(None),
        },
        Node::Words(text) => {
            if text.as_str().len() <= LONGEST_ID {
                Ok(Some(Id::Name(text.copy(alloc)?)))
            } else {
                Ok(None)
            }
        }
        _ => Ok(None),
    }
}

/// The id that a value is, where there is one.
pub fn id_if(alloc: Global, value: Option<&Datum>) -> Result<Option<Id>, OutOfMemory>
    ensures { IfOk result (λ id. id ≡ id_if (option_copied value.entry)) }
{
    match value {
        Some(value) => id_in(alloc, value),
        None => Ok(None),
    }
}

/// An id that may be absent.
pub(crate) fn optional_id(alloc: Global, member: Option<&Datum>) -> Result<Option<Id>, MessageFault>
    ensures { Reads (optional_id (option_copied member.entry)) result }
{
    match member {
        Some(value) => match id_in(alloc, value)? {
            Some(id) => Ok(Some(id)),
            None => Err(MessageFault::Refused(Reason::BadId62)),
        },
        None => Ok(None),
    }
}

/// The parameters of a call.
#[tactic(auto, using(crate::proofs::Back::back))]
pub(crate) fn params_in(alloc: Global, member: Option<&Datum>) -> Result<Params, MessageFault>
    ensures { Reads (params_in (option_copied member.entry)) result }
{
    match member {
        Some(value) => match &value.node {
            Node::Nil => Ok(Params::Absent),
            Node::Items(values) => Ok(Params::List(values.copy(alloc)?)),
            Node::Pairs(members) => Ok(Params::Named(members.copy(alloc)?)),
            _ => Err(MessageFault::Refused(Reason::BadParams)),
        },
        None => Ok(Params::Absent),
    }
}

/// An equal value of its own, where there is a value.
pub(crate) fn copied(alloc: Global, member: Option<&Datum>) -> Result<Option<Datum>, OutOfMemory>
    ensures { IfOk result (λ value. value ≡ option_copied member.entry) }
{
    match member {
        Some(value) => Ok(Some(value.copy(alloc)?)),
        None => Ok(None),
    }
}
