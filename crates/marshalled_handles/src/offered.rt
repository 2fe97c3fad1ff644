//! Objects that the peer offers, as values.

ghost use Rattle.marshalled_handles.specs.Holder.{offer_of};
ghost use Rattle.rpc_items.specs.Objects.{handle_in, is_one, lifetime_in, offered_by, offered_in};
ghost use Rattle.std.specs.Option.{option_copied};
ghost use Rattle.std.specs.Prelude.{◌≡◌, Some, codes, option_map};
ghost use Rattle.wire_base.specs.Find.{last_of};
ghost use Rattle.wire_base.specs.Tree.{whole, words};

use rpc_items::Lifetime;
use wire_base::{Datum, Node, PairList, Text, Whole};

/// The member that tells an object which is passed by handle.
const MARSHALED: &str = "__jsonrpc_marshaled";

/// An object that the peer offers.
#[derive(Clone, Copy, Debug, PartialEq, Eq)]
pub struct Offered {
    pub handle: u64,
    pub lifetime: Lifetime,
}

/// The object that a whole value offers. With another handle or lifetime it is a plain value.
#[tactic(auto, using(crate::proofs::Back::back))]
pub fn offered_in(value: &Datum) -> Option<Offered>
    ensures { option_map offer_of result ≡ offered_in value.now }
{
    match &value.node {
        Node::Pairs(members) if is_one(members.last(MARSHALED)) => offered_by(members),
        _ => None,
    }
}

/// The object that members offer by their handle and their lifetime.
fn offered_by(members: &PairList) -> Option<Offered>
    ensures { option_map offer_of result ≡ offered_by (handle_in (last_of (codes "handle") members.now)) (lifetime_in (last_of (codes "lifetime") members.now)) }
{
    let handle = handle_in(members.last("handle"))?;
    let lifetime = lifetime_in(members.last("lifetime"))?;
    Some(Offered { handle, lifetime })
}

/// Whether a member is the number 1.
fn is_one(member: Option<&Datum>) -> bool
    ensures { result ≡ is_one (option_copied member.entry) }
{
    match member {
        Some(value) => match &value.node {
            Node::Whole(number) => is_number_one(*number),
            _ => false,
        },
        None => false,
    }
}

fn is_number_one(number: Whole) -> bool
    ensures { result ≡ is_one (Some (whole number)) }
{
    number.get() == 1
}

/// The handle that a member is: a whole number of 64 bits, signed, and not negative.
fn handle_in(member: Option<&Datum>) -> Option<u64>
    ensures { result ≡ handle_in (option_copied member.entry) }
{
    match member {
        Some(value) => match &value.node {
            Node::Whole(number) => handle_of(*number),
            _ => None,
        },
        None => None,
    }
}

fn handle_of(number: Whole) -> Option<u64>
    ensures { result ≡ handle_in (Some (whole number)) }
{
    let number = number.get();
    if 0 <= number && number <= i64::MAX as i128 {
        Some(number as u64)
    } else {
        None
    }
}

/// The lifetime that a member is. One that isn't told is explicit.
fn lifetime_in(member: Option<&Datum>) -> Option<Lifetime>
    ensures { result ≡ lifetime_in (option_copied member.entry) }
{
    match member {
        Some(value) => match &value.node {
            Node::Words(text) => lifetime_of(text),
            _ => None,
        },
        None => Some(Lifetime::Explicit),
    }
}

fn lifetime_of(text: &Text) -> Option<Lifetime>
    ensures { result ≡ lifetime_in (Some (words text.now)) }
{
    if text.as_str() == "call" {
        Some(Lifetime::Call)
    } else if text.as_str() == "explicit" {
        Some(Lifetime::Explicit)
    } else {
        None
    }
}
