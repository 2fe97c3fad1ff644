//! A message as a value.

ghost use Rattle.std.specs.Prelude.{◌≡◌, ◌++◌, ◌∷◌, [], codes, List, IfOk, OnOk};
ghost use Rattle.wire_base.specs.Tree.{whole, words};
ghost use Rattle.rpc_items.specs.Ids.{id_value};
ghost use Rattle.rpc_items.specs.Told.{CanBeTold, HasNamedId};
ghost use Rattle.rpc_items.specs.Values.{map_of};
ghost use Rattle.rpc_items.specs.Writing.{error_id, message_value, params_value, version_member, with_member};

use crate::members::VERSION;
use rpc_items::{Message, Params};
use std::alloc::Global;
use wire_base::{Datum, Id, Node, OutOfMemory, PairList, Text, Whole};

/// A text as a value.
fn words(alloc: Global, text: &str) -> Result<Datum, OutOfMemory>
    ensures { IfOk result (λ value. value ≡ words text.now) }
{
    let text = Text::from_str(alloc, text)?;
    Ok(Datum {
        node: Node::Words(text),
    })
}

/// A signed number as a value.
fn number(n: i64) -> Datum
    ensures { result ≡ whole n }
{
    Datum {
        node: Node::Whole(Whole::from_i64(n)),
    }
}

/// An id as a value.
fn id_value(alloc: Global, id: &Id) -> Result<Datum, OutOfMemory>
    ensures { IfOk result (λ value. value ≡ id_value id.now) }
{
    match id {
        Id::Number(n) => Ok(number(*n)),
        Id::Name(name) => words(alloc, name.as_str()),
    }
}

/// Adds a member.
fn push(alloc: Global, members: &mut PairList, key: &str, value: Datum) -> Result<(), OutOfMemory>
    ensures { OnOk result (members.new ≡ members.old ++ (key.now, value) ∷ []) }
{
    let key = Text::from_str(alloc, key)?;
    members.push((key, value))
}

/// Adds parameters, unless they are absent.
fn push_params(alloc: Global, members: &mut PairList, params: &Params) -> Result<(), OutOfMemory>
    ensures { OnOk result (members.new ≡ members.old ++ with_member (codes "params") (params_value params.now)) }
{
    let node = match params {
        Params::Absent => return Ok(()),
        Params::List(values) => Node::Items(values.copy(alloc)?),
        Params::Named(pairs) => Node::Pairs(pairs.copy(alloc)?),
    };
    push(alloc, members, "params", Datum { node })
}

/// The members that each message has, the version alone.
fn versioned(alloc: Global) -> Result<PairList, OutOfMemory>
    ensures { IfOk result (λ members. members ≡ version_member ∷ []) }
{
    let mut members = PairList::new(alloc);
    let version = words(alloc, VERSION)?;
    push(alloc, &mut members, "jsonrpc", version)?;
    Ok(members)
}

/// The members of a request.
fn request(alloc: Global, id: &Id, method: &Text, params: &Params) -> Result<PairList, OutOfMemory>
    ensures { IfOk result (λ members. members ≡ version_member ∷ (codes "id", id_value id.now) ∷ (codes "method", words method.now) ∷ with_member (codes "params") (params_value params.now)) }
{
    let mut members = versioned(alloc)?;
    let id = id_value(alloc, id)?;
    push(alloc, &mut members, "id", id)?;
    let method = words(alloc, method.as_str())?;
    push(alloc, &mut members, "method", method)?;
    push_params(alloc, &mut members, params)?;
    Ok(members)
}

/// The members of a notification.
fn notification(alloc: Global, method: &Text, params: &Params) -> Result<PairList, OutOfMemory>
    ensures { IfOk result (λ members. members ≡ version_member ∷ (codes "method", words method.now) ∷ with_member (codes "params") (params_value params.now)) }
{
    let mut members = versioned(alloc)?;
    let method = words(alloc, method.as_str())?;
    push(alloc, &mut members, "method", method)?;
    push_params(alloc, &mut members, params)?;
    Ok(members)
}

/// The members of a result.
fn result_members(alloc: Global, id: &Id, value: &Datum) -> Result<PairList, OutOfMemory>
    ensures { IfOk result (λ members. members ≡ version_member ∷ (codes "id", id_value id.now) ∷ (codes "result", value.now) ∷ []) }
{
    let mut members = versioned(alloc)?;
    let id = id_value(alloc, id)?;
    push(alloc, &mut members, "id", id)?;
    let value = value.copy(alloc)?;
    push(alloc, &mut members, "result", value)?;
    Ok(members)
}

/// Adds an error's data, where there is some.
fn push_more(alloc: Global, members: &mut PairList, more: &Option<Datum>) -> Result<(), OutOfMemory>
    ensures { OnOk result (members.new ≡ members.old ++ with_member (codes "data") more.now) }
{
    match more {
        Some(more) => {
            let more = more.copy(alloc)?;
            push(alloc, members, "data", more)
        }
        None => Ok(()),
    }
}

/// What an error tells: its code, its text and its data.
fn told(
    alloc: Global,
    code: i64,
    text: &Text,
    more: &Option<Datum>,
) -> Result<PairList, OutOfMemory>
    ensures { IfOk result (λ members. members ≡ (codes "code", whole code) ∷ (codes "message", words text.now) ∷ with_member (codes "data") more.now) }
{
    let mut members = PairList::new(alloc);
    push(alloc, &mut members, "code", number(code))?;
    let text = words(alloc, text.as_str())?;
    push(alloc, &mut members, "message", text)?;
    push_more(alloc, &mut members, more)?;
    Ok(members)
}

/// The id of an error as a value, nil where it has none.
fn error_id(alloc: Global, id: &Option<Id>) -> Result<Datum, OutOfMemory>
    ensures { IfOk result (λ value. value ≡ error_id id.now) }
{
    match id {
        Some(id) => id_value(alloc, id),
        None => Ok(Datum { node: Node::Nil }),
    }
}

/// The members of an error.
fn error(alloc: Global, id: &Option<Id>, told: PairList) -> Result<PairList, OutOfMemory>
    ensures { IfOk result (λ members. members ≡ version_member ∷ (codes "id", error_id id.now) ∷ (codes "error", map_of told) ∷ []) }
{
    let mut members = versioned(alloc)?;
    let id = error_id(alloc, id)?;
    push(alloc, &mut members, "id", id)?;
    let value = Datum {
        node: Node::Pairs(told),
    };
    push(alloc, &mut members, "error", value)?;
    Ok(members)
}

/// A message as a value, with its members in the order jsonrpc, id, method, params, result, error.
pub fn to_datum(alloc: Global, message: &Message) -> Result<Datum, OutOfMemory>
    ensures value { IfOk result (λ value. value ≡ message_value message.now) }
    ensures can_be_told { OnOk result (HasNamedId message.now → CanBeTold message.now) }
{
    let members = match message {
        Message::Request(id, method, params) => request(alloc, id, method, params)?,
        Message::Notification(method, params) => notification(alloc, method, params)?,
        Message::Result(id, value) => result_members(alloc, id, value)?,
        Message::Error(id, code, text, more) => {
            let told = told(alloc, *code, text, more)?;
            error(alloc, id, told)?
        }
    };
    Ok(Datum {
        node: Node::Pairs(members),
    })
}
