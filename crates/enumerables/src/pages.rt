//! Sequences and their pages as values.

ghost use Rattle.rpc_items.specs.Pages.{page_value, sequence_value};
ghost use Rattle.rpc_items.specs.Sequences.{is_last_page, token_of};
ghost use Rattle.rpc_items.specs.Values.{is_true};
ghost use Rattle.std.specs.Option.{option_copied};
ghost use Rattle.std.specs.Prelude.{◌≡◌, IfOk, Some};

use rpc_items::Outcome;
use rpc_message::id_if;
use std::alloc::Global;
use wire_base::{Datum, DatumList, Id, Node, OutOfMemory, PairList, Text, Whole};

/// Values of their own.
fn copied(alloc: Global, values: &[Datum]) -> Result<DatumList, OutOfMemory>
    ensures { IfOk result (λ list. list ≡ values.now) }
{
    let mut list = DatumList::new(alloc);
    for value in values {
        let value = value.copy(alloc)?;
        list.push(value)?;
    }
    Ok(list)
}

/// The result that is a sequence: its token, where values are left, and its first values.
pub fn sequence_value(
    alloc: Global,
    token: Option<u64>,
    values: &[Datum],
) -> Result<Datum, OutOfMemory>
    ensures { IfOk result (λ value. value ≡ sequence_value token values.now) }
{
    let mut members = PairList::new(alloc);
    if let Some(token) = token {
        let token = Datum {
            node: Node::Whole(Whole::from_u64(token)),
        };
        members.push((Text::from_str(alloc, "token")?, token))?;
    }
    let values = Datum {
        node: Node::Items(copied(alloc, values)?),
    };
    members.push((Text::from_str(alloc, "values")?, values))?;
    Ok(Datum {
        node: Node::Pairs(members),
    })
}

/// A page: whether it is the last, and its values.
pub fn page_value(alloc: Global, finished: bool, values: &[Datum]) -> Result<Datum, OutOfMemory>
    ensures { IfOk result (λ value. value ≡ page_value finished values.now) }
{
    let mut members = PairList::new(alloc);
    let finished = Datum {
        node: Node::Flag(finished),
    };
    members.push((Text::from_str(alloc, "finished")?, finished))?;
    let values = Datum {
        node: Node::Items(copied(alloc, values)?),
    };
    members.push((Text::from_str(alloc, "values")?, values))?;
    Ok(Datum {
        node: Node::Pairs(members),
    })
}

/// The token in what became of a request, where its result is a sequence with values left.
#[tactic(auto, using(crate::proofs::Back::back))]
pub fn token_of(alloc: Global, outcome: &Outcome) -> Result<Option<Id>, OutOfMemory>
    ensures { IfOk result (λ token. token ≡ token_of (Some outcome.now)) }
{
    let Outcome::Replied(value) = outcome else {
        return Ok(None);
    };
    match &value.node {
        Node::Pairs(members) => id_if(alloc, members.last("token")),
        _ => Ok(None),
    }
}

/// Whether what became of a request for a page ends the sequence: a finished page, or no page at all.
#[tactic(auto, using(crate::proofs::Back::back))]
pub fn is_last_page(outcome: &Outcome) -> bool
    ensures { result ≡ is_last_page (Some outcome.now) }
{
    let Outcome::Replied(value) = outcome else {
        return true;
    };
    match &value.node {
        Node::Pairs(members) => is_true(members.last("finished")),
        _ => false,
    }
}

/// Whether a member is the flag true.
fn is_true(member: Option<&Datum>) -> bool
    ensures { result ≡ is_true (option_copied member.entry) }
{
    match member {
        Some(value) => match &value.node {
            Node::Flag(flag) => *flag,
            _ => false,
        },
        None => false,
    }
}
