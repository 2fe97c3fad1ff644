//! What words stand for that only tables are asked: objects, and the arguments that pass them or their handles.

use row_text::{count, first, number};
use row_words::{id_of, whole};
use rpc_items::{Arg, ArgList, Lifetime, Params};
use std::alloc::Global;
use std::test::Fail;
use wire_base::{Datum, Id, Node, PairList, Text};

/// The number that a word writes, where there is one.
pub fn count_if_any(word: &str) -> Option<u64> {
    match word {
        "" => None,
        word => Some(count(word)),
    }
}

/// The id that a word stands for, where there is one.
pub fn id_if_any(alloc: Global, word: &str) -> Result<Option<Id>, Fail> {
    match word {
        "" => Ok(None),
        word => Ok(Some(id_of(alloc, word)?)),
    }
}

/// An object of either lifetime as `call:7` or `explicit:7`, a handle of the peer as `handed:1`, or `progress`.
fn argument(word: &str) -> Arg {
    match word.split_once(':') {
        Some(("call", n)) => Arg::Object(count(n), Lifetime::Call),
        Some(("explicit", n)) => Arg::Object(count(n), Lifetime::Explicit),
        Some((_, n)) => Arg::Handed(count(n)),
        None => Arg::Progress,
    }
}

fn push_arguments(args: &mut ArgList, words: &str) -> Result<(), Fail> {
    for word in words.split(' ') {
        args.push(argument(word))?;
    }
    Ok(())
}

/// The arguments that words stand for, each an object, a handle of the peer or `progress`.
pub fn arguments(alloc: Global, words: &str) -> Result<ArgList, Fail> {
    let mut args = ArgList::new(alloc);
    push_arguments(&mut args, words)?;
    Ok(args)
}

fn push_number(alloc: Global, members: &mut PairList, key: &str, n: i64) -> Result<(), Fail> {
    members.push((Text::from_str(alloc, key)?, whole(n)))?;
    Ok(())
}

fn text(alloc: Global, word: &str) -> Result<Datum, Fail> {
    Ok(Datum {
        node: Node::Words(Text::from_str(alloc, word)?),
    })
}

/// The lifetime, where one is told.
fn push_lifetime(alloc: Global, members: &mut PairList, lifetime: &str) -> Result<(), Fail> {
    if lifetime.is_empty() {
        return Ok(());
    }
    members.push((Text::from_str(alloc, "lifetime")?, text(alloc, lifetime)?))?;
    Ok(())
}

fn push_members(alloc: Global, members: &mut PairList, words: &str) -> Result<(), Fail> {
    let (marshaled, words) = first(words);
    let (handle, lifetime) = first(words);
    push_number(alloc, members, "__jsonrpc_marshaled", number(marshaled))?;
    push_number(alloc, members, "handle", number(handle))?;
    push_lifetime(alloc, members, lifetime)
}

/// A map with the members that tell an object: the words are the number by which it is marshaled, its handle, and its lifetime
/// or nothing.
pub fn object(alloc: Global, words: &str) -> Result<Datum, Fail> {
    let mut members = PairList::new(alloc);
    push_members(alloc, &mut members, words)?;
    Ok(Datum {
        node: Node::Pairs(members),
    })
}

fn push_object(alloc: Global, members: &mut PairList, word: &str) -> Result<(), Fail> {
    let (key, words) = word.split_once(':').unwrap_or((word, ""));
    members.push((Text::from_str(alloc, key)?, object(alloc, words)?))?;
    Ok(())
}

fn push_objects(alloc: Global, members: &mut PairList, parts: &str) -> Result<(), Fail> {
    for part in parts.split(", ") {
        push_object(alloc, members, part)?;
    }
    Ok(())
}

/// Parameters by name, between commas: a key, and behind a colon what an object is told by.
pub fn named(alloc: Global, parts: &str) -> Result<Params, Fail> {
    let mut members = PairList::new(alloc);
    push_objects(alloc, &mut members, parts)?;
    Ok(Params::Named(members))
}
