//! The calls that words stand for.

use crate::values::value;
use row_text::{count, first};
use rpc_items::{Arg, ArgList, Arguments, Lifetime};
use std::alloc::Global;
use std::test::Fail;
use wire_base::{PairList, Text};

/// An argument with a name.
fn named(alloc: Global, name: &str, word: &str) -> Result<Arguments, Fail> {
    let mut pairs = PairList::new(alloc);
    pairs.push((Text::from_str(alloc, name)?, value(alloc, word)?))?;
    Ok(Arguments::Named(pairs))
}

/// An object of either lifetime, or a handle of the peer.
fn passed(kind: &str, number: u64) -> Arg {
    match kind {
        "call" => Arg::Object(number, Lifetime::Call),
        "explicit" => Arg::Object(number, Lifetime::Explicit),
        _ => Arg::Handed(number),
    }
}

/// The argument that a word stands for: `progress`, an object as `call:7` or `explicit:7`, a handle of the peer as `handed:1`,
/// or a value.
fn argument(alloc: Global, word: &str) -> Result<Arg, Fail> {
    match word.split_once(':') {
        Some((kind, number)) => Ok(passed(kind, count(number))),
        None if word == "progress" => Ok(Arg::Progress),
        None => Ok(Arg::Plain(value(alloc, word)?)),
    }
}

fn listed(alloc: Global, words: &str) -> Result<Arguments, Fail> {
    let mut args = ArgList::new(alloc);
    for word in words.split(' ') {
        args.push(argument(alloc, word)?)?;
    }
    Ok(Arguments::List(args))
}

/// The arguments that words stand for: none, `NAME=VALUE`, or some in order.
fn arguments(alloc: Global, words: &str) -> Result<Arguments, Fail> {
    if words.is_empty() {
        return Ok(Arguments::Absent);
    }
    match words.split_once('=') {
        Some((name, word)) => named(alloc, name, word),
        None => listed(alloc, words),
    }
}

/// The method that the first word names, and the arguments that the others stand for: none, `NAME=VALUE`, or some in order,
/// each `progress`, an object as `call:7` or `explicit:7`, a handle of the peer as `handed:1`, or a value.
pub fn call_of(alloc: Global, words: &str) -> Result<(Text, Arguments), Fail> {
    let (method, words) = first(words);
    let args = arguments(alloc, words)?;
    Ok((Text::from_str(alloc, method)?, args))
}
