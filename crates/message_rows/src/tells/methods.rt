//! What is told of methods, with their parameters in MessagePack.

use crate::tells::messages::value;
use row_text::first;
use rpc_methods::{Params, is_reserved, is_reserved_value, meaning_of};
use std::alloc::Global;
use std::test::Fail;
use wire_base::{Datum, Node, Text};

fn listed_or_named(value: Datum) -> Result<Params, Fail> {
    match value.node {
        Node::Items(values) => Ok(Params::List(values)),
        Node::Pairs(pairs) => Ok(Params::Named(pairs)),
        _ => Err(Fail::new("no parameters")),
    }
}

/// Without a byte there are no parameters.
fn params(alloc: Global, text: &str) -> Result<Params, Fail> {
    if text.is_empty() {
        Ok(Params::Absent)
    } else {
        listed_or_named(value(alloc, text)?)
    }
}

fn meaning(alloc: Global, method: &Text, params: &Params) -> Result<String, Fail> {
    let meaning = meaning_of(alloc, method, params)?;
    Ok(format!(in alloc; "{meaning:?}")?)
}

/// The words are a method and its parameters.
pub fn means(alloc: Global, words: &str) -> Result<String, Fail> {
    let (method, text) = first(words);
    let params = params(alloc, text)?;
    meaning(alloc, &Text::from_str(alloc, method)?, &params)
}

/// Whether callers may not use the method.
pub fn reserves(alloc: Global, method: &str) -> Result<String, Fail> {
    let reserves = is_reserved(&Text::from_str(alloc, method)?);
    Ok(format!(in alloc; "{reserves}")?)
}

/// Whether callers may not pass the value.
pub fn reserves_value(alloc: Global, text: &str) -> Result<String, Fail> {
    let reserves = is_reserved_value(&value(alloc, text)?);
    Ok(format!(in alloc; "{reserves}")?)
}
