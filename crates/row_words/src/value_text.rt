//! Values, as text.

use row_text::word;
use std::alloc::Global;
use std::test::Fail;
use wire_base::{Datum, DatumList, Node, PairList, Text};

/// A number, a flag or a text.
fn of_plain(alloc: Global, value: &Datum) -> Result<String, Fail> {
    match &value.node {
        Node::Whole(number) => Ok(format!(in alloc; "{}", number.get())?),
        Node::Flag(flag) => Ok(format!(in alloc; "{flag}")?),
        Node::Words(text) => Ok(format!(in alloc; "\"{}\"", text.as_str())?),
        _ => word(alloc, "another value"),
    }
}

fn of_items(alloc: Global, items: &DatumList) -> Result<String, Fail> {
    let mut told = word(alloc, "[")?;
    for item in items.as_slice() {
        if told.len() > 1 {
            told.push_str(",")?;
        }
        told.push_str(of_plain(alloc, item)?.as_str())?;
    }
    told.push_str("]")?;
    Ok(told)
}

/// A member of a map: its name, and a plain value or an array of those.
fn of_member(alloc: Global, (name, value): &(Text, Datum)) -> Result<String, Fail> {
    let value = match &value.node {
        Node::Items(items) => of_items(alloc, items)?,
        _ => of_plain(alloc, value)?,
    };
    Ok(format!(in alloc; "\"{}\":{value}", name.as_str())?)
}

fn of_pairs(alloc: Global, pairs: &PairList) -> Result<String, Fail> {
    let mut told = word(alloc, "{")?;
    for pair in pairs.as_slice() {
        if told.len() > 1 {
            told.push_str(",")?;
        }
        told.push_str(of_member(alloc, pair)?.as_str())?;
    }
    told.push_str("}")?;
    Ok(told)
}

/// A number, a flag or a text, or a map of those and of arrays of them, which is how a sequence, a page and an object are
/// said. Each is told as it is in JSON, and other values as `another value`.
pub fn of_value(alloc: Global, value: &Datum) -> Result<String, Fail> {
    match &value.node {
        Node::Pairs(pairs) => of_pairs(alloc, pairs),
        _ => of_plain(alloc, value),
    }
}
