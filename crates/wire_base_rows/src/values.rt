//! Values that words stand for, and their copies.

use crate::text_calls::{blob, text};
use crate::words::of_count;
use row_text::{first, number, word};
use std::alloc::Global;
use std::test::Fail;
use wire_base::{Datum, DatumList, Node, PairList, Whole};

fn datum(node: Node) -> Datum {
    Datum { node }
}

fn whole(word: &str) -> Datum {
    datum(Node::Whole(Whole::from_i64(number(word))))
}

/// A flag, or a number.
fn scalar(word: &str) -> Datum {
    match word {
        "true" => datum(Node::Flag(true)),
        "false" => datum(Node::Flag(false)),
        word => whole(word),
    }
}

fn push_pair(alloc: Global, pairs: &mut PairList, key: &str, word: &str) -> Result<(), Fail> {
    pairs.push((text(alloc, key)?, scalar(word)))?;
    Ok(())
}

fn push_pair_of(alloc: Global, pairs: &mut PairList, word: &str) -> Result<(), Fail> {
    let (key, word) = word.split_once('=').unwrap_or((word, ""));
    push_pair(alloc, pairs, key, word)
}

fn push_pairs(alloc: Global, pairs: &mut PairList, words: &str) -> Result<(), Fail> {
    for word in words.split_whitespace() {
        push_pair_of(alloc, pairs, word)?;
    }
    Ok(())
}

/// Pairs of a key and a flag or a number, as `a=true`.
fn pairs(alloc: Global, words: &str) -> Result<PairList, Fail> {
    let mut pairs = PairList::new(alloc);
    push_pairs(alloc, &mut pairs, words)?;
    Ok(pairs)
}

fn map(alloc: Global, word: &str) -> Result<Datum, Fail> {
    Ok(datum(Node::Pairs(pairs(alloc, word)?)))
}

fn bytes_of(alloc: Global, word: &str) -> Result<Datum, Fail> {
    Ok(datum(Node::Bytes(blob(alloc, word)?)))
}

fn words_of(alloc: Global, word: &str) -> Result<Datum, Fail> {
    Ok(datum(Node::Words(text(alloc, word)?)))
}

/// Bytes as `bytes:x`, a text as `text:y`, a map of one pair as `map:a=true`, or nil.
fn item(alloc: Global, word: &str) -> Result<Datum, Fail> {
    match word.split_once(':') {
        Some(("bytes", word)) => bytes_of(alloc, word),
        Some(("text", word)) => words_of(alloc, word),
        Some((_, word)) => map(alloc, word),
        None => Ok(datum(Node::Nil)),
    }
}

fn push_item(alloc: Global, items: &mut DatumList, word: &str) -> Result<(), Fail> {
    items.push(item(alloc, word)?)?;
    Ok(())
}

fn push_items(alloc: Global, items: &mut DatumList, words: &str) -> Result<(), Fail> {
    for word in words.split_whitespace() {
        push_item(alloc, items, word)?;
    }
    Ok(())
}

fn items(alloc: Global, words: &str) -> Result<DatumList, Fail> {
    let mut items = DatumList::new(alloc);
    push_items(alloc, &mut items, words)?;
    Ok(items)
}

fn copied_items(alloc: Global, items: &DatumList) -> Result<DatumList, Fail> {
    Ok(items.copy(alloc)?)
}

/// How many items a copy has.
pub fn of_copied_items(alloc: Global, words: &str) -> Result<String, Fail> {
    let items = items(alloc, words)?;
    of_count(alloc, copied_items(alloc, &items)?.len())
}

fn copied_pairs(alloc: Global, pairs: &PairList) -> Result<PairList, Fail> {
    Ok(pairs.copy(alloc)?)
}

/// How many pairs a copy has.
pub fn of_copied_pairs(alloc: Global, words: &str) -> Result<String, Fail> {
    let pairs = pairs(alloc, words)?;
    of_count(alloc, copied_pairs(alloc, &pairs)?.len())
}

fn of_value(alloc: Global, value: &Datum) -> Result<String, Fail> {
    Ok(format!(in alloc; "{value:?}")?)
}

fn copied(alloc: Global, value: &Datum) -> Result<Datum, Fail> {
    Ok(value.copy(alloc)?)
}

fn of_copy(alloc: Global, value: &Datum) -> Result<String, Fail> {
    of_value(alloc, &copied(alloc, value)?)
}

fn array(alloc: Global, words: &str) -> Result<Datum, Fail> {
    Ok(datum(Node::Items(items(alloc, words)?)))
}

/// An array of these items, and a copy of it, as text.
pub fn with_copy(alloc: Global, words: &str) -> Result<(String, String), Fail> {
    let value = array(alloc, words)?;
    with_copy_of(alloc, &value)
}

fn with_copy_of(alloc: Global, value: &Datum) -> Result<(String, String), Fail> {
    let copy = of_copy(alloc, value)?;
    Ok((of_value(alloc, value)?, copy))
}

fn of_flag(value: Option<&Datum>) -> &'static str {
    let Some(value) = value else {
        return "none";
    };
    match &value.node {
        Node::Flag(true) => "true",
        Node::Flag(false) => "false",
        _ => "other",
    }
}

fn last<'a>(pairs: &'a PairList, key: &str) -> Option<&'a Datum> {
    pairs.last(key)
}

fn of_last_in(alloc: Global, pairs: &PairList, key: &str) -> Result<String, Fail> {
    word(alloc, of_flag(last(pairs, key)))
}

/// The flag that counts for a key in pairs.
pub fn of_last(alloc: Global, words: &str) -> Result<String, Fail> {
    let (key, words) = first(words);
    of_last_in(alloc, &pairs(alloc, words)?, key)
}
