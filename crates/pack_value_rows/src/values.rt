//! The values that words stand for, how values are written, and what is told of bytes.

use pack_value::{EncodeFault, Step, decode, encode};
use row_text::size;
use std::alloc::Global;
use std::test::Fail;
use wire_base::{Blob, Datum, DatumList, Node, PairList, Place, Reason, Text, Whole};

/// The place of the first byte.
const START: u64 = 7;

fn whole(word: &str) -> Result<Datum, Fail> {
    match Whole::new(word.parse::<i128>().unwrap_or(0)) {
        Some(number) => Ok(Datum {
            node: Node::Whole(number),
        }),
        None => Err(Fail::new("out of range")),
    }
}

fn blob(alloc: Global, bytes: &[u8]) -> Result<Datum, Fail> {
    let node = Node::Bytes(Blob::from_bytes(alloc, bytes)?);
    Ok(Datum { node })
}

fn zeros(alloc: Global, count: usize) -> Result<Datum, Fail> {
    let bytes = vec![in alloc; 0; count]?;
    blob(alloc, bytes.as_slice())
}

/// A map of one number.
fn map_of(alloc: Global, key: &str, word: &str) -> Result<Datum, Fail> {
    let mut pairs = PairList::new(alloc);
    pairs.push((Text::from_str(alloc, key)?, whole(word)?))?;
    let node = Node::Pairs(pairs);
    Ok(Datum { node })
}

fn array_of(alloc: Global, value: Datum) -> Result<Datum, Fail> {
    let mut items = DatumList::new(alloc);
    items.push(value)?;
    let node = Node::Items(items);
    Ok(Datum { node })
}

fn bytes_or_whole(alloc: Global, word: &str) -> Result<Datum, Fail> {
    match word.strip_prefix("zeros") {
        Some(count) => zeros(alloc, size(count) as usize),
        None => whole(word),
    }
}

fn inmost(alloc: Global, word: &str) -> Result<Datum, Fail> {
    match word.split_once('=') {
        Some((key, word)) => map_of(alloc, key, word),
        None => bytes_or_whole(alloc, word),
    }
}

fn nested(alloc: Global, word: &str, levels: usize) -> Result<Datum, Fail> {
    let mut value = inmost(alloc, word)?;
    for _ in 0..levels {
        value = array_of(alloc, value)?;
    }
    Ok(value)
}

/// A number, `zeros` with how many bytes that are 0, or a map as `KEY=NUMBER`, and behind it `in` with how many arrays stand
/// around it.
pub fn value(alloc: Global, words: &str) -> Result<Datum, Fail> {
    let (word, levels) = words.split_once(" in ").unwrap_or((words, "0"));
    nested(alloc, word, size(levels) as usize)
}

/// The value is written behind what stands there.
fn push(text: &mut Vec<u8>, value: &Datum) -> Result<(), EncodeFault> {
    encode(value, text)
}

/// Whether the value is written behind what stands there, or why it isn't.
pub fn append(text: &mut Vec<u8>, value: &Datum) -> &'static str {
    match push(text, value) {
        Ok(()) => "written",
        Err(EncodeFault::TooDeep) => "too deep",
        Err(EncodeFault::TooLong) => "too long",
        Err(EncodeFault::OutOfMemory) => "out of memory",
    }
}

pub fn encoded(alloc: Global, value: &Datum) -> Result<Vec<u8>, Fail> {
    let mut text = Vec::new(alloc);
    push(&mut text, value)?;
    Ok(text)
}

fn decoded(alloc: Global, bytes: &[u8]) -> Step {
    decode(alloc, bytes, Place(START))
}

/// The place, from the first byte on, and the reason.
fn of_refusal(alloc: Global, place: u64, reason: Reason) -> Result<String, Fail> {
    Ok(format!(in alloc; "{} {reason:?}", place.wrapping_sub(START))?)
}

fn of_step(alloc: Global, step: &Step) -> Result<String, Fail> {
    match step {
        Step::Got(_, size) => Ok(format!(in alloc; "{size} bytes")?),
        Step::Short => Ok(String::from_str(alloc, "short")?),
        Step::Refused(place, reason) => of_refusal(alloc, place.0, *reason),
        Step::OutOfMemory => Ok(String::from_str(alloc, "out of memory")?),
    }
}

/// How many of the bytes spell a value, or which of them is refused and why.
pub fn told(alloc: Global, bytes: &[u8]) -> Result<String, Fail> {
    of_step(alloc, &decoded(alloc, bytes))
}

/// What so many bytes spell is written.
fn push_again(text: &mut Vec<u8>, count: usize, step: &Step) -> Result<(), Fail> {
    match step {
        Step::Got(value, size) if *size == count => Ok(push(text, value)?),
        _ => Err(Fail::new("no value")),
    }
}

/// The shortest spelling of the value that the bytes, all of them, spell.
pub fn respelled(alloc: Global, bytes: &[u8]) -> Result<Vec<u8>, Fail> {
    let mut text = Vec::new(alloc);
    push_again(&mut text, bytes.len(), &decoded(alloc, bytes))?;
    Ok(text)
}
