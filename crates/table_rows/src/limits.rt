//! Worked values and pages.

use crate::answers::of_fault;
use crate::rows::{Table, a_life};
use message_body::Encoding;
use row_text::{first, size, word};
use row_words::{value, whole};
use sequence_limits::{check_pages, check_values};
use std::alloc::Global;
use std::test::Fail;
use wire_base::{Blob, CallFault, Datum, DatumList, Node};

/// The limits of sequences, by which each is judged alone.
#[derive(Drop)]
struct Limits;

fn blob(alloc: Global, bytes: &[u8]) -> Result<Datum, Fail> {
    Ok(Datum {
        node: Node::Bytes(Blob::from_bytes(alloc, bytes)?),
    })
}

fn zeros(alloc: Global, count: usize) -> Result<Datum, Fail> {
    let bytes = vec![in alloc; 0; count]?;
    blob(alloc, bytes.as_slice())
}

/// So many zeros as bytes, as `zeros7`, or another value.
fn sized(alloc: Global, word: &str) -> Result<Datum, Fail> {
    match word.strip_prefix("zeros") {
        Some(count) => zeros(alloc, size(count) as usize),
        None => value(alloc, word),
    }
}

fn push_pair(alloc: Global, values: &mut DatumList, word: &str) -> Result<(), Fail> {
    values.push(whole(0))?;
    values.push(sized(alloc, word)?)?;
    Ok(())
}

/// Zero and a value.
fn pair(alloc: Global, word: &str) -> Result<DatumList, Fail> {
    let mut values = DatumList::new(alloc);
    push_pair(alloc, &mut values, word)?;
    Ok(values)
}

/// Whether a sequence is refused, in pages of one value behind the first ones.
fn check(alloc: Global, encoding: Encoding, values: &[Datum], first: u32) -> Result<(), CallFault> {
    match check_values(encoding, values) {
        Ok(()) => check_pages(alloc, encoding, values, 1, first),
        Err(refusal) => Err(CallFault::Refused(refusal)),
    }
}

fn judged(alloc: Global, encoding: Encoding, values: &[Datum], first: u32) -> Result<String, Fail> {
    match check(alloc, encoding, values, first) {
        Ok(()) => word(alloc, "ok"),
        Err(fault) => of_fault(alloc, fault),
    }
}

fn encoding(word: &str) -> Encoding {
    match word {
        "json" => Encoding::Json,
        _ => Encoding::Pack,
    }
}

/// The words are how many values come first, and the value behind zero.
fn judges(alloc: Global, encoding: Encoding, words: &str) -> Result<String, Fail> {
    let (early, word) = first(words);
    let values = pair(alloc, word)?;
    judged(alloc, encoding, values.as_slice(), size(early))
}

impl Table for Limits {
    fn empty(_: Global) -> Limits {
        Limits
    }

    fn call(&mut self, alloc: Global, call: &str) -> Result<String, Fail> {
        let (name, words) = first(call);
        judges(alloc, encoding(name), words)
    }
}

#[test]
fn bytes_are_refused_in_json(rt: HostRuntime) -> Result<(), Fail> {
    let rows = "
        json 0 bytes | BytesInJson
        pack 0 bytes | ok";
    a_life::<Limits>(&rt, rt.alloc(), &[rows])
}

#[test]
fn values_nest_124_levels(rt: HostRuntime) -> Result<(), Fail> {
    let rows = "
        json 0 deep124 | ok
        json 0 deep125 | TooDeep
        pack 0 deep124 | ok
        pack 0 deep125 | TooDeep";
    a_life::<Limits>(&rt, rt.alloc(), &[rows])
}

/// A page has 24 bytes more than the bytes that it holds in MessagePack. What goes with the result is in none.
#[test]
fn pages_end_at_their_limit(rt: HostRuntime) -> Result<(), Fail> {
    let rows = "
        pack 0 zeros16760808 | ok
        pack 0 zeros16760809 | BodyTooLong
        pack 1 zeros16760809 | BodyTooLong
        pack 2 zeros16760809 | ok
        pack 3 zeros16760809 | ok";
    a_life::<Limits>(&rt, rt.alloc(), &[rows])
}
