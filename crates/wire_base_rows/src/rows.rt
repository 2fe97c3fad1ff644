//! Rows of calls with what is answered, of which each says whose calls all in its table are.

use crate::names::of_name;
use crate::text_calls::of_call;
use crate::tokens::{of_front, of_lengths, of_number};
use crate::values::{of_last, with_copy};
use row_text::{bytes, parted};
use std::alloc::Global;
use std::process::Abort;
use std::test::Fail;

/// What a row says, its parts between bars. Bytes are in hex.
#[derive(Clone, Copy)]
pub enum Claim {
    /// Bytes, and the head that they are with the last of them and not before.
    Reads,
    /// Bytes, and what is told of the head at their front.
    Fronts,
    /// A number, and its shortest spelling.
    Spells,
    /// A sort and lengths, and the shortest heads of all in order.
    Lengths,
    /// A call on texts or on empty values, and what is told of it.
    Calls,
    /// A key and the pairs of a map, and the value that counts.
    Last,
    /// The items of an array, of which a copy is told as itself.
    Copies,
    /// A reason or a refusal, and its number and name.
    Names,
}

pub fn is_told(rt: &impl Abort, told: &str, wanted: &str, row: &str) {
    assert_eq!(rt; told, wanted, "at {row}");
}

fn is_told_of(rt: &impl Abort, told: &str, wanted: &str, bytes: &[u8]) {
    assert_eq!(rt; told, wanted, "of {bytes:?}");
}

fn is_front(rt: &impl Abort, alloc: Global, bytes: &[u8], wanted: &str) -> Result<(), Fail> {
    let told = of_front(alloc, bytes)?;
    is_told_of(rt, told.as_str(), wanted, bytes);
    Ok(())
}

fn due(count: usize, known: usize, wanted: &str) -> &str {
    if count < known { "short" } else { wanted }
}

fn is_read(rt: &impl Abort, alloc: Global, bytes: &[u8], wanted: &str) -> Result<(), Fail> {
    for end in 0..=bytes.len() {
        is_front(rt, alloc, &bytes[..end], due(end, bytes.len(), wanted))?;
    }
    Ok(())
}

fn is_head(rt: &impl Abort, alloc: Global, bytes: &[u8], head: &str) -> Result<(), Fail> {
    let wanted = format!(in alloc; "{head} of {} bytes", bytes.len())?;
    is_read(rt, alloc, bytes, wanted.as_str())
}

fn reads(rt: &impl Abort, alloc: Global, spelling: &str, head: &str) -> Result<(), Fail> {
    let bytes = bytes(alloc, spelling)?;
    is_head(rt, alloc, bytes.as_slice(), head)
}

fn fronts(rt: &impl Abort, alloc: Global, spelling: &str, wanted: &str) -> Result<(), Fail> {
    let bytes = bytes(alloc, spelling)?;
    is_front(rt, alloc, bytes.as_slice(), wanted)
}

fn told(alloc: Global, claim: Claim, words: &str) -> Result<String, Fail> {
    match claim {
        Claim::Spells => of_number(alloc, words),
        Claim::Lengths => of_lengths(alloc, words),
        Claim::Last => of_last(alloc, words),
        Claim::Names => of_name(alloc, words),
        _ => of_call(alloc, words),
    }
}

fn tells(rt: &impl Abort, alloc: Global, claim: Claim, row: &str) -> Result<(), Fail> {
    let (words, wanted) = parted(row);
    let told = told(alloc, claim, words)?;
    is_told(rt, told.as_str(), wanted, row);
    Ok(())
}

fn are_told_alike(rt: &impl Abort, value: &str, copy: &str) {
    assert_eq!(rt; copy, value);
}

fn copies(rt: &impl Abort, alloc: Global, words: &str) -> Result<(), Fail> {
    let (value, copy) = with_copy(alloc, words)?;
    are_told_alike(rt, value.as_str(), copy.as_str());
    Ok(())
}

fn holds(rt: &impl Abort, alloc: Global, claim: Claim, row: &str) -> Result<(), Fail> {
    let (front, rest) = parted(row);
    match claim {
        Claim::Reads => reads(rt, alloc, front, rest),
        Claim::Fronts => fronts(rt, alloc, front, rest),
        Claim::Copies => copies(rt, alloc, front),
        claim => tells(rt, alloc, claim, row),
    }
}

/// Each row holds.
pub fn hold(rt: &impl Abort, alloc: Global, claim: Claim, rows: &str) -> Result<(), Fail> {
    for row in rows.lines() {
        if !row.trim().is_empty() {
            holds(rt, alloc, claim, row)?;
        }
    }
    Ok(())
}
