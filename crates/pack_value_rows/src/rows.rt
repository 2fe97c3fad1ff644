//! Rows of values and bytes, of which each says what is claimed of all in its table.

use crate::values::{append, encoded, respelled, told, value};
use row_text::{bytes, parted};
use std::alloc::Global;
use std::process::Abort;
use std::test::Fail;
use wire_base::Datum;

/// What a row says, its parts between bars. Bytes are in hex.
#[derive(Clone, Copy)]
pub enum Claim {
    /// A value, and its shortest spelling.
    Spells,
    /// A spelling, which is read with its last byte and not before, and the shortest one of the same value.
    Reads,
    /// The shortest spelling of a value.
    ReadsBack,
    /// The same, and half of its bytes are short.
    Edge,
    /// A front, more bytes, and what is told as soon as the front is in, whatever stands behind it, and not before.
    Refuses,
    /// Bytes, and what is told of them.
    Tells,
    /// What opens 127 levels: a value may stand behind it, and of an array or a map there the row has what is told.
    Deepest,
    /// A value, whether it is written behind the bytes 6f6c64 or why it isn't, and what stands there then.
    Appends,
}

fn is_same(rt: &impl Abort, told: &str, wanted: &str, row: &str) {
    assert_eq!(rt; told, wanted, "at {row}");
}

fn is_same_of(rt: &impl Abort, told: &str, wanted: &str, bytes: &[u8]) {
    assert_eq!(rt; told, wanted, "of {bytes:?}");
}

fn are_same(rt: &impl Abort, bytes: &[u8], wanted: &[u8]) {
    assert!(rt; bytes == wanted, "{} bytes", bytes.len());
}

fn are_words(rt: &impl Abort, alloc: Global, text: &[u8], words: &str) -> Result<(), Fail> {
    let wanted = bytes(alloc, words)?;
    are_same(rt, text, wanted.as_slice());
    Ok(())
}

fn is_told(rt: &impl Abort, alloc: Global, bytes: &[u8], wanted: &str) -> Result<(), Fail> {
    let told = told(alloc, bytes)?;
    is_same_of(rt, told.as_str(), wanted, bytes);
    Ok(())
}

fn due(count: usize, known: usize, wanted: &str) -> &str {
    if count < known { "short" } else { wanted }
}

/// Bytes are told so as soon as so many of them are in, and are short before.
fn is_told_from(
    rt: &impl Abort,
    alloc: Global,
    bytes: &[u8],
    (known, wanted): (usize, &str),
) -> Result<(), Fail> {
    for end in 0..=bytes.len() {
        is_told(rt, alloc, &bytes[..end], due(end, known, wanted))?;
    }
    Ok(())
}

fn is_spelled(rt: &impl Abort, alloc: Global, value: &Datum, words: &str) -> Result<(), Fail> {
    let text = encoded(alloc, value)?;
    are_words(rt, alloc, text.as_slice(), words)
}

fn spells(rt: &impl Abort, alloc: Global, words: &str, spelling: &str) -> Result<(), Fail> {
    let value = value(alloc, words)?;
    is_spelled(rt, alloc, &value, spelling)
}

/// The bytes are a value with the last of them and not before.
fn is_whole(rt: &impl Abort, alloc: Global, bytes: &[u8]) -> Result<(), Fail> {
    let wanted = format!(in alloc; "{} bytes", bytes.len())?;
    is_told_from(rt, alloc, bytes, (bytes.len(), wanted.as_str()))
}

fn is_respelled(rt: &impl Abort, alloc: Global, bytes: &[u8], shortest: &str) -> Result<(), Fail> {
    let text = respelled(alloc, bytes)?;
    are_words(rt, alloc, text.as_slice(), shortest)
}

fn is_read(rt: &impl Abort, alloc: Global, bytes: &[u8], shortest: &str) -> Result<(), Fail> {
    is_whole(rt, alloc, bytes)?;
    is_respelled(rt, alloc, bytes, shortest)
}

fn reads(rt: &impl Abort, alloc: Global, spelling: &str, shortest: &str) -> Result<(), Fail> {
    let spelling = bytes(alloc, spelling)?;
    is_read(rt, alloc, spelling.as_slice(), shortest)
}

fn is_read_back(rt: &impl Abort, alloc: Global, bytes: &[u8]) -> Result<(), Fail> {
    let text = respelled(alloc, bytes)?;
    are_same(rt, text.as_slice(), bytes);
    Ok(())
}

fn reads_back(rt: &impl Abort, alloc: Global, spelling: &str) -> Result<(), Fail> {
    let spelling = bytes(alloc, spelling)?;
    is_read_back(rt, alloc, spelling.as_slice())
}

fn half(bytes: &[u8]) -> &[u8] {
    &bytes[..bytes.len() / 2]
}

fn is_edge(rt: &impl Abort, alloc: Global, bytes: &[u8]) -> Result<(), Fail> {
    is_read_back(rt, alloc, bytes)?;
    is_told(rt, alloc, half(bytes), "short")
}

fn stands_at_an_edge(rt: &impl Abort, alloc: Global, spelling: &str) -> Result<(), Fail> {
    let spelling = bytes(alloc, spelling)?;
    is_edge(rt, alloc, spelling.as_slice())
}

fn tells_from(rt: &impl Abort, alloc: Global, words: &str, due: (usize, &str)) -> Result<(), Fail> {
    let bytes = bytes(alloc, words)?;
    is_told_from(rt, alloc, bytes.as_slice(), due)
}

fn count_of(alloc: Global, words: &str) -> Result<usize, Fail> {
    Ok(bytes(alloc, words)?.len())
}

/// What follows the front is refused with it, or is of no matter.
fn refuses(rt: &impl Abort, alloc: Global, front: &str, rest: &str) -> Result<(), Fail> {
    let (more, wanted) = parted(rest);
    let known = count_of(alloc, front)?;
    let words = format!(in alloc; "{front} {more} c100ff")?;
    tells_from(rt, alloc, words.as_str(), (known, wanted))
}

fn tells(rt: &impl Abort, alloc: Global, words: &str, wanted: &str) -> Result<(), Fail> {
    let bytes = bytes(alloc, words)?;
    is_told(rt, alloc, bytes.as_slice(), wanted)
}

/// A byte behind these bytes, that opens an array or a map, is refused.
fn nests_too_deep(
    rt: &impl Abort,
    alloc: Global,
    (open, last): (&str, &str),
    wanted: &str,
) -> Result<(), Fail> {
    let words = format!(in alloc; "{open} {last}")?;
    tells(rt, alloc, words.as_str(), wanted)
}

fn all_nest_too_deep(rt: &impl Abort, alloc: Global, open: &str, wanted: &str) -> Result<(), Fail> {
    for last in "90 91 80 8f dc dd de df".split_whitespace() {
        nests_too_deep(rt, alloc, (open, last), wanted)?;
    }
    Ok(())
}

/// A nil behind these bytes is the last of a value.
fn is_closed(rt: &impl Abort, alloc: Global, open: &str) -> Result<(), Fail> {
    let words = format!(in alloc; "{open} c0")?;
    reads_back(rt, alloc, words.as_str())
}

fn is_deepest(rt: &impl Abort, alloc: Global, open: &str, wanted: &str) -> Result<(), Fail> {
    tells(rt, alloc, open, "short")?;
    is_closed(rt, alloc, open)?;
    all_nest_too_deep(rt, alloc, open, wanted)
}

fn is_appended(
    rt: &impl Abort,
    alloc: Global,
    (text, value): (&mut Vec<u8>, &Datum),
    rest: &str,
) -> Result<(), Fail> {
    let (wanted, left) = parted(rest);
    is_same(rt, append(text, value), wanted, rest);
    are_words(rt, alloc, text.as_slice(), left)
}

fn is_appended_to_old(
    rt: &impl Abort,
    alloc: Global,
    value: &Datum,
    rest: &str,
) -> Result<(), Fail> {
    let mut text = bytes(alloc, "6f6c64")?;
    is_appended(rt, alloc, (&mut text, value), rest)
}

fn appends(rt: &impl Abort, alloc: Global, words: &str, rest: &str) -> Result<(), Fail> {
    let value = value(alloc, words)?;
    is_appended_to_old(rt, alloc, &value, rest)
}

fn holds(rt: &impl Abort, alloc: Global, claim: Claim, row: &str) -> Result<(), Fail> {
    let (front, rest) = parted(row);
    match claim {
        Claim::Spells => spells(rt, alloc, front, rest),
        Claim::Reads => reads(rt, alloc, front, rest),
        Claim::ReadsBack => reads_back(rt, alloc, front),
        Claim::Edge => stands_at_an_edge(rt, alloc, front),
        Claim::Refuses => refuses(rt, alloc, front, rest),
        Claim::Tells => tells(rt, alloc, front, rest),
        Claim::Deepest => is_deepest(rt, alloc, front, rest),
        Claim::Appends => appends(rt, alloc, front, rest),
    }
}

/// Each row holds.
pub fn hold(rt: &impl Abort, alloc: Global, claim: Claim, rows: &str) -> Result<(), Fail> {
    for row in rows.lines() {
        if !row.trim().is_empty() {
            holds(rt, alloc, claim, row)?;
        }
    }
    Ok(())
}
