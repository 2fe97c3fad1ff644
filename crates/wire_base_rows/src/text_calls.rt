//! Texts, ids and bytes, made and copied, and what is told of them.

use crate::values::{of_copied_items, of_copied_pairs};
use row_text::{bytes, first, hex_of, word};
use std::alloc::Global;
use std::test::Fail;
use wire_base::{Blob, Id, Text, TextFault};

pub fn text(alloc: Global, words: &str) -> Result<Text, Fail> {
    Ok(Text::from_str(alloc, words)?)
}

fn read(alloc: Global, bytes: &[u8]) -> Result<Text, TextFault> {
    Text::from_utf8(alloc, bytes)
}

fn of_text(alloc: Global, text: &Text) -> Result<String, Fail> {
    Ok(format!(in alloc; "\"{}\"", text.as_str())?)
}

fn of_read(alloc: Global, read: &Result<Text, TextFault>) -> Result<String, Fail> {
    match read {
        Ok(text) => of_text(alloc, text),
        Err(fault) => Ok(format!(in alloc; "{fault:?}")?),
    }
}

fn of_utf8(alloc: Global, spelling: &str) -> Result<String, Fail> {
    let bytes = bytes(alloc, spelling)?;
    of_read(alloc, &read(alloc, bytes.as_slice()))
}

fn read_text(alloc: Global, spelling: &str) -> Result<Text, Fail> {
    let bytes = bytes(alloc, spelling)?;
    Ok(Text::from_utf8(alloc, bytes.as_slice())?)
}

fn are_same_texts(text: &Text, other: &Text) -> bool {
    text == other
}

fn of_same(alloc: Global, is_same: bool) -> Result<String, Fail> {
    word(alloc, if is_same { "same" } else { "other" })
}

fn of_other_text(alloc: Global, read: &Text, words: &str) -> Result<String, Fail> {
    let other = text(alloc, words)?;
    of_same(alloc, are_same_texts(read, &other))
}

/// Whether bytes and a text are the same.
fn of_texts(alloc: Global, words: &str) -> Result<String, Fail> {
    let (spelling, words) = first(words);
    let read = read_text(alloc, spelling)?;
    of_other_text(alloc, &read, words)
}

fn copied_text(alloc: Global, text: &Text) -> Result<Text, Fail> {
    Ok(text.copy(alloc)?)
}

fn copied_id(alloc: Global, id: &Id) -> Result<Id, Fail> {
    Ok(id.copy(alloc)?)
}

fn are_same_ids(id: &Id, other: &Id) -> bool {
    id == other
}

fn of_other_id(alloc: Global, id: &Id, other: &Id) -> Result<String, Fail> {
    let copy = copied_id(alloc, other)?;
    of_same(alloc, are_same_ids(id, &copy))
}

fn of_ids(alloc: Global, copy: Text, text: Text) -> Result<String, Fail> {
    of_other_id(alloc, &Id::Name(copy), &Id::Name(text))
}

/// Whether an id of a copy and a copy of an id are the same.
fn of_names(alloc: Global, spelling: &str) -> Result<String, Fail> {
    let text = read_text(alloc, spelling)?;
    let copy = copied_text(alloc, &text)?;
    of_ids(alloc, copy, text)
}

fn of_faults(alloc: Global) -> Result<String, Fail> {
    Ok(format!(in alloc; "{}, {}", TextFault::BadUtf8, TextFault::OutOfMemory)?)
}

pub fn blob(alloc: Global, words: &str) -> Result<Blob, Fail> {
    Ok(Blob::from_bytes(alloc, words.as_bytes())?)
}

fn copied_blob(alloc: Global, blob: &Blob) -> Result<Blob, Fail> {
    Ok(blob.copy(alloc)?)
}

fn of_blob(alloc: Global, blob: &Blob) -> Result<String, Fail> {
    hex_of(alloc, blob.as_bytes())
}

fn of_copied_blob(alloc: Global, words: &str) -> Result<String, Fail> {
    let blob = blob(alloc, words)?;
    of_blob(alloc, &copied_blob(alloc, &blob)?)
}

fn of_copied_text(alloc: Global, words: &str) -> Result<String, Fail> {
    let text = text(alloc, words)?;
    of_text(alloc, &copied_text(alloc, &text)?)
}

/// What is told of a call on texts, or of a copy.
pub fn of_call(alloc: Global, words: &str) -> Result<String, Fail> {
    match first(words) {
        ("utf8", spelling) => of_utf8(alloc, spelling),
        ("texts", words) => of_texts(alloc, words),
        ("names", spelling) => of_names(alloc, spelling),
        ("faults", _) => of_faults(alloc),
        ("bytes", words) => of_copied_blob(alloc, words),
        ("text", words) => of_copied_text(alloc, words),
        ("items", words) => of_copied_items(alloc, words),
        ("pairs", words) => of_copied_pairs(alloc, words),
        _ => word(alloc, "no such call"),
    }
}
