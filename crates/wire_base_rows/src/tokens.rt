//! Heads and numbers, read and written.

use crate::words::wide;
use row_text::{first, hex_of, size, word};
use std::alloc::Global;
use std::test::Fail;
use wire_base::{
    HeadStep, TokenHead, Whole, head, push_array_head, push_bin_head, push_map_head, push_str_head,
    push_whole,
};

fn of_whole(alloc: Global, whole: Whole) -> Result<String, Fail> {
    Ok(format!(in alloc; "{}", whole.get())?)
}

fn of_length(alloc: Global, sort: &str, length: u32) -> Result<String, Fail> {
    Ok(format!(in alloc; "{sort} {length}")?)
}

fn of_flag(alloc: Global, flag: bool) -> Result<String, Fail> {
    Ok(format!(in alloc; "{flag}")?)
}

/// A number, or another word with the length that follows.
fn of_head(alloc: Global, head: TokenHead) -> Result<String, Fail> {
    match head {
        TokenHead::Nil => word(alloc, "nil"),
        TokenHead::Flag(flag) => of_flag(alloc, flag),
        TokenHead::Whole(whole) => of_whole(alloc, whole),
        TokenHead::Str(length) => of_length(alloc, "str", length),
        TokenHead::Bin(length) => of_length(alloc, "bin", length),
        TokenHead::Array(length) => of_length(alloc, "array", length),
        TokenHead::Map(length) => of_length(alloc, "map", length),
    }
}

fn of_got(alloc: Global, head: TokenHead, size: usize) -> Result<String, Fail> {
    let head = of_head(alloc, head)?;
    Ok(format!(in alloc; "{} of {size} bytes", head.as_str())?)
}

fn of_step(alloc: Global, step: HeadStep) -> Result<String, Fail> {
    match step {
        HeadStep::Got(head, size) => of_got(alloc, head, size),
        HeadStep::Refused(reason) => Ok(format!(in alloc; "refused {reason:?}")?),
        HeadStep::Short => word(alloc, "short"),
    }
}

fn step(bytes: &[u8]) -> HeadStep {
    head(bytes)
}

/// The head at the front, why it is refused, or that it is short.
pub fn of_front(alloc: Global, bytes: &[u8]) -> Result<String, Fail> {
    of_step(alloc, step(bytes))
}

fn push(out: &mut Vec<u8>, whole: Whole) -> Result<(), Fail> {
    push_whole(out, whole)?;
    Ok(())
}

fn push_number(out: &mut Vec<u8>, number: i128) -> Result<(), Fail> {
    match Whole::new(number) {
        Some(whole) => push(out, whole),
        None => Err(Fail::new("out of range")),
    }
}

fn spelled(alloc: Global, word: &str) -> Result<Vec<u8>, Fail> {
    let mut out = Vec::new(alloc);
    push_number(&mut out, wide(word))?;
    Ok(out)
}

/// The bytes that are appended for a number.
pub fn of_number(alloc: Global, word: &str) -> Result<String, Fail> {
    let out = spelled(alloc, word)?;
    hex_of(alloc, out.as_slice())
}

fn push_str(out: &mut Vec<u8>, length: u32) -> Result<(), Fail> {
    push_str_head(out, length)?;
    Ok(())
}

fn push_bin(out: &mut Vec<u8>, length: u32) -> Result<(), Fail> {
    push_bin_head(out, length)?;
    Ok(())
}

fn push_array(out: &mut Vec<u8>, length: u32) -> Result<(), Fail> {
    push_array_head(out, length)?;
    Ok(())
}

fn push_map(out: &mut Vec<u8>, length: u32) -> Result<(), Fail> {
    push_map_head(out, length)?;
    Ok(())
}

fn push_length(out: &mut Vec<u8>, sort: &str, length: u32) -> Result<(), Fail> {
    match sort {
        "str" => push_str(out, length),
        "bin" => push_bin(out, length),
        "array" => push_array(out, length),
        "map" => push_map(out, length),
        _ => Err(Fail::new("no such sort")),
    }
}

fn written(alloc: Global, words: &str) -> Result<Vec<u8>, Fail> {
    let (sort, lengths) = first(words);
    let mut out = Vec::new(alloc);
    for length in lengths.split_whitespace() {
        push_length(&mut out, sort, size(length))?;
    }
    Ok(out)
}

/// The bytes that are appended for heads of one sort and these lengths.
pub fn of_lengths(alloc: Global, words: &str) -> Result<String, Fail> {
    let out = written(alloc, words)?;
    hex_of(alloc, out.as_slice())
}
