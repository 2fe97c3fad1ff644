//! Scripts that are made of rows of text.

use script::{Script, ScriptFault, read_script};
use std::alloc::Global;
use std::process::Abort;
use std::test::Fail;

pub fn read(alloc: Global, bytes: &[u8]) -> Result<Script, Fail> {
    Ok(read_script(alloc, bytes)?)
}

pub fn adds(text: &mut String, part: &str) -> Result<(), Fail> {
    Ok(text.push_str(part)?)
}

/// A letter of a row: `/` ends a line, and `~` stands for a carriage return.
fn letter(letter: char) -> char {
    match letter {
        '/' => '\n',
        '~' => '\r',
        _ => letter,
    }
}

fn adds_letter(text: &mut String, letter: char) -> Result<(), Fail> {
    Ok(text.push(letter)?)
}

/// What a row stands for.
pub fn adds_lines(text: &mut String, row: &str) -> Result<(), Fail> {
    for mark in row.chars() {
        adds_letter(text, letter(mark))?;
    }
    Ok(())
}

/// The first broken line and the number of its reason, and 0 where there is none.
fn broken(alloc: Global, bytes: &[u8]) -> (u64, u32) {
    match read_script(alloc, bytes) {
        Ok(_) => (0, 0),
        Err(ScriptFault::Refused(line, reason)) => (line, reason.number()),
        Err(ScriptFault::OutOfMemory) => (0, 1),
    }
}

/// The script breaks first in this line, by the reason with this number. Both are 0 where it doesn't break.
pub fn breaks(rt: &impl Abort, alloc: Global, bytes: &[u8], wanted: (u64, u32), row: &str) {
    assert_eq!(rt; broken(alloc, bytes), wanted, "at {row}");
}
