//! The parts of rows, and the numbers that words write.

use std::alloc::Global;
use std::test::Fail;

/// What stands before the first bar, and behind it.
pub fn parted(row: &str) -> (&str, &str) {
    let (front, back) = row.split_once('|').unwrap_or((row, ""));
    (front.trim(), back.trim())
}

/// The first word, and the others.
pub fn first(words: &str) -> (&str, &str) {
    let (word, words) = words.split_once(' ').unwrap_or((words, ""));
    (word, words.trim())
}

/// The number that a word writes, and 0 for any other word.
pub fn number(word: &str) -> i64 {
    word.trim().parse::<i64>().unwrap_or(0)
}

/// A number from 0 up.
pub fn count(word: &str) -> u64 {
    number(word).unsigned_abs()
}

/// A number that is no more than fits, and 0 for any other.
pub fn size(word: &str) -> u32 {
    u32::try_from(number(word)).unwrap_or(0)
}

/// This text alone.
pub fn word(alloc: Global, word: &str) -> Result<String, Fail> {
    Ok(String::from_str(alloc, word)?)
}
