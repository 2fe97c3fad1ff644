//! The numbers that `row_text` hasn't.

use std::alloc::Global;
use std::test::Fail;

/// A number as digits.
pub fn of_count(alloc: Global, count: usize) -> Result<String, Fail> {
    Ok(format!(in alloc; "{count}")?)
}

/// A number that may not fit in 64 bits, and 0 for any other word.
pub fn wide(word: &str) -> i128 {
    word.parse::<i128>().unwrap_or(0)
}
