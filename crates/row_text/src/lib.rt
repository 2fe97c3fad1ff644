//! The text of rows: their words, numbers and parts, and bytes as digits. Only tests use it, so no function has clauses, and
//! what a test proves of its rows isn't drawn through them. What a row asserts stays with its test: only a test may stop.
//!
//! `reading` reads the parts of a row; `digits` reads and writes bytes.
#![tactic(auto)]

mod digits;
mod reading;

pub use digits::{byte, bytes, hex_of, push_bytes, push_escaped, push_hex, push_repeated, repeats};
pub use reading::{count, first, number, parted, size, word};
