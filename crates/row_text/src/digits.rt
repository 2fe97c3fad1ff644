//! Bytes as digits, two for each.

use crate::reading::size;
use std::alloc::Global;
use std::test::Fail;

/// The number that a letter stands for as a digit, and 0 for any other letter.
fn digit(letter: u8) -> u8 {
    match letter {
        b'0'..=b'9' => letter - b'0',
        b'a'..=b'f' => letter - b'a' + 10,
        _ => 0,
    }
}

/// The byte of two digits.
pub fn byte(high: u8, low: u8) -> u8 {
    digit(high) << 4 | digit(low)
}

/// The bytes that digits stand for.
fn piece(alloc: Global, digits: &str) -> Result<Vec<u8>, Fail> {
    let mut bytes = Vec::new(alloc);
    for pair in digits.as_bytes().chunks_exact(2) {
        bytes.push(byte(pair[0], pair[1]))?;
    }
    Ok(bytes)
}

fn push_times(bytes: &mut Vec<u8>, piece: &[u8], times: u32) -> Result<(), Fail> {
    for _ in 0..times {
        bytes.extend_from_slice(piece)?;
    }
    Ok(())
}

/// Adds the bytes of these digits so many times. Digits are read once: some stand there millions of times.
pub fn push_repeated(
    alloc: Global,
    bytes: &mut Vec<u8>,
    digits: &str,
    times: u32,
) -> Result<(), Fail> {
    let piece = piece(alloc, digits)?;
    push_times(bytes, piece.as_slice(), times)
}

/// What stands before a `*`, and how many times it stands there, or once where there is no `*`.
pub fn repeats(word: &str) -> (&str, u32) {
    let (piece, times) = word.split_once('*').unwrap_or((word, "1"));
    (piece, size(times))
}

fn push_word(alloc: Global, bytes: &mut Vec<u8>, word: &str) -> Result<(), Fail> {
    let (digits, times) = repeats(word);
    push_repeated(alloc, bytes, digits, times)
}

/// Adds the bytes of all these words: a word is digits, or digits with a `*` and how many times they stand there.
pub fn push_bytes(alloc: Global, bytes: &mut Vec<u8>, words: &str) -> Result<(), Fail> {
    for word in words.split_whitespace() {
        push_word(alloc, bytes, word)?;
    }
    Ok(())
}

/// The bytes of all these words: a word is digits, or digits with a `*` and how many times they stand there.
pub fn bytes(alloc: Global, words: &str) -> Result<Vec<u8>, Fail> {
    let mut bytes = Vec::new(alloc);
    push_bytes(alloc, &mut bytes, words)?;
    Ok(bytes)
}

/// Adds the two digits of a byte.
pub fn push_hex(text: &mut String, byte: u8) -> Result<(), Fail> {
    write!(text, "{byte:02x}")?;
    Ok(())
}

/// Adds the two digits of a byte behind `\x`.
pub fn push_escaped(text: &mut String, byte: u8) -> Result<(), Fail> {
    text.push_str("\\x")?;
    push_hex(text, byte)
}

/// The digits of bytes.
pub fn hex_of(alloc: Global, bytes: &[u8]) -> Result<String, Fail> {
    let mut text = String::new(alloc);
    for byte in bytes {
        push_hex(&mut text, *byte)?;
    }
    Ok(text)
}
