//! What the words of rows stand for.

use mux_end::ChannelKey;
use row_text::{count, push_repeated, repeats};
use std::alloc::Global;
use std::test::Fail;

/// The digits of a name, or the word itself. Frames are those of version 3 on channel 1: its offer is that of `a` with
/// window 8, its acceptance has window 4, and the other frames have no payload.
fn digits(word: &str) -> &str {
    match word {
        "lesser-plain-hello" => "2fdf1d5000000000000000000000000000000000",
        "greater-plain-hello" => "2fdf1d5001010101010101010101010101010101",
        "lesser-hello" => "92920200c41000000000000000000000000000000000",
        "greater-hello" => "92920200c41001010101010101010101010101010101",
        "offer" => "94000101c40492a16108",
        "acceptance" => "940101ffc4029104",
        "offerer-completes" => "93030101",
        "acceptor-completes" => "930301ff",
        "offerer-terminates" => "93040101",
        "acceptor-terminates" => "930401ff",
        _ => word,
    }
}

/// A word is digits or a name, or such with a `*` and how many times it stands there.
fn push_word(alloc: Global, bytes: &mut Vec<u8>, word: &str) -> Result<(), Fail> {
    let (word, times) = repeats(word);
    push_repeated(alloc, bytes, digits(word), times)
}

/// The bytes of all these words.
pub fn bytes(alloc: Global, words: &str) -> Result<Vec<u8>, Fail> {
    let mut bytes = Vec::new(alloc);
    for word in words.split_whitespace() {
        push_word(alloc, &mut bytes, word)?;
    }
    Ok(bytes)
}

fn key_of(id: &str, own: bool) -> ChannelKey {
    ChannelKey { id: count(id), own }
}

/// A channel is `own` or `peer` and its id.
pub fn key(word: &str) -> ChannelKey {
    match word.strip_prefix("own") {
        Some(id) => key_of(id, true),
        None => key_of(word.strip_prefix("peer").unwrap_or(""), false),
    }
}
