//! What words stand for, and bytes as text.

use message_body::{Encoding, Message, Params};
use message_framing::Framing;
use row_text::{byte, first, push_escaped, size};
use std::alloc::Global;
use std::test::Fail;
use wire_base::{Blob, Datum, DatumList, Id, Node, Text, Whole};

pub fn encoding(word: &str) -> Encoding {
    match word {
        "pack" => Encoding::Pack,
        _ => Encoding::Json,
    }
}

pub fn framing(word: &str) -> Framing {
    match word {
        "header" => Framing::Header,
        _ => Framing::Length,
    }
}

/// The byte that a letter behind a backslash stands for: a backslash stands for itself.
fn control(letter: u8) -> u8 {
    match letter {
        b'r' => b'\r',
        b'n' => b'\n',
        b't' => b'\t',
        letter => letter,
    }
}

/// The byte behind a backslash, and the letters behind it.
fn escaped(letters: &[u8]) -> Option<(u8, &[u8])> {
    match letters {
        [b'x', high, low, rest @ ..] => Some((byte(*high, *low), rest)),
        [letter, rest @ ..] => Some((control(*letter), rest)),
        [] => None,
    }
}

/// The first byte that letters stand for, and the letters behind it.
fn next_byte(letters: &[u8]) -> Option<(u8, &[u8])> {
    match letters {
        [b'\\', rest @ ..] => escaped(rest),
        [byte, rest @ ..] => Some((*byte, rest)),
        [] => None,
    }
}

/// The bytes that text stands for, where `\r`, `\n`, `\t`, `\\` and `\x00` are one byte each.
pub fn bytes_of(alloc: Global, text: &str) -> Result<Vec<u8>, Fail> {
    let mut bytes = Vec::new(alloc);
    let mut letters = text.as_bytes();
    for _ in 0..text.len() {
        if let Some((byte, rest)) = next_byte(letters) {
            bytes.push(byte)?;
            letters = rest;
        }
    }
    Ok(bytes)
}

fn push_byte(text: &mut String, byte: u8) -> Result<(), Fail> {
    match byte {
        b'\r' => Ok(text.push_str("\\r")?),
        b'\n' => Ok(text.push_str("\\n")?),
        b'\\' => Ok(text.push_str("\\\\")?),
        b' '..=b'~' => Ok(text.push(char::from(byte))?),
        byte => push_escaped(text, byte),
    }
}

/// Bytes as text that stands for them.
pub fn text_of(alloc: Global, bytes: &[u8]) -> Result<String, Fail> {
    let mut text = String::new(alloc);
    for byte in bytes {
        push_byte(&mut text, *byte)?;
    }
    Ok(text)
}

fn number(word: &str) -> Datum {
    Datum {
        node: Node::Whole(Whole::from_i64(i64::from(size(word)))),
    }
}

pub fn blob(alloc: Global, bytes: &[u8]) -> Result<Datum, Fail> {
    let node = Node::Bytes(Blob::from_bytes(alloc, bytes)?);
    Ok(Datum { node })
}

/// A number, or some bytes.
fn value(alloc: Global, word: &str) -> Result<Datum, Fail> {
    match word {
        "bytes" => blob(alloc, b"x"),
        word => Ok(number(word)),
    }
}

fn array_of(alloc: Global, value: Datum) -> Result<Datum, Fail> {
    let mut items = DatumList::new(alloc);
    items.push(value)?;
    let node = Node::Items(items);
    Ok(Datum { node })
}

/// The words are how many arrays stand in one another, and the value in the inmost.
pub fn nested(alloc: Global, words: &str) -> Result<Datum, Fail> {
    let (levels, word) = first(words);
    let mut nested = value(alloc, word)?;
    for _ in 0..size(levels) {
        nested = array_of(alloc, nested)?;
    }
    Ok(nested)
}

fn numbers(alloc: Global, words: &str) -> Result<DatumList, Fail> {
    let mut values = DatumList::new(alloc);
    for word in words.split(' ') {
        values.push(number(word))?;
    }
    Ok(values)
}

fn id(word: &str) -> Id {
    Id::Number(i64::from(size(word)))
}

/// The words are an id, a method, and arguments.
fn request(alloc: Global, words: &str) -> Result<Message, Fail> {
    let (id_word, words) = first(words);
    let (method, words) = first(words);
    let params = Params::List(numbers(alloc, words)?);
    Ok(Message::Request(id(id_word), Text::from_str(alloc, method)?, params))
}

/// A reply to request 1.
pub fn reply(value: Datum) -> Message {
    Message::Result(Id::Number(1), value)
}

/// A request, or a reply by a value.
pub fn message(alloc: Global, words: &str) -> Result<Message, Fail> {
    match first(words) {
        ("request", words) => request(alloc, words),
        (_, word) => Ok(reply(number(word))),
    }
}
