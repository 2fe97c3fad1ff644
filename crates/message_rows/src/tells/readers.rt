//! What readers tell of streams in both framings.

use crate::words::{bytes_of, framing, text_of};
use message_framing::{Framing, Front, MessageReader, NextBody, wrap};
use row_text::{first, size, word};
use std::alloc::Global;
use std::test::Fail;
use wire_base::{Place, Reason};

pub fn start(alloc: Global, framing: Framing) -> MessageReader {
    MessageReader::new(alloc, framing)
}

fn feeds(reader: &mut MessageReader, piece: &[u8]) -> Result<(), Fail> {
    if reader.fed() < 1 << 40 && piece.len() < 1 << 40 {
        reader.feed(piece)?;
    }
    Ok(())
}

fn of_body(alloc: Global, place: u64, body: &[u8]) -> Result<String, Fail> {
    let text = text_of(alloc, body)?;
    Ok(format!(in alloc; "{text} at {place}")?)
}

fn of_refusal(alloc: Global, place: u64, reason: Reason) -> Result<String, Fail> {
    Ok(format!(in alloc; "{reason:?} at {place}")?)
}

/// A body or a refusal with its place, or nothing.
fn of_next(alloc: Global, next: &NextBody) -> Result<String, Fail> {
    match next {
        NextBody::Body(Place(place), body) => of_body(alloc, *place, body.as_bytes()),
        NextBody::Refused(Place(place), reason) => of_refusal(alloc, *place, *reason),
        NextBody::Short => word(alloc, ""),
        NextBody::OutOfMemory => Err(Fail::new("out of memory")),
    }
}

fn next(reader: &mut MessageReader) -> NextBody {
    reader.next()
}

/// What comes behind an answer: another one, the next piece, or nothing.
#[derive(Clone, Copy)]
enum Behind {
    Answer,
    Piece,
    Nothing,
}

fn comes_behind(next: &NextBody) -> Behind {
    match next {
        NextBody::Body(_, _) => Behind::Answer,
        NextBody::Short => Behind::Piece,
        _ => Behind::Nothing,
    }
}

/// Each answer is a line.
fn push_line(told: &mut String, line: &str) -> Result<(), Fail> {
    if !told.is_empty() && !line.is_empty() {
        told.push_str("\n")?;
    }
    told.push_str(line)?;
    Ok(())
}

fn push_next(alloc: Global, told: &mut String, next: &NextBody) -> Result<Behind, Fail> {
    push_line(told, of_next(alloc, next)?.as_str())?;
    Ok(comes_behind(next))
}

/// Tells all that a reader gives of the bytes that came, and whether it reads on.
fn drains(
    alloc: Global,
    reader: &mut MessageReader,
    most: usize,
    told: &mut String,
) -> Result<bool, Fail> {
    for _ in 0..most {
        match push_next(alloc, told, &next(reader))? {
            Behind::Answer => {}
            Behind::Piece => return Ok(true),
            Behind::Nothing => return Ok(false),
        }
    }
    Ok(false)
}

fn takes(
    alloc: Global,
    reader: &mut MessageReader,
    stream: &[u8],
    size: usize,
    told: &mut String,
) -> Result<(), Fail> {
    for piece in stream.chunks(size.max(1)) {
        feeds(reader, piece)?;
        if !drains(alloc, reader, stream.len(), told)? {
            break;
        }
    }
    Ok(())
}

fn starts(
    alloc: Global,
    framing: Framing,
    stream: &[u8],
    size: usize,
    told: &mut String,
) -> Result<(), Fail> {
    let mut reader = start(alloc, framing);
    takes(alloc, &mut reader, stream, size, told)
}

/// Everything that a reader gives, where the stream comes in pieces of so many bytes.
fn read(alloc: Global, framing: Framing, stream: &[u8], size: usize) -> Result<String, Fail> {
    let mut told = String::new(alloc);
    starts(alloc, framing, stream, size, &mut told)?;
    Ok(told)
}

fn is_read(
    alloc: Global,
    framing: Framing,
    stream: &[u8],
    size: usize,
    wanted: &str,
) -> Result<bool, Fail> {
    Ok(read(alloc, framing, stream, size)?.as_str() == wanted)
}

/// The same is read in pieces of any size.
fn is_steady(alloc: Global, framing: Framing, stream: &[u8], wanted: &str) -> Result<bool, Fail> {
    for size in [1, 2, 3, 7] {
        if !is_read(alloc, framing, stream, size, wanted)? {
            return Ok(false);
        }
    }
    Ok(true)
}

/// Nothing is read before the last byte.
fn is_late(alloc: Global, framing: Framing, stream: &[u8]) -> Result<bool, Fail> {
    for cut in 0..stream.len() {
        if !is_read(alloc, framing, &stream[..cut], cut, "")? {
            return Ok(false);
        }
    }
    Ok(true)
}

/// What is read of a stream, in any pieces, when its last byte is in and not before.
fn judged(alloc: Global, framing: Framing, stream: &[u8], told: String) -> Result<String, Fail> {
    if !is_steady(alloc, framing, stream, told.as_str())? {
        word(alloc, "another answer in other pieces")
    } else if !is_late(alloc, framing, stream)? {
        word(alloc, "an answer before the last byte")
    } else {
        Ok(told)
    }
}

fn streamed(alloc: Global, framing: Framing, stream: &[u8]) -> Result<String, Fail> {
    let told = read(alloc, framing, stream, stream.len())?;
    judged(alloc, framing, stream, told)
}

/// The words are a framing and a stream, which ends where its one answer is known.
pub fn streams(alloc: Global, words: &str) -> Result<String, Fail> {
    let (name, text) = first(words);
    streamed(alloc, framing(name), bytes_of(alloc, text)?.as_slice())
}

/// The words are a framing, the size of a piece, and a stream.
pub fn pieces(alloc: Global, words: &str) -> Result<String, Fail> {
    let (name, words) = first(words);
    let (count, text) = first(words);
    let stream = bytes_of(alloc, text)?;
    read(
        alloc,
        framing(name),
        stream.as_slice(),
        size(count) as usize,
    )
}

/// A header part of so many bytes, by a header line `A: aa..`, before a body of one byte.
fn long_stream(alloc: Global, len: u32) -> Result<Vec<u8>, Fail> {
    let mut bytes = Vec::from_slice(alloc, b"Content-Length: 1\r\nA: ")?;
    for _ in 26..len {
        bytes.push(b'a')?;
    }
    bytes.extend_from_slice(b"\r\n\r\nx")?;
    Ok(bytes)
}

fn front_of(stream: &[u8], len: u32) -> &[u8] {
    stream.get(..len as usize).unwrap_or(b"")
}

/// The words are the size of a header part, and how many bytes come of it and of its body, in pieces of 1000.
pub fn fronts(alloc: Global, words: &str) -> Result<String, Fail> {
    let (len, count) = first(words);
    let stream = long_stream(alloc, size(len))?;
    read(
        alloc,
        Framing::Header,
        front_of(stream.as_slice(), size(count)),
        1_000,
    )
}

fn wrap_one(framing: Framing, body: &[u8], out: &mut Vec<u8>) -> Result<(), Fail> {
    if !body.is_empty() && body.len() < 1_000 {
        wrap(framing, body, out)?;
    }
    Ok(())
}

/// The words are a framing and bodies.
pub fn wraps(alloc: Global, words: &str) -> Result<String, Fail> {
    let (name, bodies) = first(words);
    let mut out = Vec::new(alloc);
    for body in bodies.split(' ') {
        wrap_one(framing(name), body.as_bytes(), &mut out)?;
    }
    text_of(alloc, out.as_slice())
}

/// The body of a row, which stands before its place.
fn wrap_row(alloc: Global, row: &str, out: &mut Vec<u8>) -> Result<(), Fail> {
    let (text, _) = row.rsplit_once(" at ").unwrap_or((row, ""));
    wrap_one(Framing::Header, bytes_of(alloc, text)?.as_slice(), out)
}

fn wrap_rows(alloc: Global, rows: &str, out: &mut Vec<u8>) -> Result<(), Fail> {
    for row in rows.lines() {
        wrap_row(alloc, row, out)?;
    }
    Ok(())
}

/// What is read of the bodies of the rows, in pieces of this size.
pub fn exchanged(alloc: Global, size: usize, rows: &str) -> Result<String, Fail> {
    let mut stream = Vec::new(alloc);
    wrap_rows(alloc, rows, &mut stream)?;
    read(alloc, Framing::Header, stream.as_slice(), size)
}

fn fed(alloc: Global, reader: &MessageReader) -> Result<String, Fail> {
    Ok(format!(in alloc; "{}", reader.fed())?)
}

/// What stands at the front, which is looked at before it is given up.
fn looks(alloc: Global, reader: &mut MessageReader) -> Result<String, Fail> {
    let Place(place) = reader.place();
    match reader.front() {
        Front::Whole(start, size) => {
            let body = of_body(
                alloc,
                place + start as u64,
                &reader.unread()[start..start + size],
            )?;
            reader.skip(start, size);
            Ok(body)
        }
        Front::Broken(offset, reason) => of_refusal(alloc, place + offset as u64, reason),
        Front::Short => word(alloc, ""),
    }
}

fn comes(alloc: Global, reader: &mut MessageReader, text: &str) -> Result<String, Fail> {
    feeds(reader, bytes_of(alloc, text)?.as_slice())?;
    word(alloc, "")
}

/// What a reader answers.
pub fn happens(alloc: Global, reader: &mut MessageReader, case: &str) -> Result<String, Fail> {
    match first(case) {
        ("feeds", text) => comes(alloc, reader, text),
        ("next", _) => of_next(alloc, &next(reader)),
        ("looks", _) => looks(alloc, reader),
        ("fed", _) => fed(alloc, reader),
        _ => word(alloc, "no such case"),
    }
}
