//! Rows of text, and two joined ends that live through them.

use crate::answers::{of_answer, of_bytes, of_tally};
use crate::steps::{key_of, side_of, step_of};
use duo_world::{Duo, DuoAnswer, Side, Step};
use row_text::{first, parted, word};
use std::alloc::Global;
use std::process::Abort;
use std::test::Fail;
use wire_base::Version;

pub fn world(alloc: Global, version: Version, nonces: [[u8; 16]; 2]) -> Result<Duo, Fail> {
    Ok(Duo::start(alloc, version, nonces)?)
}

pub fn make(duo: &mut Duo, step: Step) -> DuoAnswer {
    duo.step(step)
}

/// How many bytes are in flight to a side.
pub fn flight(duo: &Duo, side: Side) -> usize {
    duo.in_flight(side).len()
}

fn other(side: Side) -> Side {
    match side {
        Side::A => Side::B,
        Side::B => Side::A,
    }
}

fn makes(alloc: Global, duo: &mut Duo, step: Step) -> Result<String, Fail> {
    of_answer(alloc, &make(duo, step))
}

/// What a side counted of a channel.
fn tally(alloc: Global, duo: &Duo, side: Side, words: &str) -> Result<String, Fail> {
    of_tally(alloc, duo.end(side).tally(key_of(side, words)))
}

/// What a side does, and what that answers.
pub fn happens(alloc: Global, duo: &mut Duo, side: Side, words: &str) -> Result<String, Fail> {
    match words.strip_prefix("tally ") {
        Some(words) => tally(alloc, duo, side, words),
        None => makes(alloc, duo, step_of(alloc, side, words)?),
    }
}

/// The bytes in flight to a side behind so many, or none where there are fewer.
pub fn behind(duo: &Duo, side: Side, before: usize) -> Option<&[u8]> {
    duo.in_flight(side).get(before..)
}

fn emitted(alloc: Global, duo: &Duo, side: Side, before: usize) -> Result<String, Fail> {
    match behind(duo, side, before) {
        Some(bytes) => of_bytes(alloc, bytes),
        None => word(alloc, "fewer"),
    }
}

fn is_told(rt: &impl Abort, told: &str, wanted: &str, row: &str) {
    assert_eq!(rt; told, wanted, "at {row}");
}

/// Asserts that behind so many bytes in flight to a side these are the last.
pub fn emits(
    rt: &impl Abort,
    alloc: Global,
    duo: &Duo,
    (side, before): (Side, usize),
    (wanted, row): (&str, &str),
) -> Result<(), Fail> {
    let told = emitted(alloc, duo, side, before)?;
    is_told(rt, told.as_str(), wanted, row);
    Ok(())
}

fn replies(
    rt: &impl Abort,
    alloc: Global,
    duo: &mut Duo,
    (side, words): (Side, &str),
    (wanted, row): (&str, &str),
) -> Result<(), Fail> {
    let told = happens(alloc, duo, side, words)?;
    is_told(rt, told.as_str(), wanted, row);
    Ok(())
}

/// A row is a side with what it does, what that answers, with its events, and the bytes that the side emits, between bars.
fn lives_once(rt: &impl Abort, alloc: Global, duo: &mut Duo, row: &str) -> Result<(), Fail> {
    let (call, wanted) = parted(row);
    let (answer, bytes) = parted(wanted);
    let (side, words) = first(call);
    let side = side_of(side);
    let peer = other(side);
    let before = flight(duo, peer);
    replies(rt, alloc, duo, (side, words), (answer, row))?;
    emits(rt, alloc, duo, (peer, before), (bytes, row))
}

/// A row ends at its semicolon.
pub fn lives(rt: &impl Abort, alloc: Global, duo: &mut Duo, rows: &str) -> Result<(), Fail> {
    for row in rows.split(';') {
        if !row.trim().is_empty() {
            lives_once(rt, alloc, duo, row.trim())?;
        }
    }
    Ok(())
}

fn lives_each(rt: &impl Abort, alloc: Global, duo: &mut Duo, parts: &[&str]) -> Result<(), Fail> {
    for rows in parts {
        lives(rt, alloc, duo, rows)?;
    }
    Ok(())
}

/// Two ends of a version live through the rows of each part.
pub fn a_life_of(
    rt: &impl Abort,
    alloc: Global,
    version: Version,
    nonces: [[u8; 16]; 2],
    parts: &[&str],
) -> Result<(), Fail> {
    let mut duo = world(alloc, version, nonces)?;
    lives_each(rt, alloc, &mut duo, parts)
}

/// Two ends of version 3.
pub fn a_life(rt: &impl Abort, alloc: Global, parts: &[&str]) -> Result<(), Fail> {
    a_life_of(rt, alloc, Version::Three, [[0; 16]; 2], parts)
}

/// A channel is made live, with the windows 8 of A and 4 of B.
pub const LIVE: &str = r"
    A offers a 8   | Made(ChannelKey { id: 1, own: true }) []                      | \x94\x00\x01\x01\xc4\x04\x92\xa1a\x08;
    B delivers     | 10 [Happened(Mux(Offered(ChannelKey { id: 1, own: false })))] |;
    B accepts A1 4 | Done []                                                       | \x94\x01\x01\xff\xc4\x02\x91\x04;
    A delivers     | 8 [Happened(Mux(Accepted(ChannelKey { id: 1, own: true })))]  |;";
