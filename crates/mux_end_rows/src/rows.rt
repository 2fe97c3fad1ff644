//! Rows of text, and the end that lives through them.

use crate::answers::{
    of_call, of_drawn, of_fault, of_flag, of_known, of_read, of_state, of_step, of_tally, of_view,
};
use crate::crowds::crowds;
use crate::words::{bytes, key};
use mux_end::{ChannelKey, MuxEnd};
use row_text::{first, parted, size, word};
use std::alloc::Global;
use std::process::Abort;
use std::test::Fail;
use wire_base::{Text, Version};

pub fn start(alloc: Global, version: Version, nonce: &[u8; 16]) -> Result<MuxEnd, Fail> {
    Ok(MuxEnd::start(alloc, version, *nonce)?)
}

fn offer(alloc: Global, end: &mut MuxEnd, name: &Text, window: u32) -> Result<String, Fail> {
    of_drawn(alloc, end.offer(name, window))
}

pub fn offers(alloc: Global, end: &mut MuxEnd, name: &str, window: u32) -> Result<String, Fail> {
    let name = Text::from_str(alloc, name)?;
    offer(alloc, end, &name, window)
}

fn accept(alloc: Global, end: &mut MuxEnd, key: ChannelKey, window: u32) -> Result<String, Fail> {
    of_call(alloc, end.accept(key, window))
}

fn accepts(alloc: Global, end: &mut MuxEnd, words: &str) -> Result<String, Fail> {
    let (channel, window) = first(words);
    accept(alloc, end, key(channel), size(window))
}

fn write(alloc: Global, end: &mut MuxEnd, key: ChannelKey, bytes: &[u8]) -> Result<String, Fail> {
    of_call(alloc, end.write(key, bytes))
}

fn writes(alloc: Global, end: &mut MuxEnd, words: &str) -> Result<String, Fail> {
    let (channel, words) = first(words);
    let bytes = bytes(alloc, words)?;
    write(alloc, end, key(channel), bytes.as_slice())
}

/// The bytes go to `into`.
fn read(
    alloc: Global,
    end: &mut MuxEnd,
    key: ChannelKey,
    max: usize,
    into: &mut Vec<u8>,
) -> Result<String, Fail> {
    match end.read(key, max, into) {
        Ok(count) => of_read(alloc, count, into.as_slice()),
        Err(fault) => of_fault(alloc, fault),
    }
}

fn reads(alloc: Global, end: &mut MuxEnd, words: &str) -> Result<String, Fail> {
    let (channel, max) = first(words);
    let max = size(max) as usize;
    read(alloc, end, key(channel), max, &mut Vec::new(alloc))
}

fn completes(alloc: Global, end: &mut MuxEnd, key: ChannelKey) -> Result<String, Fail> {
    of_call(alloc, end.complete(key))
}

fn terminates(alloc: Global, end: &mut MuxEnd, key: ChannelKey) -> Result<String, Fail> {
    of_call(alloc, end.terminate(key))
}

fn feed(alloc: Global, end: &mut MuxEnd, bytes: &[u8]) -> Result<String, Fail> {
    match end.feed(bytes) {
        Ok(state) => of_state(alloc, state),
        Err(_) => word(alloc, "OutOfMemory"),
    }
}

fn feeds(alloc: Global, end: &mut MuxEnd, words: &str) -> Result<String, Fail> {
    let bytes = bytes(alloc, words)?;
    feed(alloc, end, bytes.as_slice())
}

fn steps(alloc: Global, end: &mut MuxEnd) -> Result<String, Fail> {
    of_step(alloc, end.step())
}

fn is_fed(end: &mut MuxEnd, bytes: &[u8]) -> bool {
    end.feed(bytes).is_ok()
}

fn come(alloc: Global, end: &mut MuxEnd, bytes: &[u8]) -> Result<String, Fail> {
    if is_fed(end, bytes) {
        steps(alloc, end)
    } else {
        word(alloc, "OutOfMemory")
    }
}

/// Bytes come, and the end takes one step.
pub fn comes(alloc: Global, end: &mut MuxEnd, words: &str) -> Result<String, Fail> {
    let bytes = bytes(alloc, words)?;
    come(alloc, end, bytes.as_slice())
}

fn input_ends(alloc: Global, end: &mut MuxEnd) -> Result<String, Fail> {
    end.end_of_input();
    word(alloc, "ok")
}

fn state(alloc: Global, end: &MuxEnd) -> Result<String, Fail> {
    of_state(alloc, end.state())
}

fn ready(alloc: Global, end: &MuxEnd) -> Result<String, Fail> {
    of_flag(alloc, end.ready())
}

fn view(alloc: Global, end: &MuxEnd, key: ChannelKey) -> Result<String, Fail> {
    of_view(alloc, end.view(key))
}

fn tally(alloc: Global, end: &MuxEnd, key: ChannelKey) -> Result<String, Fail> {
    of_tally(alloc, end.tally(key))
}

fn known(alloc: Global, end: &MuxEnd, i: usize) -> Result<String, Fail> {
    of_known(alloc, end.known(i))
}

/// What is seen of the end.
fn looks(alloc: Global, end: &MuxEnd, name: &str, words: &str) -> Result<String, Fail> {
    match name {
        "state" => state(alloc, end),
        "ready" => ready(alloc, end),
        "view" => view(alloc, end, key(words)),
        "tally" => tally(alloc, end, key(words)),
        "known" => known(alloc, end, size(words) as usize),
        _ => word(alloc, "no such call"),
    }
}

/// What the peer does.
fn hears(alloc: Global, end: &mut MuxEnd, name: &str, words: &str) -> Result<String, Fail> {
    match name {
        "comes" => comes(alloc, end, words),
        "feed" => feeds(alloc, end, words),
        "input-ends" => input_ends(alloc, end),
        "all-draw" | "all-are-offered" | "all-are-closed" => crowds(alloc, end, name, words),
        _ => looks(alloc, end, name, words),
    }
}

/// What this call answers.
fn happens(alloc: Global, end: &mut MuxEnd, call: &str) -> Result<String, Fail> {
    let (name, words) = first(call);
    match name {
        "offer" => offers(alloc, end, "a", size(words)),
        "accept" => accepts(alloc, end, words),
        "write" => writes(alloc, end, words),
        "read" => reads(alloc, end, words),
        "complete" => completes(alloc, end, key(words)),
        "terminate" => terminates(alloc, end, key(words)),
        _ => hears(alloc, end, name, words),
    }
}

/// All output is taken from the end.
pub fn goes_out(end: &mut MuxEnd) {
    end.took(end.pending_output().len());
}

pub fn is_told(rt: &impl Abort, told: &str, wanted: &str, row: &str) {
    assert_eq!(rt; told.trim(), wanted, "at {row}");
}

fn are_same(rt: &impl Abort, bytes: &[u8], wanted: &[u8], row: &str) {
    assert_eq!(rt; bytes, wanted, "at {row}");
}

/// The call is answered so.
fn answers(
    rt: &impl Abort,
    alloc: Global,
    end: &mut MuxEnd,
    (call, wanted): (&str, &str),
    row: &str,
) -> Result<(), Fail> {
    let told = happens(alloc, end, call)?;
    is_told(rt, told.as_str(), wanted, row);
    Ok(())
}

/// All output is these bytes, and is then taken from the end.
fn sends(
    rt: &impl Abort,
    alloc: Global,
    end: &mut MuxEnd,
    words: &str,
    row: &str,
) -> Result<(), Fail> {
    let bytes = bytes(alloc, words)?;
    are_same(rt, end.pending_output(), bytes.as_slice(), row);
    goes_out(end);
    Ok(())
}

/// A row is a call, its answer, and the bytes that are sent then, between bars.
fn lives_once(rt: &impl Abort, alloc: Global, end: &mut MuxEnd, row: &str) -> Result<(), Fail> {
    let (call, wanted) = parted(row);
    let (wanted, output) = parted(wanted);
    answers(rt, alloc, end, (call, wanted), row)?;
    sends(rt, alloc, end, output, row)
}

fn lives(rt: &impl Abort, alloc: Global, end: &mut MuxEnd, rows: &str) -> Result<(), Fail> {
    for row in rows.lines() {
        if !row.trim().is_empty() {
            lives_once(rt, alloc, end, row)?;
        }
    }
    Ok(())
}

fn lives_through(
    rt: &impl Abort,
    alloc: Global,
    end: &mut MuxEnd,
    parts: &[&str],
) -> Result<(), Fail> {
    for rows in parts {
        lives(rt, alloc, end, rows)?;
    }
    Ok(())
}

/// An end of this version and nonce lives through the rows of each part.
pub fn a_life_of(
    rt: &impl Abort,
    alloc: Global,
    version: Version,
    nonce: &[u8; 16],
    parts: &[&str],
) -> Result<(), Fail> {
    let mut end = start(alloc, version, nonce)?;
    lives_through(rt, alloc, &mut end, parts)
}

/// An end of version 3 lives through the rows of each part.
pub fn a_life(rt: &impl Abort, alloc: Global, parts: &[&str]) -> Result<(), Fail> {
    a_life_of(rt, alloc, Version::Three, &[7; 16], parts)
}
