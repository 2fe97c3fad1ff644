//! Rows of text, and two ends that live through them.

use crate::answers::{of_key, of_numbers, of_output, of_reply, of_step, of_tally, of_view};
use crate::words::{key, offers, on_channel};
use endpoint::{Call, ChannelKey, Endpoint};
use row_text::{count, first, parted, size, word};
use row_words::{handle_of, of_life, of_state};
use std::alloc::Global;
use std::process::Abort;
use std::test::Fail;
use wire_base::{EndState, Version};

/// More than an end ever sends in a row.
const ALL: usize = 1_000_000;

/// Content on a channel that was never offered.
const STRAY: &[u8] = b"\x94\x02\x07\x01\xc4\x01x";

/// Five bytes of content on the third channel that this end offered.
const FLOOD: &[u8] = b"\x94\x02\x03\xff\xc4\x05hello";

fn start(alloc: Global, version: Version, nonce: u8) -> Result<Endpoint, Fail> {
    Ok(Endpoint::start(alloc, version, [nonce; 16])?)
}

/// What a call answers.
fn makes(alloc: Global, side: &str, end: &mut Endpoint, call: Call) -> Result<String, Fail> {
    of_reply(alloc, side, &end.apply(call))
}

fn last(alloc: Global, end: &Endpoint, key: ChannelKey) -> Result<String, Fail> {
    Ok(format!(in alloc; "{}", end.last_request(key))?)
}

fn made(alloc: Global, end: &Endpoint, key: ChannelKey) -> Result<String, Fail> {
    Ok(format!(in alloc; "{}", end.last_handle(key))?)
}

fn handle(alloc: Global, end: &Endpoint, key: ChannelKey, words: &str) -> Result<String, Fail> {
    of_life(alloc, end.handle(key, handle_of(words)))
}

fn push_adopted(end: &Endpoint, key: ChannelKey, numbers: &mut Vec<u64>) -> Result<(), Fail> {
    for i in 0..16 {
        if let Some(number) = end.peer_handle(key, i) {
            numbers.push(number)?;
        }
    }
    Ok(())
}

/// The handles of the peer that were adopted.
fn adopted(alloc: Global, end: &Endpoint, key: ChannelKey) -> Result<String, Fail> {
    let mut numbers = Vec::new(alloc);
    push_adopted(end, key, &mut numbers)?;
    of_numbers(alloc, numbers.as_slice())
}

fn view(alloc: Global, end: &Endpoint, key: ChannelKey) -> Result<String, Fail> {
    of_view(alloc, end.view(key))
}

fn tally(alloc: Global, end: &Endpoint, key: ChannelKey) -> Result<String, Fail> {
    of_tally(alloc, end.tally(key))
}

fn state(alloc: Global, end: &Endpoint) -> Result<String, Fail> {
    of_state(alloc, end.state())
}

fn knows(alloc: Global, side: &str, end: &Endpoint, i: usize) -> Result<String, Fail> {
    match end.known(i) {
        Some(key) => of_key(alloc, side, key),
        None => word(alloc, "none"),
    }
}

fn input_ends(alloc: Global, end: &mut Endpoint) -> Result<String, Fail> {
    end.end_of_input();
    word(alloc, "ok")
}

fn feeds(alloc: Global, end: &mut Endpoint, bytes: &[u8]) -> Result<String, Fail> {
    match end.feed(bytes) {
        Ok(state) => of_state(alloc, state),
        Err(_) => word(alloc, "OutOfMemory"),
    }
}

fn steps(alloc: Global, side: &str, end: &mut Endpoint) -> Result<String, Fail> {
    of_step(alloc, side, &end.step())
}

/// At most so many bytes of the output, which are then taken from the end.
fn sent(alloc: Global, end: &mut Endpoint, most: usize) -> Result<Vec<u8>, Fail> {
    let count = most.min(end.pending_output().len());
    let output = Vec::from_slice(alloc, &end.pending_output()[..count])?;
    end.took(count);
    Ok(output)
}

/// All bytes of the output, which are then taken from the end.
fn sends(alloc: Global, end: &mut Endpoint) -> Result<String, Fail> {
    of_output(alloc, &sent(alloc, end, ALL)?)
}

fn is_running(end: &Endpoint) -> bool {
    end.state() == EndState::Running
}

fn tell_behind(told: &mut String, step: &str) -> Result<(), Fail> {
    if !told.is_empty() {
        told.push_str("; ")?;
    }
    told.push_str(step)?;
    Ok(())
}

/// Tells what one step was, unless nothing is whole, and answers whether another can follow.
fn hears_one(
    alloc: Global,
    side: &str,
    end: &mut Endpoint,
    told: &mut String,
) -> Result<bool, Fail> {
    let step = steps(alloc, side, end)?;
    if step.as_str() == "Short" {
        return Ok(false);
    }
    tell_behind(told, step.as_str())?;
    Ok(is_running(end))
}

fn hears_all(alloc: Global, side: &str, end: &mut Endpoint, told: &mut String) -> Result<(), Fail> {
    for _ in 0..16 {
        if !hears_one(alloc, side, end, told)? {
            break;
        }
    }
    Ok(())
}

/// Bytes come, and what is whole then is applied and told.
fn hears(alloc: Global, side: &str, end: &mut Endpoint, bytes: &[u8]) -> Result<String, Fail> {
    feeds(alloc, end, bytes)?;
    let mut told = String::new(alloc);
    hears_all(alloc, side, end, &mut told)?;
    Ok(told)
}

/// Bytes come, and what is whole then is applied, whatever it is.
fn takes_in(alloc: Global, side: &str, end: &mut Endpoint, bytes: &[u8]) -> Result<String, Fail> {
    hears(alloc, side, end, bytes)?;
    word(alloc, "ok")
}

/// What is seen of a channel.
fn looks(
    alloc: Global,
    end: &Endpoint,
    key: ChannelKey,
    (name, words): (&str, &str),
) -> Result<String, Fail> {
    match name {
        "last" => last(alloc, end, key),
        "made" => made(alloc, end, key),
        "handle" => handle(alloc, end, key, words),
        "adopted" => adopted(alloc, end, key),
        "view" => view(alloc, end, key),
        "tally" => tally(alloc, end, key),
        _ => word(alloc, "no such call"),
    }
}

/// A call on a channel, or what is seen of it.
fn calls(
    alloc: Global,
    side: &str,
    end: &mut Endpoint,
    key: ChannelKey,
    (name, words): (&str, &str),
) -> Result<String, Fail> {
    match on_channel(alloc, key, (name, words))? {
        Some(call) => makes(alloc, side, end, call),
        None => looks(alloc, end, key, (name, words)),
    }
}

/// What this call on a channel answers.
fn uses(
    alloc: Global,
    side: &str,
    end: &mut Endpoint,
    name: &str,
    words: &str,
) -> Result<String, Fail> {
    let (channel, words) = first(words);
    calls(alloc, side, end, key(side, channel), (name, words))
}

/// What this call of an end alone answers.
fn acts(
    alloc: Global,
    side: &str,
    end: &mut Endpoint,
    name: &str,
    words: &str,
) -> Result<String, Fail> {
    match name {
        "offers" => makes(alloc, side, end, Call::Mux(offers(alloc, words)?)),
        "state" => state(alloc, end),
        "knows" => knows(alloc, side, end, count(words) as usize),
        "input-ends" => input_ends(alloc, end),
        "steps" => steps(alloc, side, end),
        "sends" => sends(alloc, end),
        "strays" => hears(alloc, side, end, STRAY),
        "is-flooded" => hears(alloc, side, end, FLOOD),
        _ => uses(alloc, side, end, name, words),
    }
}

/// What this call of a side answers. What a side hears is the output of the other one.
fn happens(
    alloc: Global,
    side: &str,
    end: &mut Endpoint,
    peer: &mut Endpoint,
    call: &str,
) -> Result<String, Fail> {
    let (name, words) = first(call);
    match name {
        "feeds" => feeds(alloc, end, &sent(alloc, peer, ALL)?),
        "hears" => hears(alloc, side, end, &sent(alloc, peer, ALL)?),
        "hears-of" => hears(alloc, side, end, &sent(alloc, peer, size(words) as usize)?),
        "takes-in" => takes_in(alloc, side, end, &sent(alloc, peer, ALL)?),
        _ => acts(alloc, side, end, name, words),
    }
}

fn is_told(rt: &impl Abort, told: &str, wanted: &str, row: &str) {
    assert_eq!(rt; told, wanted, "at {row}");
}

fn told(alloc: Global, a: &mut Endpoint, b: &mut Endpoint, call: &str) -> Result<String, Fail> {
    let (side, call) = first(call);
    match side {
        "A" => happens(alloc, side, a, b, call),
        _ => happens(alloc, side, b, a, call),
    }
}

/// A row is a side, its call, and what that answers, behind a bar.
fn lives_once(
    rt: &impl Abort,
    alloc: Global,
    a: &mut Endpoint,
    b: &mut Endpoint,
    row: &str,
) -> Result<(), Fail> {
    let (call, wanted) = parted(row);
    let told = told(alloc, a, b, call)?;
    is_told(rt, told.as_str(), wanted, row);
    Ok(())
}

fn lives(
    rt: &impl Abort,
    alloc: Global,
    a: &mut Endpoint,
    b: &mut Endpoint,
    rows: &str,
) -> Result<(), Fail> {
    for row in rows.lines() {
        if !row.trim().is_empty() {
            lives_once(rt, alloc, a, b, row)?;
        }
    }
    Ok(())
}

fn live(
    rt: &impl Abort,
    alloc: Global,
    a: &mut Endpoint,
    b: &mut Endpoint,
    parts: &[&str],
) -> Result<(), Fail> {
    for rows in parts {
        lives(rt, alloc, a, b, rows)?;
    }
    Ok(())
}

/// A lives with a new end. Each function that makes an end hands it on at once: what it would do behind that, it would have
/// to prove with the end in its hands.
fn with_another(
    rt: &impl Abort,
    alloc: Global,
    version: Version,
    a: &mut Endpoint,
    parts: &[&str],
) -> Result<(), Fail> {
    let mut b = start(alloc, version, 0)?;
    live(rt, alloc, a, &mut b, parts)
}

/// Two ends of this version live through the rows of each part. A has the greater nonce.
pub fn a_life_in(
    rt: &impl Abort,
    alloc: Global,
    version: Version,
    parts: &[&str],
) -> Result<(), Fail> {
    let mut a = start(alloc, version, 1)?;
    with_another(rt, alloc, version, &mut a, parts)
}

/// Two ends of version 3 live through the rows of each part.
pub fn a_life(rt: &impl Abort, alloc: Global, parts: &[&str]) -> Result<(), Fail> {
    a_life_in(rt, alloc, Version::Three, parts)
}

/// The channel A1 is made live.
pub const LIVE: &str = "
    A offers a 100   | A1
    B hears          | offered A1
    B accepts A1 100 | ok
    A hears          | accepted A1";

/// The same with more room for what is unread.
pub const WIDE: &str = "
    A offers a 1000   | A1
    B hears           | offered A1
    B accepts A1 1000 | ok
    A hears           | accepted A1";
