//! The steps that words stand for.

use duo_world::{
    Answer, Arguments, Call, ChannelKey, Encoding, Expect, Framing, HandleKey, MuxCall, Side, Step,
    Terms,
};
use row_text::{count, first, number, size};
use std::alloc::Global;
use std::test::Fail;
use wire_base::{Blob, Datum, Id, Node, Text, Whole};

/// More than is ever in flight.
pub const ALL: u64 = 1_000_000;

pub fn side_of(word: &str) -> Side {
    match word {
        "A" => Side::A,
        _ => Side::B,
    }
}

/// A channel, all of which A offered, is that letter and an id.
pub fn key_of(side: Side, word: &str) -> ChannelKey {
    ChannelKey {
        id: count(word.strip_prefix('A').unwrap_or("")),
        own: side == Side::A,
    }
}

fn offers(alloc: Global, words: &str) -> Result<MuxCall, Fail> {
    let (name, word) = first(words);
    let name = Text::from_str(alloc, name)?;
    Ok(MuxCall::Offer(name, size(word)))
}

fn writes(alloc: Global, key: ChannelKey, bytes: &[u8]) -> Result<MuxCall, Fail> {
    let bytes = Blob::from_bytes(alloc, bytes)?;
    Ok(MuxCall::Write(key, bytes))
}

/// Adds so many bytes `z`.
pub fn fill(bytes: &mut Vec<u8>, count: usize) -> Result<(), Fail> {
    for _ in 0..count {
        bytes.push(b'z')?;
    }
    Ok(())
}

/// Writes so many bytes `z`.
fn fills(alloc: Global, key: ChannelKey, word: &str) -> Result<MuxCall, Fail> {
    let mut bytes = Vec::new(alloc);
    fill(&mut bytes, size(word) as usize)?;
    writes(alloc, key, &bytes)
}

/// A call of the multiplexing end on a channel.
fn mux_call_of(alloc: Global, key: ChannelKey, name: &str, words: &str) -> Result<MuxCall, Fail> {
    match name {
        "accepts" => Ok(MuxCall::Accept(key, size(words))),
        "writes" => writes(alloc, key, words.as_bytes()),
        "fills" => fills(alloc, key, words),
        "reads" => Ok(MuxCall::Read(key, size(words))),
        "completes" => Ok(MuxCall::Complete(key)),
        "terminates" => Ok(MuxCall::Terminate(key)),
        _ => Err(Fail::new("no such call")),
    }
}

/// Messages go in pack behind their lengths.
fn attaches(key: ChannelKey) -> Call {
    let terms = Terms {
        framing: Framing::Length,
        encoding: Encoding::Pack,
    };
    Call::Attach(key, terms)
}

/// A request without arguments.
fn asks(alloc: Global, key: ChannelKey, method: &str) -> Result<Call, Fail> {
    let method = Text::from_str(alloc, method)?;
    Ok(Call::Request(key, method, Arguments::Absent, Expect::Plain))
}

fn id_of(word: &str) -> Id {
    Id::Number(number(word))
}

/// The words are the id of a request, and a number.
fn answers(key: ChannelKey, words: &str) -> Call {
    let (id, word) = first(words);
    let value = Datum {
        node: Node::Whole(Whole::from_u64(count(word))),
    };
    Call::Respond(key, id_of(id), Answer::Value(value))
}

/// The words are the id of a request, and an object.
fn gives(key: ChannelKey, words: &str) -> Call {
    let (id, object) = first(words);
    let answer = Answer::Object(count(object));
    Call::Respond(key, id_of(id), answer)
}

/// A request without arguments to the object of a handle of the peer. The words are that and a method.
fn invokes(alloc: Global, key: ChannelKey, words: &str) -> Result<Call, Fail> {
    let (handle, method) = first(words);
    let method = Text::from_str(alloc, method)?;
    Ok(Call::Invoke(key, count(handle), method, Arguments::Absent, Expect::Plain))
}

/// The words are `own` or `peer`, and the number of a handle.
fn releases(key: ChannelKey, words: &str) -> Call {
    let (owner, word) = first(words);
    let handle = HandleKey {
        number: count(word),
        own: owner == "own",
    };
    Call::Release(key, handle)
}

/// A call on a channel.
fn call_of(alloc: Global, key: ChannelKey, name: &str, words: &str) -> Result<Call, Fail> {
    match name {
        "attaches" => Ok(attaches(key)),
        "asks" => asks(alloc, key, words),
        "answers" => Ok(answers(key, words)),
        "gives" => Ok(gives(key, words)),
        "invokes" => invokes(alloc, key, words),
        "releases" => Ok(releases(key, words)),
        "outcome" => Ok(Call::Outcome(key, count(words))),
        _ => Ok(Call::Mux(mux_call_of(alloc, key, name, words)?)),
    }
}

/// What a side does.
pub fn step_of(alloc: Global, side: Side, words: &str) -> Result<Step, Fail> {
    let (name, words) = first(words);
    match name {
        "ends" => Ok(Step::End(side)),
        "delivers" => Ok(Step::Deliver(side, ALL)),
        "offers" => Ok(Step::Call(side, Call::Mux(offers(alloc, words)?))),
        _ => {
            let (channel, words) = first(words);
            let call = call_of(alloc, key_of(side, channel), name, words)?;
            Ok(Step::Call(side, call))
        }
    }
}
