//! The calls that words stand for. A channel is the letter of the side that offered it and its id.

use crate::answers::other;
use crate::values::answer_of;
use endpoint::{Answer, Call, ChannelKey, Encoding, Expect, Framing, MuxCall, Terms};
use row_text::{count, first, number, size};
use row_words::{call_of, handle_of, id_of, value};
use std::alloc::Global;
use std::test::Fail;
use wire_base::{Blob, Text};

/// A channel is the letter of the side that offered it, and its id.
pub fn key(side: &str, word: &str) -> ChannelKey {
    match word.strip_prefix(side) {
        Some(id) => ChannelKey {
            id: count(id),
            own: true,
        },
        None => ChannelKey {
            id: count(word.strip_prefix(other(side)).unwrap_or("")),
            own: false,
        },
    }
}

fn framing(word: &str) -> Framing {
    match word {
        "header" => Framing::Header,
        _ => Framing::Length,
    }
}

fn encoding(word: &str) -> Encoding {
    match word {
        "pack" => Encoding::Pack,
        _ => Encoding::Json,
    }
}

fn push_framed(bytes: &mut Vec<u8>, body: &[u8]) -> Result<(), Fail> {
    let length = u32::try_from(body.len()).unwrap_or(0);
    bytes.extend_from_slice(&length.to_be_bytes())?;
    bytes.extend_from_slice(body)?;
    Ok(())
}

fn push_all_framed(bytes: &mut Vec<u8>, bodies: &str) -> Result<(), Fail> {
    for body in bodies.split('+') {
        push_framed(bytes, body.trim().as_bytes())?;
    }
    Ok(())
}

/// The JSON bodies between `+` signs, each behind its length in four bytes.
fn framed(alloc: Global, bodies: &str) -> Result<Vec<u8>, Fail> {
    let mut bytes = Vec::new(alloc);
    push_all_framed(&mut bytes, bodies)?;
    Ok(bytes)
}

/// The framed body without its last byte.
fn broken_off(alloc: Global, body: &str) -> Result<Vec<u8>, Fail> {
    let mut bytes = framed(alloc, body)?;
    bytes.pop();
    Ok(bytes)
}

/// The words are the places at which a part of the framed body begins and ends, and the body.
fn part(alloc: Global, words: &str) -> Result<Vec<u8>, Fail> {
    let (from, words) = first(words);
    let (to, body) = first(words);
    part_of(alloc, &framed(alloc, body)?, (size(from), size(to)))
}

fn part_of(alloc: Global, bytes: &[u8], (from, to): (u32, u32)) -> Result<Vec<u8>, Fail> {
    let part = bytes.get(from as usize..to as usize).unwrap_or(&[]);
    Ok(Vec::from_slice(alloc, part)?)
}

pub fn offers(alloc: Global, words: &str) -> Result<MuxCall, Fail> {
    let (name, word) = first(words);
    let name = Text::from_str(alloc, name)?;
    Ok(MuxCall::Offer(name, size(word)))
}

fn writes(alloc: Global, key: ChannelKey, bytes: &[u8]) -> Result<MuxCall, Fail> {
    let bytes = Blob::from_bytes(alloc, bytes)?;
    Ok(MuxCall::Write(key, bytes))
}

fn attaches(key: ChannelKey, words: &str) -> Call {
    let (framing_word, encoding_word) = first(words);
    let terms = Terms {
        framing: framing(framing_word),
        encoding: encoding(encoding_word),
    };
    Call::Attach(key, terms)
}

/// The words before `sequence` at the end, where it stands there.
fn expected(words: &str) -> (&str, Expect) {
    match words.strip_suffix(" sequence") {
        Some(words) => (words, Expect::Sequence),
        None => (words, Expect::Plain),
    }
}

fn asks(alloc: Global, key: ChannelKey, words: &str) -> Result<Call, Fail> {
    let (words, expect) = expected(words);
    let (method, args) = call_of(alloc, words)?;
    Ok(Call::Request(key, method, args, expect))
}

fn invokes(alloc: Global, key: ChannelKey, words: &str) -> Result<Call, Fail> {
    let (handle, words) = first(words);
    let (words, expect) = expected(words);
    let (method, args) = call_of(alloc, words)?;
    Ok(Call::Invoke(key, count(handle), method, args, expect))
}

fn tells(alloc: Global, key: ChannelKey, words: &str) -> Result<Call, Fail> {
    let (method, args) = call_of(alloc, words)?;
    Ok(Call::Notify(key, method, args))
}

fn answers(alloc: Global, key: ChannelKey, words: &str) -> Result<Call, Fail> {
    let (id, words) = first(words);
    let answer = answer_of(alloc, words)?;
    Ok(Call::Respond(key, id_of(alloc, id)?, answer))
}

fn fails(alloc: Global, key: ChannelKey, words: &str) -> Result<Call, Fail> {
    let (id, code) = first(words);
    let text = Text::from_str(alloc, "no")?;
    let answer = Answer::Fault(number(code), text, None);
    Ok(Call::Respond(key, id_of(alloc, id)?, answer))
}

fn reports(alloc: Global, key: ChannelKey, words: &str) -> Result<Call, Fail> {
    let (id, words) = first(words);
    let (token, word) = first(words);
    let (id, token) = (id_of(alloc, id)?, id_of(alloc, token)?);
    Ok(Call::Report(key, id, token, value(alloc, word)?))
}

/// A call of the multiplexing end on a channel.
fn carries(
    alloc: Global,
    key: ChannelKey,
    (name, words): (&str, &str),
) -> Result<Option<MuxCall>, Fail> {
    Ok(Some(match name {
        "accepts" => MuxCall::Accept(key, size(words)),
        "says" => writes(alloc, key, &framed(alloc, words)?)?,
        "begins" => writes(alloc, key, &broken_off(alloc, words)?)?,
        "writes" => writes(alloc, key, &part(alloc, words)?)?,
        "reads" => MuxCall::Read(key, size(words)),
        "completes" => MuxCall::Complete(key),
        "terminates" => MuxCall::Terminate(key),
        _ => return Ok(None),
    }))
}

/// A call of the connection on a channel.
fn converses(
    alloc: Global,
    key: ChannelKey,
    (name, words): (&str, &str),
) -> Result<Option<Call>, Fail> {
    Ok(Some(match name {
        "attaches" => attaches(key, words),
        "asks" => asks(alloc, key, words)?,
        "tells" => tells(alloc, key, words)?,
        "answers" => answers(alloc, key, words)?,
        "fails" => fails(alloc, key, words)?,
        "cancels" => Call::Cancel(key, count(words)),
        "reports" => reports(alloc, key, words)?,
        "takes" => Call::TakeReport(key, count(words)),
        "turns" => Call::Next(key, count(words)),
        "leaves" => Call::Abort(key, count(words)),
        "invokes" => invokes(alloc, key, words)?,
        "releases" => Call::Release(key, handle_of(words)),
        "outcome" => Call::Outcome(key, count(words)),
        "forgets" => Call::Forget(key, count(words)),
        _ => return Ok(None),
    }))
}

/// A call on a channel, if it is one of the multiplexing end or of the channel's connection.
pub fn on_channel(
    alloc: Global,
    key: ChannelKey,
    (name, words): (&str, &str),
) -> Result<Option<Call>, Fail> {
    match carries(alloc, key, (name, words))? {
        Some(call) => Ok(Some(Call::Mux(call))),
        None => converses(alloc, key, (name, words)),
    }
}
