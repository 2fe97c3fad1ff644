//! Streams that come in pieces.

use crate::rows::{a_life, is_told, start};
use crate::words::{feeds, steps};
use rpc_end::{Encoding, Framing, RpcEnd};
use std::alloc::Global;
use std::process::Abort;
use std::test::Fail;

fn push(told: &mut String, word: &str) -> Result<(), Fail> {
    told.push_str(word)?;
    Ok(())
}

fn tell(told: &mut String, word: &str) -> Result<(), Fail> {
    push(told, word)?;
    push(told, "; ")
}

/// Tells what a step was, unless no message was whole, and answers whether another may be.
fn tell_step(told: &mut String, step: &str) -> Result<bool, Fail> {
    if step == "Short" {
        return Ok(false);
    }
    tell(told, step)?;
    Ok(true)
}

fn hears_one(alloc: Global, end: &mut RpcEnd, told: &mut String) -> Result<bool, Fail> {
    let step = steps(alloc, end)?;
    tell_step(told, step.as_str())
}

/// Takes steps while messages are applied, and tells what they were.
fn hears(alloc: Global, end: &mut RpcEnd, told: &mut String) -> Result<(), Fail> {
    for _ in 0..8 {
        if !hears_one(alloc, end, told)? {
            break;
        }
    }
    Ok(())
}

/// A piece comes, and the messages that are whole then are applied.
pub fn comes(alloc: Global, end: &mut RpcEnd, piece: &[u8], told: &mut String) -> Result<(), Fail> {
    feeds(alloc, end, piece)?;
    hears(alloc, end, told)
}

/// The first bytes, so many or all that there are, and the others.
pub fn split(bytes: &[u8], size: usize) -> (&[u8], &[u8]) {
    bytes.split_at(size.min(bytes.len()))
}

/// Tells what an end hears of the front of a stream, and behind `cut` of the rest.
fn hears_cut(
    alloc: Global,
    end: &mut RpcEnd,
    (front, rest): (&[u8], &[u8]),
    told: &mut String,
) -> Result<(), Fail> {
    comes(alloc, end, front, told)?;
    tell(told, "cut")?;
    comes(alloc, end, rest, told)
}

/// An end hears this of a stream that comes in two parts.
fn is_heard(
    rt: &impl Abort,
    alloc: Global,
    end: &mut RpcEnd,
    parts: (&[u8], &[u8]),
    wanted: &str,
) -> Result<(), Fail> {
    let mut told = String::new(alloc);
    hears_cut(alloc, end, parts, &mut told)?;
    is_told(rt, told.as_str(), wanted, "a cut");
    Ok(())
}

/// A fresh end hears this of a stream that is cut here.
fn is_cut(
    rt: &impl Abort,
    alloc: Global,
    framing: Framing,
    (stream, at): (&[u8], usize),
    wanted: &str,
) -> Result<(), Fail> {
    let mut end = start(alloc, framing, Encoding::Json);
    is_heard(rt, alloc, &mut end, split(stream, at), wanted)
}

/// What is told of two messages that are cut here, where the first has so many bytes, and both so many.
fn foreseen(first: usize, both: usize, at: usize) -> &'static str {
    if at < first {
        "cut; asked 1 run absent; stray; "
    } else if at < both {
        "asked 1 run absent; cut; stray; "
    } else {
        "asked 1 run absent; stray; cut; "
    }
}

/// A message is applied as soon as its last byte came, and no sooner, wherever the stream is cut.
fn is_cut_anywhere(
    rt: &impl Abort,
    alloc: Global,
    framing: Framing,
    stream: &[u8],
    first: usize,
) -> Result<(), Fail> {
    for at in 0..=stream.len() {
        let wanted = foreseen(first, stream.len(), at);
        is_cut(rt, alloc, framing, (stream, at), wanted)?;
    }
    Ok(())
}

#[test]
fn headers_are_cut_at_each_byte(rt: HostRuntime) -> Result<(), Fail> {
    let stream =
        b"content-length: 39\r\nContent-Type: application/vscode-jsonrpc; charset=utf-8\r\n\r\n{\"id\":1,\"jsonrpc\":\"2.0\",\"method\":\"run\"}Content-Length: 35\r\n\r\n{\"id\":1,\"jsonrpc\":\"2.0\",\"result\":5}";
    is_cut_anywhere(&rt, rt.alloc(), Framing::Header, stream, 118)
}

#[test]
fn lengths_are_cut_at_each_byte(rt: HostRuntime) -> Result<(), Fail> {
    let stream =
        b"\0\0\0\x27{\"id\":1,\"jsonrpc\":\"2.0\",\"method\":\"run\"}\0\0\0\x23{\"id\":1,\"jsonrpc\":\"2.0\",\"result\":5}";
    is_cut_anywhere(&rt, rt.alloc(), Framing::Length, stream, 43)
}

#[test]
fn a_whole_message_waits_until_it_is_applied(rt: HostRuntime) -> Result<(), Fail> {
    let rows = r#"
        has-message                                                           | Ok(false)     |
        steps                                                                 | Short         |
        feeds {"id":1,"jsonrpc":"2.0","result":5}                             | Running       |
        has-message                                                           | Ok(true)      |
        has-message                                                           | Ok(true)      |
        steps                                                                 | stray         |
        has-message                                                           | Ok(false)     |
        feeds {"jsonrpc":"2.0","method":"a"} + {"jsonrpc":"2.0","method":"b"} | Running       |
        steps                                                                 | told a absent |
        has-message                                                           | Ok(true)      |
        steps                                                                 | told b absent |
        steps                                                                 | Short         |
        feeds []                                                              | Running       |
        has-message                                                           | Ok(false)     |"#;
    a_life(&rt, rt.alloc(), rows)
}
