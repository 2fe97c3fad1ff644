//! Rows of text, and the channel that lives through them.

use crate::answers::{
    of_call, of_content, of_fault, of_frame, of_read, of_refusal, of_view, push_due,
};
use channel_credit::{Channel, Due};
use mux_items::GREATEST_WINDOW;
use row_text::{count, first, parted, repeats, size, word};
use std::alloc::Global;
use std::process::Abort;
use std::test::Fail;
use wire_base::{Refusal, Version};

fn repeated(alloc: Global, piece: &str, times: u32) -> Result<Vec<u8>, Fail> {
    let mut bytes = Vec::new(alloc);
    for _ in 0..times {
        bytes.extend_from_slice(piece.as_bytes())?;
    }
    Ok(bytes)
}

/// The words are the bytes, or a piece with a `*` and how many times it stands there.
fn bytes(alloc: Global, words: &str) -> Result<Vec<u8>, Fail> {
    let (piece, times) = repeats(words);
    repeated(alloc, piece, times)
}

fn accept(alloc: Global, channel: &mut Channel, window: u32) -> Result<String, Fail> {
    let refusal = channel.accept_refusal(0, window);
    if matches!(refusal, Some(Refusal::WrongSide)) || window > GREATEST_WINDOW {
        return word(alloc, "may not be asked");
    }
    of_call(alloc, channel.accept(window))
}

/// Whether the acceptance is refused where other windows are so many bytes.
fn accepting(alloc: Global, channel: &Channel, words: &str) -> Result<String, Fail> {
    let (windows, word) = first(words);
    of_refusal(alloc, channel.accept_refusal(count(windows), size(word)))
}

fn write(alloc: Global, channel: &mut Channel, bytes: &[u8]) -> Result<String, Fail> {
    of_call(alloc, channel.write(bytes))
}

/// The bytes go to `out`.
fn read(
    alloc: Global,
    channel: &mut Channel,
    max: usize,
    out: &mut Vec<u8>,
) -> Result<String, Fail> {
    match channel.read(max, out) {
        Ok(count) => of_read(alloc, count, out.as_slice()),
        Err(fault) => of_fault(alloc, fault),
    }
}

fn reads(alloc: Global, channel: &mut Channel, max: usize) -> Result<String, Fail> {
    read(alloc, channel, max, &mut Vec::new(alloc))
}

fn complete(alloc: Global, channel: &mut Channel) -> Result<String, Fail> {
    of_call(alloc, channel.complete())
}

fn terminate(alloc: Global, channel: &mut Channel) -> Result<String, Fail> {
    of_call(alloc, channel.terminate())
}

fn accepted(alloc: Global, channel: &mut Channel, window: u64) -> Result<String, Fail> {
    if window > 0x7fff_ffff_ffff_ffff {
        return word(alloc, "may not come");
    }
    of_frame(alloc, channel.on_accepted(window))
}

fn content(alloc: Global, channel: &mut Channel, bytes: &[u8]) -> Result<String, Fail> {
    of_content(alloc, channel.on_content(bytes))
}

fn completed(alloc: Global, channel: &mut Channel) -> Result<String, Fail> {
    of_frame(alloc, channel.on_completed())
}

fn processed(alloc: Global, channel: &mut Channel, count: u64) -> Result<String, Fail> {
    of_frame(alloc, channel.on_processed(count))
}

fn terminated(alloc: Global, channel: &mut Channel) -> Result<String, Fail> {
    channel.on_terminated();
    word(alloc, "ok")
}

fn end(alloc: Global, channel: &mut Channel) -> Result<String, Fail> {
    channel.on_end();
    word(alloc, "ok")
}

/// A frame of the peer, or the end of the end.
fn comes(alloc: Global, channel: &mut Channel, name: &str, words: &str) -> Result<String, Fail> {
    match name {
        "accepted" => accepted(alloc, channel, count(words)),
        "content" => content(alloc, channel, bytes(alloc, words)?.as_slice()),
        "completed" => completed(alloc, channel),
        "processed" => processed(alloc, channel, count(words)),
        "terminated" => terminated(alloc, channel),
        "end" => end(alloc, channel),
        _ => word(alloc, "no such call"),
    }
}

/// What this call or frame is answered.
fn happens(alloc: Global, channel: &mut Channel, call: &str) -> Result<String, Fail> {
    let (name, words) = first(call);
    match name {
        "accept" => accept(alloc, channel, size(words)),
        "accepting" => accepting(alloc, channel, words),
        "write" => write(alloc, channel, bytes(alloc, words)?.as_slice()),
        "read" => reads(alloc, channel, count(words) as usize),
        "complete" => complete(alloc, channel),
        "terminate" => terminate(alloc, channel),
        _ => comes(alloc, channel, name, words),
    }
}

/// Sends one frame that is due. Its content goes to `payload`.
fn emit(channel: &mut Channel, payload: &mut Vec<u8>) -> Result<Due, Fail> {
    Ok(channel.emit(payload)?)
}

/// Sends all that is due, and tells it.
fn settle(channel: &mut Channel, told: &mut String, payload: &mut Vec<u8>) -> Result<(), Fail> {
    for _ in 0..9 {
        let due = emit(channel, payload)?;
        if due == Due::Nothing {
            break;
        }
        push_due(told, due)?;
    }
    Ok(())
}

fn is_told(rt: &impl Abort, told: &str, wanted: &str, row: &str) {
    assert_eq!(rt; told.trim(), wanted, "at {row}");
}

fn are_same(rt: &impl Abort, bytes: &[u8], wanted: &[u8], row: &str) {
    assert_eq!(rt; bytes, wanted, "at {row}");
}

/// The call is answered so.
fn answers(
    rt: &impl Abort,
    alloc: Global,
    channel: &mut Channel,
    (call, wanted): (&str, &str),
    row: &str,
) -> Result<(), Fail> {
    let told = happens(alloc, channel, call)?;
    is_told(rt, told.as_str(), wanted, row);
    Ok(())
}

/// These frames are due then, and no other. Their content goes to `payload`.
fn are_due(
    rt: &impl Abort,
    alloc: Global,
    channel: &mut Channel,
    payload: &mut Vec<u8>,
    (wanted, row): (&str, &str),
) -> Result<(), Fail> {
    let mut told = String::new(alloc);
    settle(channel, &mut told, payload)?;
    is_told(rt, told.as_str(), wanted, row);
    Ok(())
}

fn is_content(
    rt: &impl Abort,
    alloc: Global,
    payload: &[u8],
    wanted: &str,
    row: &str,
) -> Result<(), Fail> {
    let wanted = bytes(alloc, wanted)?;
    are_same(rt, payload, wanted.as_slice(), row);
    Ok(())
}

/// The frames that are sent then, with their content.
fn sends(
    rt: &impl Abort,
    alloc: Global,
    channel: &mut Channel,
    (frames, content): (&str, &str),
    row: &str,
) -> Result<(), Fail> {
    let mut payload = Vec::new(alloc);
    are_due(rt, alloc, channel, &mut payload, (frames, row))?;
    is_content(rt, alloc, payload.as_slice(), content, row)
}

/// The channel stands so.
fn stands(
    rt: &impl Abort,
    alloc: Global,
    channel: &Channel,
    wanted: &str,
    row: &str,
) -> Result<(), Fail> {
    let told = of_view(alloc, channel.view())?;
    is_told(rt, told.as_str(), wanted, row);
    Ok(())
}

/// A row is what happens, its answer, where the channel stands then, the frames that are sent, and their content, between
/// bars.
fn lives_once(
    rt: &impl Abort,
    alloc: Global,
    channel: &mut Channel,
    row: &str,
) -> Result<(), Fail> {
    let (call, rest) = parted(row);
    let (answer, rest) = parted(rest);
    let (standing, rest) = parted(rest);
    let (frames, content) = parted(rest);
    answers(rt, alloc, channel, (call, answer), row)?;
    sends(rt, alloc, channel, (frames, content), row)?;
    stands(rt, alloc, channel, standing, row)
}

fn lives(rt: &impl Abort, alloc: Global, channel: &mut Channel, rows: &str) -> Result<(), Fail> {
    for row in rows.lines() {
        if !row.trim().is_empty() {
            lives_once(rt, alloc, channel, row)?;
        }
    }
    Ok(())
}

/// An own offer with a window of 8 bytes lives through the rows.
pub fn an_own_offer(
    rt: &impl Abort,
    alloc: Global,
    version: Version,
    rows: &str,
) -> Result<(), Fail> {
    let mut channel = Channel::offered(alloc, version, 8);
    lives(rt, alloc, &mut channel, rows)
}

/// An offer of the peer with a window of 4 bytes lives through the rows.
pub fn a_peers_offer(
    rt: &impl Abort,
    alloc: Global,
    version: Version,
    rows: &str,
) -> Result<(), Fail> {
    let mut channel = Channel::heard(alloc, version, 4);
    lives(rt, alloc, &mut channel, rows)
}
