//! What a side does in a step, and how that is drawn.

use crate::channels::Channel;
use crate::draws::Draws;
use duo_world::{Call, ChannelKey, MuxCall, Side, Step};
use std::alloc::Global;
use wire_base::{Blob, OutOfMemory, Text};

/// The most channels that are offered.
const MOST_CHANNELS: usize = 16;

/// Among how many of the channels, the newest ones, a step draws.
const NEWEST: usize = 5;

/// The greatest window.
const MOST_WINDOW: u32 = 30;

/// The most bytes of a write or a read.
const MOST_BYTES: u32 = 40;

const BYTES: &[u8] = b"abcdefghijklmnopqrstuvwxyz0123456789-+.:";

/// More than is ever in flight.
pub const ALL: u64 = 1_000_000;

/// What a side does. A write is of so many bytes.
#[derive(Clone, Copy)]
pub enum Move {
    Offer(u32),
    Accept(ChannelKey, u32),
    Write(ChannelKey, u32),
    Read(ChannelKey, u32),
    Complete(ChannelKey),
    Terminate(ChannelKey),
    Deliver(u64),
}

fn content(alloc: Global, size: u32) -> Result<Blob, OutOfMemory> {
    Blob::from_bytes(alloc, BYTES.get(..size as usize).unwrap_or(BYTES))
}

fn offer(alloc: Global, window: u32) -> Result<MuxCall, OutOfMemory> {
    Ok(MuxCall::Offer(Text::from_str(alloc, "trial")?, window))
}

fn write(alloc: Global, key: ChannelKey, size: u32) -> Result<MuxCall, OutOfMemory> {
    Ok(MuxCall::Write(key, content(alloc, size)?))
}

fn step_with(side: Side, call: MuxCall) -> Step {
    Step::Call(side, Call::Mux(call))
}

pub fn step_of(alloc: Global, side: Side, makes: Move) -> Result<Step, OutOfMemory> {
    Ok(match makes {
        Move::Offer(window) => step_with(side, offer(alloc, window)?),
        Move::Accept(key, window) => step_with(side, MuxCall::Accept(key, window)),
        Move::Write(key, size) => step_with(side, write(alloc, key, size)?),
        Move::Read(key, max) => step_with(side, MuxCall::Read(key, max)),
        Move::Complete(key) => step_with(side, MuxCall::Complete(key)),
        Move::Terminate(key) => step_with(side, MuxCall::Terminate(key)),
        Move::Deliver(count) => Step::Deliver(side, count),
    })
}

/// One of the newest channels, or none where there are few.
fn draw_channel(draws: &mut Draws, channels: &[Channel]) -> Option<Channel> {
    let newest = channels.get(channels.len().saturating_sub(NEWEST)..)?;
    newest.get(draws.below(NEWEST as u32) as usize).copied()
}

/// A delivery of one byte, of all that is in flight, or of a part of it.
fn draw_delivery(draws: &mut Draws, in_flight: usize) -> Move {
    let count = match draws.below(3) {
        0 => 1,
        1 => ALL,
        _ => draws.up_to(u32::try_from(in_flight).unwrap_or(u32::MAX)) as u64,
    };
    Move::Deliver(count)
}

/// What a side does on a channel: mostly writes and reads.
fn draw_use(draws: &mut Draws, key: ChannelKey) -> Move {
    match draws.below(100) {
        0..=19 => Move::Accept(key, draws.up_to(MOST_WINDOW)),
        20..=61 => Move::Write(key, draws.up_to(MOST_BYTES)),
        62..=95 => Move::Read(key, draws.up_to(MOST_BYTES)),
        96..=97 => Move::Complete(key),
        _ => Move::Terminate(key),
    }
}

/// What a side does, into which so many bytes are in flight.
pub fn draw_move(draws: &mut Draws, channels: &[Channel], side: Side, in_flight: usize) -> Move {
    let kind = draws.below(100);
    if kind < 34 {
        return draw_delivery(draws, in_flight);
    }
    if kind < 40 && channels.len() < MOST_CHANNELS {
        return Move::Offer(draws.up_to(MOST_WINDOW));
    }
    match draw_channel(draws, channels) {
        Some(channel) => draw_use(draws, channel.key_at(side)),
        None => draw_delivery(draws, in_flight),
    }
}
