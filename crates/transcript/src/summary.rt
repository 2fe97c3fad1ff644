//! How the sides stand at the end of a run.

ghost use Rattle.std.specs.Prelude.{◌≡◌, ◌++◌, ℕ, List, [], codes, OnOk, if◌then◌else◌};
ghost use Rattle.std.specs.Fmt.{decimal};
ghost use Rattle.call_table.specs.Table.{shown};
ghost use Rattle.endpoint_items.specs.Items.{EndItem};
ghost use Rattle.endpoint.specs.Stands.{Stands};
ghost use Rattle.text_words.specs.Written.{name_at, is_same_side, owner_word, side_word};
ghost use Rattle.transcript.specs.Words.{channel_text, life_text};
ghost use Rattle.transcript.specs.Report.{tally_text, channel_line_of, request_line_of, request_lines, handle_line_of, handle_line, own_handle_lines, peer_handle_lines, known_lines, channel_lines, shown_state, summary};

use crate::requests::push_outcome;
use crate::words::{push_cause, push_phase};
use endpoint::{Endpoint, Look};
use mux_items::{ChannelKey, Tally};
use mux_run::Side;
use rpc_items::HandleKey;
use std::alloc::Global;
use text_words::{
    ChannelName, push_channel, push_decimal, push_line_feed, push_owner, push_side, push_text,
};
use wire_base::{EndState, OutOfMemory};

fn push_tally(out: &mut Vec<u8>, tally: &Tally) -> Result<(), OutOfMemory>
    ensures { OnOk result (out.new.items ≡ out.old.items ++ tally_text tally.now) }
{
    push_phase(out, tally.phase)?;
    push_text(out, " written ")?;
    push_decimal(out, tally.written)?;
    push_text(out, " emitted ")?;
    push_decimal(out, tally.emitted)?;
    push_text(out, " taken ")?;
    push_decimal(out, tally.taken)?;
    push_text(out, " handed ")?;
    push_decimal(out, tally.handed)
}

/// Appends the front of a line: its side, and its channel as that side names it.
fn push_front(out: &mut Vec<u8>, side: Side, key: ChannelKey) -> Result<(), OutOfMemory>
    ensures { OnOk result (out.new.items ≡ out.old.items ++ (side_word side ++ codes " " ++ channel_text side key)) }
{
    push_side(out, side)?;
    push_text(out, " ")?;
    push_channel(out, side, key)
}

/// Appends the line of a channel, where something is known of it.
fn push_channel_line(
    out: &mut Vec<u8>,
    side: Side,
    key: ChannelKey,
    tally: Option<Tally>,
) -> Result<(), OutOfMemory>
    ensures { OnOk result (out.new.items ≡ out.old.items ++ channel_line_of side key tally) }
{
    match tally {
        None => Ok(()),
        Some(tally) => {
            push_front(out, side, key)?;
            push_text(out, " ")?;
            push_tally(out, &tally)?;
            push_line_feed(out)
        }
    }
}

/// Appends the front of the line of a request: its side, its channel and its number.
fn push_request(
    out: &mut Vec<u8>,
    side: Side,
    key: ChannelKey,
    number: u64,
) -> Result<(), OutOfMemory>
    ensures { OnOk result (out.new.items ≡ out.old.items ++ (side_word side ++ codes " " ++ channel_text side key ++ codes " request " ++ decimal number)) }
{
    push_front(out, side, key)?;
    push_text(out, " request ")?;
    push_decimal(out, number)
}

/// Appends the line of a request, by what can be told of it.
fn push_request_line(
    alloc: Global,
    out: &mut Vec<u8>,
    side: Side,
    key: ChannelKey,
    number: u64,
    look: Look<'_>,
) -> Result<(), OutOfMemory>
    ensures { OnOk result (out.new.items ≡ out.old.items ++ request_line_of side key number (shown look.entry)) }
{
    match look {
        Look::Known(outcome) => {
            push_request(out, side, key, number)?;
            push_text(out, " ")?;
            push_outcome(alloc, out, outcome)?;
            push_line_feed(out)
        }
        Look::NotYet => {
            push_request(out, side, key, number)?;
            push_text(out, " pending")?;
            push_line_feed(out)
        }
        Look::NoRequest => Ok(()),
    }
}

/// Appends the lines of the requests of a channel's connection.
fn push_requests(
    alloc: Global,
    out: &mut Vec<u8>,
    side: Side,
    end: &Endpoint,
    key: ChannelKey,
) -> Result<(), OutOfMemory>
    ensures { (items : List EndItem) (at : ℕ) (rest : List ℕ) → Stands end.now items at rest →
        OnOk result (out.new.items ≡ out.old.items ++ request_lines end.now.mux.version side items key) }
{
    for number in 1..=end.last_request(key) {
        push_request_line(alloc, out, side, key, number, end.outcome(key, number))?;
    }
    Ok(())
}

fn push_life(out: &mut Vec<u8>, live: bool) -> Result<(), OutOfMemory>
    ensures { OnOk result (out.new.items ≡ out.old.items ++ life_text live) }
{
    if live {
        push_text(out, "live")
    } else {
        push_text(out, "released")
    }
}

/// Appends the front of the line of a handle: its side, its channel, whose it is and its number.
fn push_handle_front(
    out: &mut Vec<u8>,
    side: Side,
    key: ChannelKey,
    handle: HandleKey,
) -> Result<(), OutOfMemory>
    ensures { OnOk result (out.new.items ≡ out.old.items ++ (side_word side ++ codes " " ++ channel_text side key ++ codes " handle " ++ owner_word handle.own ++ codes " " ++ decimal handle.number)) }
{
    push_front(out, side, key)?;
    push_text(out, " handle ")?;
    push_owner(out, handle.own)?;
    push_text(out, " ")?;
    push_decimal(out, handle.number)
}

/// Appends the line of a handle, where it was made or adopted.
fn push_handle_line(
    out: &mut Vec<u8>,
    side: Side,
    key: ChannelKey,
    handle: HandleKey,
    live: Option<bool>,
) -> Result<(), OutOfMemory>
    ensures { OnOk result (out.new.items ≡ out.old.items ++ handle_line_of side key handle live) }
{
    match live {
        None => Ok(()),
        Some(live) => {
            push_handle_front(out, side, key, handle)?;
            push_text(out, " ")?;
            push_life(out, live)?;
            push_line_feed(out)
        }
    }
}

/// Appends the line of a handle of a channel's connection.
fn push_handle(
    out: &mut Vec<u8>,
    side: Side,
    end: &Endpoint,
    key: ChannelKey,
    handle: HandleKey,
) -> Result<(), OutOfMemory>
    ensures { (items : List EndItem) (at : ℕ) (rest : List ℕ) → Stands end.now items at rest →
        OnOk result (out.new.items ≡ out.old.items ++ handle_line end.now.mux.version side items key handle) }
{
    push_handle_line(out, side, key, handle, end.handle(key, handle))
}

/// Appends the lines of the handles that a channel's connection made.
fn push_own_handles(
    out: &mut Vec<u8>,
    side: Side,
    end: &Endpoint,
    key: ChannelKey,
) -> Result<(), OutOfMemory>
    ensures { (items : List EndItem) (at : ℕ) (rest : List ℕ) → Stands end.now items at rest →
        OnOk result (out.new.items ≡ out.old.items ++ own_handle_lines end.now.mux.version side items key) }
{
    for number in 1..=end.last_handle(key) {
        push_handle(out, side, end, key, HandleKey { number, own: true })?;
    }
    Ok(())
}

/// Appends the lines of the handles that it adopted from the peer.
fn push_peer_handles(
    out: &mut Vec<u8>,
    side: Side,
    end: &Endpoint,
    key: ChannelKey,
) -> Result<(), OutOfMemory>
    ensures { (items : List EndItem) (at : ℕ) (rest : List ℕ) → Stands end.now items at rest →
        OnOk result (out.new.items ≡ out.old.items ++ peer_handle_lines end.now.mux.version side items key) }
{
    for i in 0..usize::MAX {
        let Some(number) = end.peer_handle(key, i) else {
            return Ok(());
        };
        push_handle(out, side, end, key, HandleKey { number, own: false })?;
    }
    // No connection adopts so many handles that their list would go on here.
    Err(OutOfMemory)
}

/// Appends the words of an end that runs or has ended; an end that is stopped has none.
fn push_state(out: &mut Vec<u8>, state: EndState) -> Result<(), OutOfMemory>
    ensures { OnOk result (out.new.items ≡ out.old.items ++ shown_state state) }
{
    match state {
        EndState::Running => push_text(out, "running"),
        EndState::Ended(cause) => {
            push_text(out, "ended ")?;
            push_cause(out, cause)
        }
        EndState::Stopped => Ok(()),
    }
}

/// Whether a channel, as a side names it, was offered by this one.
fn is_offered_by(side: Side, key: ChannelKey, offering: Side) -> bool
    ensures { result ≡ is_same_side (name_at side key).offering offering }
{
    ChannelName::of(side, key).offering == offering
}

/// Appends the line of a known channel, those of its requests, and those of its handles.
fn push_lines(
    alloc: Global,
    out: &mut Vec<u8>,
    side: Side,
    end: &Endpoint,
    key: ChannelKey,
) -> Result<(), OutOfMemory>
    ensures { (items : List EndItem) (at : ℕ) (rest : List ℕ) → Stands end.now items at rest →
        OnOk result (out.new.items ≡ out.old.items ++ known_lines end.now.mux.version side items key) }
{
    push_channel_line(out, side, key, end.tally(key))?;
    push_requests(alloc, out, side, end, key)?;
    push_own_handles(out, side, end, key)?;
    push_peer_handles(out, side, end, key)
}

/// Appends the lines of a known channel, where this side offered it.
fn push_known(
    alloc: Global,
    out: &mut Vec<u8>,
    side: Side,
    offering: Side,
    end: &Endpoint,
    key: ChannelKey,
) -> Result<(), OutOfMemory>
    ensures { (items : List EndItem) (at : ℕ) (rest : List ℕ) → Stands end.now items at rest →
        OnOk result (out.new.items ≡ out.old.items ++ (if is_same_side (name_at side key).offering offering then known_lines end.now.mux.version side items key else [])) }
{
    if is_offered_by(side, key, offering) {
        push_lines(alloc, out, side, end, key)
    } else {
        Ok(())
    }
}

/// Appends the lines of the channels that a side offered.
fn push_channels(
    alloc: Global,
    out: &mut Vec<u8>,
    side: Side,
    offering: Side,
    end: &Endpoint,
) -> Result<(), OutOfMemory>
    ensures { (items : List EndItem) (at : ℕ) (rest : List ℕ) → Stands end.now items at rest →
        OnOk result (out.new.items ≡ out.old.items ++ channel_lines end.now.mux.version side offering items) }
{
    for i in 0..usize::MAX {
        let Some(key) = end.known(i) else {
            return Ok(());
        };
        push_known(alloc, out, side, offering, end, key)?;
    }
    // No end knows so many channels that their list would go on here.
    Err(OutOfMemory)
}

/// Appends how a side stands, and its channels: those that A offered, then those that B offered.
pub(crate) fn push_summary(
    alloc: Global,
    out: &mut Vec<u8>,
    side: Side,
    end: &Endpoint,
) -> Result<(), OutOfMemory>
    ensures { (items : List EndItem) (at : ℕ) (rest : List ℕ) → Stands end.now items at rest →
        OnOk result (out.new.items ≡ out.old.items ++ summary end.now.mux.version side items) }
{
    push_side(out, side)?;
    push_text(out, " ")?;
    push_state(out, end.state())?;
    push_line_feed(out)?;
    push_channels(alloc, out, side, Side::A, end)?;
    push_channels(alloc, out, side, Side::B, end)?;
    Ok(())
}
