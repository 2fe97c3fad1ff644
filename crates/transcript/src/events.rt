//! The words of events, each appended to a text.

ghost use Rattle.std.specs.Prelude.{◌≡◌, ◌++◌, codes, OnOk};
ghost use Rattle.std.specs.Fmt.{decimal};
ghost use Rattle.transcript.specs.Words.{cause_text, channel_text, event_line, event_text, id_text, mux_event_text, rpc_event_text, target_text};

use crate::requests::{push_id, push_target};
use crate::words::push_cause;
use endpoint_items::EndEvent;
use endpoint_run::SideEvent;
use mux_items::{ChannelKey, MuxEvent};
use mux_run::Side;
use rpc_items::{RpcEvent, Target};
use std::alloc::Global;
use text_words::{push_channel, push_decimal, push_line_feed, push_side, push_text};
use wire_base::{Cause, Id, OutOfMemory, Text};

fn push_word_and_channel(
    out: &mut Vec<u8>,
    word: &str,
    side: Side,
    key: ChannelKey,
) -> Result<(), OutOfMemory>
    ensures { OnOk result (out.new.items ≡ out.old.items ++ (word.now ++ channel_text side key)) }
{
    push_text(out, word)?;
    push_channel(out, side, key)
}

fn push_count(out: &mut Vec<u8>, count: u64) -> Result<(), OutOfMemory>
    ensures { OnOk result (out.new.items ≡ out.old.items ++ (codes " " ++ decimal count)) }
{
    push_text(out, " ")?;
    push_decimal(out, count)
}

fn push_mux_event(out: &mut Vec<u8>, side: Side, event: &MuxEvent) -> Result<(), OutOfMemory>
    ensures { OnOk result (out.new.items ≡ out.old.items ++ mux_event_text side event.now) }
{
    match event {
        MuxEvent::Ready => push_text(out, "ready"),
        MuxEvent::Offered(key) => push_word_and_channel(out, "offered ", side, *key),
        MuxEvent::Rejected(key) => push_word_and_channel(out, "rejected ", side, *key),
        MuxEvent::Accepted(key) => push_word_and_channel(out, "accepted ", side, *key),
        MuxEvent::Content(key, count) => {
            push_word_and_channel(out, "content ", side, *key)?;
            push_count(out, *count as u64)
        }
        MuxEvent::Completed(key) => push_word_and_channel(out, "completed ", side, *key),
        MuxEvent::Closed(key) => push_word_and_channel(out, "closed ", side, *key),
        MuxEvent::Credit(key, count) => {
            push_word_and_channel(out, "credit ", side, *key)?;
            push_count(out, *count)
        }
        MuxEvent::Ignored(key) => push_word_and_channel(out, "ignored ", side, *key),
    }
}

fn push_asked(
    alloc: Global,
    out: &mut Vec<u8>,
    side: Side,
    key: ChannelKey,
    id: &Id,
    target: Target,
    method: &Text,
) -> Result<(), OutOfMemory>
    ensures { OnOk result (out.new.items ≡ out.old.items ++ (codes "asked " ++ channel_text side key ++ codes " " ++ id_text id.now ++ codes " " ++ target_text target ++ method.now)) }
{
    push_word_and_channel(out, "asked ", side, key)?;
    push_text(out, " ")?;
    push_id(alloc, out, id)?;
    push_text(out, " ")?;
    push_target(out, target)?;
    push_text(out, method.as_str())
}

fn push_word_and_method(
    out: &mut Vec<u8>,
    word: &str,
    side: Side,
    key: ChannelKey,
    method: &str,
) -> Result<(), OutOfMemory>
    ensures { OnOk result (out.new.items ≡ out.old.items ++ (word.now ++ channel_text side key ++ codes " " ++ method.now)) }
{
    push_word_and_channel(out, word, side, key)?;
    push_text(out, " ")?;
    push_text(out, method)
}

fn push_cancelled(
    alloc: Global,
    out: &mut Vec<u8>,
    side: Side,
    key: ChannelKey,
    id: &Id,
) -> Result<(), OutOfMemory>
    ensures { OnOk result (out.new.items ≡ out.old.items ++ (codes "cancelled " ++ channel_text side key ++ codes " " ++ id_text id.now)) }
{
    push_word_and_channel(out, "cancelled ", side, key)?;
    push_text(out, " ")?;
    push_id(alloc, out, id)
}

fn push_word_and_request(
    out: &mut Vec<u8>,
    word: &str,
    side: Side,
    key: ChannelKey,
    number: u64,
) -> Result<(), OutOfMemory>
    ensures { OnOk result (out.new.items ≡ out.old.items ++ (word.now ++ channel_text side key ++ codes " " ++ decimal number)) }
{
    push_word_and_channel(out, word, side, key)?;
    push_count(out, number)
}

fn push_rpc_event(
    alloc: Global,
    out: &mut Vec<u8>,
    side: Side,
    key: ChannelKey,
    event: &RpcEvent,
) -> Result<(), OutOfMemory>
    ensures { OnOk result (out.new.items ≡ out.old.items ++ rpc_event_text side key event.now) }
{
    match event {
        RpcEvent::Asked(id, target, method, _) => {
            push_asked(alloc, out, side, key, id, *target, method)
        }
        RpcEvent::Told(method, _) => {
            push_word_and_method(out, "told ", side, key, method.as_str())
        }
        RpcEvent::Cancelled(id) => push_cancelled(alloc, out, side, key, id),
        RpcEvent::Answered(number) => {
            push_word_and_request(out, "answered ", side, key, *number)
        }
        RpcEvent::Reported(number) => {
            push_word_and_request(out, "reported ", side, key, *number)
        }
        RpcEvent::Released(_) => {
            push_word_and_method(out, "handled ", side, key, "$/releaseMarshaledObject")
        }
        RpcEvent::Handled(method) => {
            push_word_and_method(out, "handled ", side, key, method.as_str())
        }
        RpcEvent::Stray => push_word_and_channel(out, "stray ", side, key),
    }
}

fn push_rpc_ended(
    out: &mut Vec<u8>,
    side: Side,
    key: ChannelKey,
    cause: Cause,
) -> Result<(), OutOfMemory>
    ensures { OnOk result (out.new.items ≡ out.old.items ++ (codes "rpc-ended " ++ channel_text side key ++ codes " " ++ cause_text cause)) }
{
    push_word_and_channel(out, "rpc-ended ", side, key)?;
    push_text(out, " ")?;
    push_cause(out, cause)
}

fn push_event(
    alloc: Global,
    out: &mut Vec<u8>,
    side: Side,
    event: &SideEvent,
) -> Result<(), OutOfMemory>
    ensures { OnOk result (out.new.items ≡ out.old.items ++ event_text side event.now) }
{
    match event {
        SideEvent::Happened(EndEvent::Mux(event)) => push_mux_event(out, side, event),
        SideEvent::Happened(EndEvent::Rpc(key, event)) => {
            push_rpc_event(alloc, out, side, *key, event)
        }
        SideEvent::Happened(EndEvent::RpcEnded(key, cause)) => {
            push_rpc_ended(out, side, *key, *cause)
        }
        SideEvent::Ended(cause) => {
            push_text(out, "ended ")?;
            push_cause(out, *cause)
        }
    }
}

/// Appends the line of an event.
pub(crate) fn push_event_line(
    alloc: Global,
    out: &mut Vec<u8>,
    side: Side,
    event: &SideEvent,
) -> Result<(), OutOfMemory>
    ensures { OnOk result (out.new.items ≡ out.old.items ++ event_line side event.now) }
{
    push_text(out, " ")?;
    push_side(out, side)?;
    push_text(out, " ")?;
    push_event(alloc, out, side, event)?;
    push_line_feed(out)
}
