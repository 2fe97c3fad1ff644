//! The words of a report, each appended to a text.

ghost use Rattle.std.specs.Prelude.{◌≡◌, ◌++◌, OnOk};
ghost use Rattle.transcript.specs.Words.{cause_text, phase_text, refusal_text, reply_text, emitted_line};

use crate::requests::{push_outcome, push_progress};
use endpoint_items::Reply;
use mux_items::Phase;
use mux_run::Side;
use std::alloc::Global;
use text_words::{
    push_bytes, push_channel, push_decimal, push_hex, push_line_feed, push_side, push_text,
};
use wire_base::{Cause, OutOfMemory, Refusal};

pub(crate) fn push_cause(out: &mut Vec<u8>, cause: Cause) -> Result<(), OutOfMemory>
    ensures { OnOk result (out.new.items ≡ out.old.items ++ cause_text cause) }
{
    match cause {
        Cause::InputEnded => push_text(out, "input"),
        Cause::PeerCompleted => push_text(out, "completed"),
        Cause::ChannelClosed => push_text(out, "closed"),
        Cause::Spent => push_text(out, "spent"),
        Cause::Refused(place, reason) => {
            push_decimal(out, place.0)?;
            push_text(out, " ")?;
            push_decimal(out, reason.number() as u64)?;
            push_text(out, " ")?;
            push_text(out, reason.name())
        }
    }
}

pub(crate) fn push_phase(out: &mut Vec<u8>, phase: Phase) -> Result<(), OutOfMemory>
    ensures { OnOk result (out.new.items ≡ out.old.items ++ phase_text phase) }
{
    match phase {
        Phase::Waiting => push_text(out, "waiting"),
        Phase::Heard => push_text(out, "heard"),
        Phase::Live => push_text(out, "live"),
        Phase::Closing => push_text(out, "closing"),
        Phase::Closed => push_text(out, "closed"),
    }
}

fn push_refusal(out: &mut Vec<u8>, refusal: &Refusal) -> Result<(), OutOfMemory>
    ensures { OnOk result (out.new.items ≡ out.old.items ++ refusal_text refusal.now) }
{
    push_text(out, "refused ")?;
    push_decimal(out, refusal.number() as u64)?;
    push_text(out, " ")?;
    push_text(out, refusal.name())
}

/// Appends what a call answered.
pub(crate) fn push_reply(
    alloc: Global,
    out: &mut Vec<u8>,
    side: Side,
    reply: &Reply,
) -> Result<(), OutOfMemory>
    ensures { OnOk result (out.new.items ≡ out.old.items ++ reply_text side reply.now) }
{
    match reply {
        Reply::Done => push_text(out, "ok"),
        Reply::Made(key) => {
            push_text(out, "channel ")?;
            push_channel(out, side, *key)
        }
        Reply::Bytes(bytes) => {
            push_text(out, "bytes ")?;
            push_bytes(alloc, out, bytes.as_bytes())
        }
        Reply::Number(number) => {
            push_text(out, "request ")?;
            push_decimal(out, *number)
        }
        Reply::Report(value) => push_progress(alloc, out, value),
        Reply::Known(outcome) => push_outcome(alloc, out, outcome),
        Reply::NotYet => push_text(out, "pending"),
        Reply::Refused(refusal) => push_refusal(out, refusal),
        Reply::OutOfMemory => Ok(()),
    }
}

/// Appends what a side emitted in a step, as a line where there is any.
pub(crate) fn push_emitted_line(
    alloc: Global,
    out: &mut Vec<u8>,
    side: Side,
    bytes: &[u8],
) -> Result<(), OutOfMemory>
    ensures { OnOk result (out.new.items ≡ out.old.items ++ emitted_line side bytes.now) }
{
    match bytes {
        [] => Ok(()),
        [_, ..] => {
            push_text(out, " ")?;
            push_side(out, side)?;
            push_text(out, "> ")?;
            push_hex(alloc, out, bytes)?;
            push_line_feed(out)
        }
    }
}
