//! What a frame on a channel makes of it.

ghost use Rattle.channel_credit.specs.Answers.{FrameLeaves, TakeLeaves};
ghost use Rattle.mux_end.specs.Heeded.{IsInRange};
ghost use Rattle.mux_items.specs.Bodies.{ChannelTerminated, ContentWritingCompleted, body_of, body_without_payload};
ghost use Rattle.mux_state.specs.Next.{framed_state};
ghost use Rattle.mux_state.specs.State.{ChannelState};
ghost use Rattle.mux_state.specs.Tests.{event_on, frame_test};
ghost use Rattle.std.specs.Prelude.{◌≡◌, Option};
ghost use Rattle.std.specs.Bool.{OnFalse, OnTrue};
ghost use Rattle.wire_base.specs.declared.reason.Reason.{Reason};

use channel_credit::{Channel, TakeFault};
use mux_items::{ABSENT_WINDOW, ChannelKey, MuxEvent};
use wire_base::{Code, Frame, Payload, Reason};

/// Whether a frame without payload completes its sender's writing. Else it terminates the channel.
fn is_completion(code: Code) -> bool
    ensures completed { OnTrue result (body_without_payload code ≡ ContentWritingCompleted) }
    ensures terminated { OnFalse result (body_without_payload code ≡ ChannelTerminated) }
{
    match code {
        Code::ContentWritingCompleted => true,
        Code::Offer
        | Code::OfferAccepted
        | Code::Content
        | Code::ChannelTerminated
        | Code::ContentProcessed => false,
    }
}

/// What a frame is to its channel.
pub fn event_on(key: ChannelKey, channel: &Channel, frame: &Frame) -> MuxEvent
    requires { IsInRange (body_of frame.now.code frame.now.payload) }
    ensures { result ≡ event_on key (body_of frame.now.code frame.now.payload) channel.now }
{
    match &frame.payload {
        Payload::Offer(_, _) => MuxEvent::Offered(key),
        Payload::Accepted(_) if !channel.has_terminated() => MuxEvent::Accepted(key),
        Payload::Content(bytes) if !channel.has_terminated() => {
            MuxEvent::Content(key, bytes.as_bytes().len() as u32)
        }
        Payload::Processed(count) if !channel.has_terminated() => MuxEvent::Credit(key, *count),
        Payload::Nothing => ending_on(key, channel, frame.code),
        Payload::Accepted(_) | Payload::Content(_) | Payload::Processed(_) => {
            MuxEvent::Ignored(key)
        }
    }
}

/// What a frame without payload is to its channel.
fn ending_on(key: ChannelKey, channel: &Channel, code: Code) -> MuxEvent
    ensures { result ≡ event_on key (body_without_payload code) channel.now }
{
    if is_completion(code) {
        if channel.has_terminated() {
            MuxEvent::Ignored(key)
        } else {
            MuxEvent::Completed(key)
        }
    } else if channel.is_terminated_by_peer() {
        MuxEvent::Ignored(key)
    } else {
        MuxEvent::Closed(key)
    }
}

/// A refusal as one of a frame that may want memory.
fn refused(answer: Result<(), Reason>) -> Result<(), TakeFault>
    ensures { (refused : Option Reason) (old after new : ChannelState) → FrameLeaves refused old after new answer → TakeLeaves refused old after new result }
{
    match answer {
        Ok(()) => Ok(()),
        Err(reason) => Err(TakeFault::Refused(reason)),
    }
}

/// A frame comes to a channel, which heeds, ignores or refuses it.
pub fn heed(channel: &mut Channel, frame: &Frame) -> Result<(), TakeFault>
    requires { IsInRange (body_of frame.now.code frame.now.payload) }
    ensures { TakeLeaves (frame_test (body_of frame.now.code frame.now.payload) channel.old) channel.old (framed_state (body_of frame.now.code frame.now.payload) channel.old) channel.new result }
{
    match &frame.payload {
        Payload::Offer(_, _) => Ok(()),
        Payload::Accepted(None) => refused(channel.on_accepted(ABSENT_WINDOW)),
        Payload::Accepted(Some(window)) => refused(channel.on_accepted(*window)),
        Payload::Content(bytes) => channel.on_content(bytes.as_bytes()),
        Payload::Nothing => heed_ending(channel, frame.code),
        Payload::Processed(count) => refused(channel.on_processed(*count)),
    }
}

/// A frame without payload comes to a channel.
fn heed_ending(channel: &mut Channel, code: Code) -> Result<(), TakeFault>
    ensures { TakeLeaves (frame_test (body_without_payload code) channel.old) channel.old (framed_state (body_without_payload code) channel.old) channel.new result }
{
    if is_completion(code) {
        return refused(channel.on_completed());
    }
    channel.on_terminated();
    Ok(())
}
