//! Frames, read.

ghost use Rattle.frame_text.specs.Codec.{Decodes};
ghost use Rattle.frame_text.specs.Reading.{Gives, Says, bytes_at, field_at, front, plain_at, plain_carried, plain_code, plain_content_at, plain_id};
ghost use Rattle.std.specs.Int.{w8, w16, w32};
ghost use Rattle.std.specs.Prelude.{◌≤◌, Some};
ghost use Rattle.wire_base.specs.declared.reason.Reason.TheVariants.{BadCode, BadId, BadShape};

use std::alloc::Global;
use wire_base::{
    Blob, Code, DecodeError, Fault, Frame, FrameStep, MAX_PLACE, Origin, Payload, Place, Reason,
    Text, TextFault, Version, breaks,
};

#[tactic(auto, unfolding(wire_base::specs::Tokens::field_at))]
fn code(bytes: &[u8]) -> Result<(Code, &[u8]), Fault>
    ensures { Says (λ x. (x.0, x.1.now)) result (field_at w8 plain_code BadCode bytes.now) }
{
    let Some((number, rest)) = bytes.split_first() else {
        return Err(Fault::Ends);
    };
    match Code::from_number(*number) {
        Some(Code::ContentProcessed) | None => Err(breaks(bytes, Reason::BadCode)),
        Some(code) => Ok((code, rest)),
    }
}

#[tactic(auto, unfolding(wire_base::specs::Tokens::field_at))]
fn id(bytes: &[u8]) -> Result<(u32, &[u8]), Fault>
    ensures { Says (λ x. (x.0, x.1.now)) result (field_at w32 plain_id BadId bytes.now) }
{
    let Some((field, rest)) = bytes.split_first_chunk::<4>() else {
        return Err(Fault::Ends);
    };
    match u32::from_be_bytes(*field) {
        0 => Err(breaks(bytes, Reason::BadId)),
        id => Ok((id, rest)),
    }
}

#[tactic(auto, unfolding(wire_base::specs::Tokens::field_at))]
fn size(bytes: &[u8]) -> Result<(u16, &[u8]), Fault>
    ensures { Says (λ x. (x.0, x.1.now)) result (field_at w16 (λ n. Some n) BadShape bytes.now) }
{
    match bytes.split_first_chunk::<2>() {
        Some((field, rest)) => Ok((u16::from_be_bytes(*field), rest)),
        None => Err(Fault::Ends),
    }
}

/// A payload's bytes, and the bytes after it.
#[tactic(auto, unfolding(wire_base::specs::Tokens::bytes_at))]
fn payload_bytes(size: u16, bytes: &[u8]) -> Result<(&[u8], &[u8]), Fault>
    ensures { Says (λ x. (x.0.now, x.1.now)) result (bytes_at size bytes.now) }
{
    bytes.split_at_checked(size as usize).ok_or(Fault::Ends)
}

#[tactic(auto, unfolding(frame_text::specs::Reading::plain_carried))]
fn name(alloc: Global, bytes: &[u8]) -> Result<Text, DecodeError>
    ensures { Gives (λ name. Payload.Offer name None) result (plain_carried Code.Offer bytes.now) }
{
    match Text::from_utf8(alloc, bytes) {
        Ok(name) => Ok(name),
        Err(TextFault::BadUtf8) => Err(breaks(bytes, Reason::BadName).into()),
        Err(TextFault::OutOfMemory) => Err(DecodeError::Memory),
    }
}

/// What a frame of this code carries, by the bytes of its payload.
#[tactic(auto, unfolding(frame_text::specs::Reading::plain_carried))]
fn carried(alloc: Global, code: Code, bytes: &[u8]) -> Result<Payload, DecodeError>
    ensures { Gives (λ p. p) result (plain_carried code bytes.now) }
{
    match code {
        Code::Offer => Ok(Payload::Offer(name(alloc, bytes)?, None)),
        Code::OfferAccepted => Ok(Payload::Accepted(None)),
        Code::Content => Ok(Payload::Content(Blob::from_bytes(alloc, bytes)?)),
        Code::ContentWritingCompleted | Code::ChannelTerminated | Code::ContentProcessed => {
            Ok(Payload::Nothing)
        }
    }
}

#[tactic(auto, using(crate::proofs::Payloads::payloads), unfolding(frame_text::specs::Reading::plain_content_at))]
fn content(
    alloc: Global,
    code: Code,
    size: u16,
    bytes: &[u8],
) -> Result<(Payload, &[u8]), DecodeError>
    ensures { Gives (λ x. (x.0, x.1.now)) result (plain_content_at code size bytes.now) }
{
    let (content, rest) = payload_bytes(size, bytes)?;
    match carried(alloc, code, content) {
        Ok(payload) => Ok((payload, rest)),
        Err(DecodeError::Fault(Fault::Breaks(left, reason))) => {
            Err(DecodeError::Fault(Fault::Breaks(left + rest.len(), reason)))
        }
        Err(error) => Err(error),
    }
}

#[tactic(auto, unfolding(frame_text::specs::Reading::plain_at))]
fn frame(alloc: Global, bytes: &[u8]) -> Result<(Frame, &[u8]), DecodeError>
    ensures { Gives (λ x. (x.0, x.1.now)) result (plain_at bytes.now) }
{
    let (code, rest) = code(bytes)?;
    let (id, rest) = id(rest)?;
    let (size, rest) = size(rest)?;
    let (payload, rest) = content(alloc, code, size, rest)?;
    Ok((
        Frame {
            code,
            id: id.into(),
            origin: Origin::ByParity,
            payload,
        },
        rest,
    ))
}

#[tactic(auto, using(crate::proofs::Steps::steps), unfolding(frame_text::specs::Reading::front))]
pub fn step(alloc: Global, bytes: &[u8], at: Place) -> FrameStep
    requires { at.0 ≤ MAX_PLACE }
    ensures { Decodes result bytes.now at (front Version.One bytes.now) }
{
    match frame(alloc, bytes) {
        Ok((frame, rest)) => FrameStep::Got(frame, bytes.len() - rest.len()),
        Err(DecodeError::Fault(Fault::Ends)) => FrameStep::Short,
        Err(DecodeError::Fault(Fault::Breaks(left, reason))) => {
            FrameStep::Refused(Place(at.0 + (bytes.len() - left) as u64), reason)
        }
        Err(DecodeError::Memory) => FrameStep::OutOfMemory,
    }
}
