//! Frames, read.

ghost use Rattle.frame_text.specs.Codec.{Decodes, elements, is_packed};
ghost use Rattle.frame_text.specs.Reading.{Gives, Says, content_at, front, origin_at, packed_at, payload_at};
ghost use Rattle.std.specs.Prelude.{◌≡◌, ◌<◌, ◌≤◌, true};

use crate::numbers::{code, id, source};
use crate::payload::carried;
use std::alloc::Global;
use wire_base::{
    Code, DecodeError, Fault, Frame, FrameStep, MAX_PAYLOAD, MAX_PLACE, Origin, Payload, Place,
    Reason, Version, bin_head, breaks, open_array,
};

/// A payload's bytes, and the bytes after it.
#[tactic(auto, unfolding(frame_text::specs::Reading::payload_at))]
fn payload_bytes(present: bool, bytes: &[u8]) -> Result<(&[u8], &[u8]), Fault>
    ensures { Says (λ x. (x.0.now, x.1.now)) result (payload_at present bytes.now) }
{
    if !present {
        return Ok((&[], bytes));
    }
    let (len, rest) = bin_head(Reason::BadShape, bytes)?;
    if len > MAX_PAYLOAD {
        return Err(breaks(bytes, Reason::PayloadTooLong));
    }
    let len = len as usize;
    if rest.len() < len {
        return Err(Fault::Ends);
    }
    Ok(rest.split_at(len))
}

#[tactic(auto, using(frame_text::proofs::Within::runs), unfolding(frame_text::specs::Reading::content_at))]
fn content(
    alloc: Global,
    present: bool,
    code: Code,
    bytes: &[u8],
) -> Result<(Payload, &[u8]), DecodeError>
    ensures { Gives (λ x. (x.0, x.1.now)) result (content_at present code bytes.now) }
{
    let (content, rest) = payload_bytes(present, bytes)?;
    match carried(alloc, code, content) {
        Ok(payload) => Ok((payload, rest)),
        Err(DecodeError::Fault(Fault::Breaks(left, reason))) => {
            Err(DecodeError::Fault(Fault::Breaks(left + rest.len(), reason)))
        }
        Err(error) => Err(error),
    }
}

fn origin(version: Version, bytes: &[u8]) -> Result<(Origin, &[u8]), Fault>
    ensures { Says (λ x. (x.0, x.1.now)) result (origin_at version bytes.now) }
{
    match version {
        Version::Three => source(bytes),
        Version::One | Version::Two => Ok((Origin::ByParity, bytes)),
    }
}

pub fn least_elements(version: Version) -> u32
    ensures exact { result ≡ elements version }
    ensures few { result < 8 }
{
    match version {
        Version::Three => 3,
        Version::One | Version::Two => 2,
    }
}

#[tactic(auto, unfolding(frame_text::specs::Reading::packed_at))]
fn packed(alloc: Global, version: Version, bytes: &[u8]) -> Result<(Frame, &[u8]), DecodeError>
    ensures { Gives (λ x. (x.0, x.1.now)) result (packed_at version bytes.now) }
{
    let (has_payload, rest) = open_array(least_elements(version), Reason::BadShape, bytes)?;
    let (code, rest) = code(rest)?;
    let (id, rest) = id(rest)?;
    let (origin, rest) = origin(version, rest)?;
    let (payload, rest) = content(alloc, has_payload, code, rest)?;
    Ok((
        Frame {
            code,
            id,
            origin,
            payload,
        },
        rest,
    ))
}

#[tactic(auto, using(crate::proofs::Steps::steps), unfolding(frame_text::specs::Reading::front))]
pub fn step(alloc: Global, version: Version, bytes: &[u8], at: Place) -> FrameStep
    requires packed { is_packed version ≡ true }
    requires room { at.0 ≤ MAX_PLACE }
    ensures { Decodes result bytes.now at (front version bytes.now) }
{
    match packed(alloc, version, bytes) {
        Ok((frame, rest)) => FrameStep::Got(frame, bytes.len() - rest.len()),
        Err(DecodeError::Fault(Fault::Ends)) => FrameStep::Short,
        Err(DecodeError::Fault(Fault::Breaks(left, reason))) => {
            FrameStep::Refused(Place(at.0 + (bytes.len() - left) as u64), reason)
        }
        Err(DecodeError::Memory) => FrameStep::OutOfMemory,
    }
}
