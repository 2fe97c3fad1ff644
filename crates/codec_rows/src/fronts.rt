//! What stands at the front of bytes, as text, and how frames are written.

use frame_pack::PackCodec;
use frame_text::FrameCodec;
use frame_v1::V1Codec;
use mux_handshake::{Shaken, shake};
use std::alloc::Global;
use std::test::Fail;
use wire_base::{Frame, FrameStep, Place, Reason, Version};

/// Frames of version 1, and of versions 2 and 3.
#[derive(Clone, Copy)]
pub enum Codec {
    Fixed,
    Packed(Version),
}

/// A frame, or the handshake that comes to an end with this nonce.
#[derive(Clone, Copy)]
pub enum Front {
    Frame(Codec),
    Handshake(Version, [u8; 16]),
}

/// The place of the first byte of a frame.
const START: u64 = 100;

fn decoded_fixed(alloc: Global, bytes: &[u8]) -> FrameStep {
    V1Codec::new().decode(alloc, bytes, Place(START))
}

/// The codec of version 2, and for any other version that of version 3.
fn packed(version: Version) -> PackCodec {
    match version {
        Version::Two => PackCodec::new(Version::Two),
        _ => PackCodec::new(Version::Three),
    }
}

fn decoded_packed(alloc: Global, version: Version, bytes: &[u8]) -> FrameStep {
    packed(version).decode(alloc, bytes, Place(START))
}

pub fn decoded(alloc: Global, codec: Codec, bytes: &[u8]) -> FrameStep {
    match codec {
        Codec::Fixed => decoded_fixed(alloc, bytes),
        Codec::Packed(version) => decoded_packed(alloc, version, bytes),
    }
}

/// The place, from the first byte on, and the reason.
fn of_refusal(alloc: Global, place: u64, reason: Reason) -> Result<String, Fail> {
    Ok(format!(in alloc; "{place} {reason:?}")?)
}

fn of_step(alloc: Global, step: &FrameStep) -> Result<String, Fail> {
    match step {
        FrameStep::Got(frame, size) => {
            Ok(format!(in alloc; "{:?} {} {size}", frame.code, frame.id)?)
        }
        FrameStep::Short => Ok(String::from_str(alloc, "short")?),
        FrameStep::Refused(place, reason) => {
            of_refusal(alloc, place.0.wrapping_sub(START), *reason)
        }
        FrameStep::OutOfMemory => Ok(String::from_str(alloc, "out of memory")?),
    }
}

fn of_shaken(alloc: Global, shaken: Shaken) -> Result<String, Fail> {
    match shaken {
        Shaken::Done(party, size) => Ok(format!(in alloc; "{party:?} {size}")?),
        Shaken::Short => Ok(String::from_str(alloc, "short")?),
        Shaken::Refused(place, reason) => of_refusal(alloc, place.0, reason),
    }
}

fn shaken(version: Version, own: &[u8; 16], bytes: &[u8]) -> Shaken {
    shake(version, own, bytes)
}

/// The code, the id and the size of a frame, or the party and the size of a handshake, or the place and the reason of a
/// refusal.
pub fn told(alloc: Global, front: &Front, bytes: &[u8]) -> Result<String, Fail> {
    match front {
        Front::Frame(codec) => of_step(alloc, &decoded(alloc, *codec, bytes)),
        Front::Handshake(version, own) => of_shaken(alloc, shaken(*version, own, bytes)),
    }
}

pub fn fits_fixed(frame: &Frame) -> bool {
    V1Codec::new().fits(frame)
}

fn push_fixed(text: &mut Vec<u8>, frame: &Frame) -> Result<(), Fail> {
    let codec = V1Codec::new();
    if codec.fits(frame) {
        codec.encode(frame, text)?;
    }
    Ok(())
}

fn push_packed(text: &mut Vec<u8>, version: Version, frame: &Frame) -> Result<(), Fail> {
    let codec = packed(version);
    if codec.fits(frame) {
        codec.encode(frame, text)?;
    }
    Ok(())
}

/// The frame is written behind what stands there, if it fits.
pub fn push(text: &mut Vec<u8>, codec: Codec, frame: &Frame) -> Result<(), Fail> {
    match codec {
        Codec::Fixed => push_fixed(text, frame),
        Codec::Packed(version) => push_packed(text, version, frame),
    }
}
