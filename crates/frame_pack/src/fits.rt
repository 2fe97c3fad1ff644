//! Which frames have a spelling, and how long their payloads are.

ghost use Rattle.frame_text.specs.Codec.{is_packed};
ghost use Rattle.frame_text.specs.Frames.{fits, fits_code, fits_id, fits_origin, is_count, payload_text, str_text};
ghost use Rattle.std.specs.Prelude.{◌≡◌, ◌<◌, ◌^◌, length, true, Some};
ghost use Rattle.wire_base.specs.Shortest.{str_head, unsigned_text};

use wire_base::{COUNT_LIMIT, Code, Frame, MAX_PAYLOAD, Origin, Payload, Text, Version};

fn unsigned_len(n: u64) -> u128
    ensures exact { result ≡ length (unsigned_text n) }
    ensures few { result < 16 }
{
    if n < 0x80 {
        1
    } else if n < 0x100 {
        2
    } else if n < 0x1_0000 {
        3
    } else if n < 0x1_0000_0000 {
        5
    } else {
        9
    }
}

fn str_head_len(n: usize) -> u128
    ensures exact { result ≡ length (str_head n) }
    ensures few { result < 16 }
{
    if n < 0x20 {
        1
    } else if n < 0x100 {
        2
    } else if n < 0x1_0000 {
        3
    } else {
        5
    }
}

#[tactic(auto, using(crate::proofs::Lengths::lengths))]
fn name_len(name: &Text) -> u128
    ensures exact { result ≡ length (str_text name.now) }
    ensures few { result < 2 ^ 65 }
{
    let len = name.as_str().len();
    str_head_len(len) + len as u128
}

/// How many bytes a payload takes.
#[tactic(auto, using(crate::proofs::Lengths::lengths))]
pub fn payload_len(payload: &Payload) -> u128
    ensures { result ≡ length (payload_text payload.now) }
{
    match payload {
        Payload::Offer(name, None) => 1 + name_len(name),
        Payload::Offer(name, Some(window)) => 1 + name_len(name) + unsigned_len(*window),
        Payload::Accepted(None) => 1,
        Payload::Accepted(Some(window)) => 1 + unsigned_len(*window),
        Payload::Content(bytes) => bytes.as_bytes().len() as u128,
        Payload::Nothing => 0,
        Payload::Processed(count) => 1 + unsigned_len(*count),
    }
}

fn fits_count(count: u64) -> bool
    ensures { result ≡ is_count (Some count) }
{
    count < COUNT_LIMIT
}

fn fits_window(window: Option<u64>) -> bool
    ensures { result ≡ is_count window }
{
    match window {
        None => true,
        Some(count) => fits_count(count),
    }
}

#[tactic(auto, using(crate::proofs::Lengths::texts))]
fn fits_code(code: Code, payload: &Payload) -> bool
    ensures { result ≡ fits_code Version.Two code payload.now }
{
    match payload {
        Payload::Offer(name, window) => {
            // A text is UTF-8.
            let _name = name.as_str();
            code == Code::Offer && fits_window(*window)
        }
        Payload::Accepted(window) => code == Code::OfferAccepted && fits_window(*window),
        Payload::Content(_) => code == Code::Content,
        Payload::Nothing => {
            code == Code::ContentWritingCompleted || code == Code::ChannelTerminated
        }
        Payload::Processed(count) => code == Code::ContentProcessed && fits_count(*count),
    }
}

fn fits_id(id: u64) -> bool
    ensures { result ≡ fits_id Version.Two id }
{
    0 < id && id < COUNT_LIMIT
}

fn fits_origin(version: Version, origin: Origin) -> bool
    ensures { result ≡ fits_origin version origin }
{
    match version {
        Version::Three => origin != Origin::ByParity,
        Version::One | Version::Two => origin == Origin::ByParity,
    }
}

/// Whether a frame of version 2 or 3 has a spelling.
#[tactic(auto, using(crate::proofs::Lengths::fitting))]
pub fn fits(version: Version, frame: &Frame) -> bool
    requires { is_packed version ≡ true }
    ensures { result ≡ fits version frame.now }
{
    fits_code(frame.code, &frame.payload)
        && fits_id(frame.id)
        && fits_origin(version, frame.origin)
        && payload_len(&frame.payload) <= MAX_PAYLOAD as u128
}
