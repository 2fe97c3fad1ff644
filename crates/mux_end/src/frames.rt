//! The frames that an end writes, each at the end of its output.

ghost use Rattle.frame_text.specs.Frames.{fits, fits_id, text};
ghost use Rattle.mux_items.specs.Bodies.{ChannelTerminated, Content, ContentProcessed, ContentWritingCompleted, Offer, OfferAccepted, frame_on, frame_text, is_one, origin_of};
ghost use Rattle.mux_items.specs.Due.{written_window};
ghost use Rattle.mux_items.specs.Limits.{longest_name, piece_size};
ghost use Rattle.wire_base.specs.declared.limits.TheConstants.{COUNT_LIMIT};
ghost use Rattle.std.specs.Prelude.{◌≡◌, ◌≤◌, ◌<◌, ◌++◌, length, false, true, OnOk};

use any_codec::AnyCodec;
use frame_text::FrameCodec;
use mux_items::ChannelKey;
use std::alloc::Global;
use wire_base::{Blob, Code, Frame, Origin, OutOfMemory, Payload, Text, Version};

fn origin(version: Version, key: ChannelKey) -> Origin
    ensures { result ≡ origin_of version key }
{
    match version {
        Version::One | Version::Two => Origin::ByParity,
        Version::Three => {
            if key.own {
                Origin::Sender
            } else {
                Origin::Receiver
            }
        }
    }
}

fn frame(version: Version, key: ChannelKey, code: Code, payload: Payload) -> Frame
    ensures { result ≡ record { code = code; id = key.id; origin = origin_of version key; payload = payload } }
{
    Frame {
        code,
        id: key.id,
        origin: origin(version, key),
        payload,
    }
}

fn push_frame(version: Version, frame: &Frame, out: &mut Vec<u8>) -> Result<(), OutOfMemory>
    requires fits { fits version frame.now ≡ true }
    ensures { OnOk result (out.new.items ≡ out.old.items ++ text version frame.now) }
{
    AnyCodec::new(version).encode(frame, out)
}

/// A window as it is written: version 1 has none.
fn written_window(version: Version, window: u32) -> Option<u64>
    ensures { result ≡ written_window version window }
{
    match version {
        Version::One => None,
        Version::Two | Version::Three => Some(u64::from(window)),
    }
}

#[tactic(auto, using(crate::proofs::Fits::frames_fit))]
pub fn push_offer(
    alloc: Global,
    version: Version,
    key: ChannelKey,
    name: &Text,
    window: u32,
    out: &mut Vec<u8>,
) -> Result<(), OutOfMemory>
    requires id { fits_id version key.id ≡ true }
    requires short { length name.now ≤ longest_name }
    ensures { OnOk result (out.new.items ≡ out.old.items ++ frame_text version (frame_on key (Offer name.now (written_window version window)))) }
{
    let name = Text::from_str(alloc, name.as_str())?;
    let payload = Payload::Offer(name, written_window(version, window));
    push_frame(version, &frame(version, key, Code::Offer, payload), out)
}

#[tactic(auto, using(crate::proofs::Fits::frames_fit))]
pub fn push_accepted(
    version: Version,
    key: ChannelKey,
    window: u32,
    out: &mut Vec<u8>,
) -> Result<(), OutOfMemory>
    requires id { fits_id version key.id ≡ true }
    ensures { OnOk result (out.new.items ≡ out.old.items ++ frame_text version (frame_on key (OfferAccepted (written_window version window)))) }
{
    let payload = Payload::Accepted(written_window(version, window));
    push_frame(
        version,
        &frame(version, key, Code::OfferAccepted, payload),
        out,
    )
}

#[tactic(auto, using(crate::proofs::Fits::frames_fit))]
pub fn push_processed(
    version: Version,
    key: ChannelKey,
    count: u64,
    out: &mut Vec<u8>,
) -> Result<(), OutOfMemory>
    requires id { fits_id version key.id ≡ true }
    requires windows { is_one version ≡ false }
    requires count { count < COUNT_LIMIT }
    ensures { OnOk result (out.new.items ≡ out.old.items ++ frame_text version (frame_on key (ContentProcessed count))) }
{
    let payload = Payload::Processed(count);
    push_frame(
        version,
        &frame(version, key, Code::ContentProcessed, payload),
        out,
    )
}

#[tactic(auto, using(crate::proofs::Fits::frames_fit))]
pub fn push_content(
    alloc: Global,
    version: Version,
    key: ChannelKey,
    piece: &[u8],
    out: &mut Vec<u8>,
) -> Result<(), OutOfMemory>
    requires id { fits_id version key.id ≡ true }
    requires short { length piece.now ≤ piece_size }
    ensures { OnOk result (out.new.items ≡ out.old.items ++ frame_text version (frame_on key (Content piece.now))) }
{
    let payload = Payload::Content(Blob::from_bytes(alloc, piece)?);
    push_frame(version, &frame(version, key, Code::Content, payload), out)
}

#[tactic(auto, using(crate::proofs::Fits::frames_fit))]
pub fn push_completed(
    version: Version,
    key: ChannelKey,
    out: &mut Vec<u8>,
) -> Result<(), OutOfMemory>
    requires { fits_id version key.id ≡ true }
    ensures { OnOk result (out.new.items ≡ out.old.items ++ frame_text version (frame_on key ContentWritingCompleted)) }
{
    let frame = frame(
        version,
        key,
        Code::ContentWritingCompleted,
        Payload::Nothing,
    );
    push_frame(version, &frame, out)
}

#[tactic(auto, using(crate::proofs::Fits::frames_fit))]
pub fn push_terminated(
    version: Version,
    key: ChannelKey,
    out: &mut Vec<u8>,
) -> Result<(), OutOfMemory>
    requires { fits_id version key.id ≡ true }
    ensures { OnOk result (out.new.items ≡ out.old.items ++ frame_text version (frame_on key ChannelTerminated)) }
{
    let frame = frame(version, key, Code::ChannelTerminated, Payload::Nothing);
    push_frame(version, &frame, out)
}
