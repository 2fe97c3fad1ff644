//! Which frames have a spelling.

ghost use Rattle.frame_text.specs.Frames.{fits, fits_code, fits_id, fits_origin};
ghost use Rattle.std.specs.Prelude.{◌≡◌};

use crate::writing::payload_bytes;
use wire_base::{Code, Frame, MAX_PLAIN_PAYLOAD, Origin, PLAIN_ID_LIMIT, Payload, Version};

#[tactic(auto, using(crate::proofs::Names::names))]
fn fits_code(code: Code, payload: &Payload) -> bool
    ensures { result ≡ fits_code Version.One code payload.now }
{
    match payload {
        Payload::Offer(name, window) => {
            // A text is UTF-8.
            let _name = name.as_str();
            code == Code::Offer && window.is_none()
        }
        Payload::Accepted(window) => code == Code::OfferAccepted && window.is_none(),
        Payload::Content(_) => code == Code::Content,
        Payload::Nothing => {
            code == Code::ContentWritingCompleted || code == Code::ChannelTerminated
        }
        Payload::Processed(_) => false,
    }
}

fn fits_id(id: u64) -> bool
    ensures { result ≡ fits_id Version.One id }
{
    0 < id && id < PLAIN_ID_LIMIT
}

fn fits_origin(origin: Origin) -> bool
    ensures { result ≡ fits_origin Version.One origin }
{
    origin == Origin::ByParity
}

/// Whether a frame has a spelling.
pub fn fits(frame: &Frame) -> bool
    ensures { result ≡ fits Version.One frame.now }
{
    fits_code(frame.code, &frame.payload)
        && fits_id(frame.id)
        && fits_origin(frame.origin)
        && payload_bytes(&frame.payload).len() <= MAX_PLAIN_PAYLOAD as usize
}
