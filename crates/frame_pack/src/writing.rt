//! Shortest spellings, written.

ghost use Rattle.frame_pack.specs.Parts.{front_text};
ghost use Rattle.frame_text.specs.Codec.{is_packed};
ghost use Rattle.frame_text.specs.Frames.{fits, origin_text, payload_text, str_text, text};
ghost use Rattle.std.specs.Prelude.{◌≡◌, ◌<◌, ◌^◌, ◌++◌, length, true, OnOk, OnErr};
ghost use Rattle.wire_base.specs.Appends.{AppendsFront};

use crate::fits::payload_len;
use crate::reading::least_elements;
use wire_base::{
    Frame, Origin, OutOfMemory, Payload, Text, Version, push_array_head, push_bin_head,
    push_str_head, push_unsigned,
};

#[tactic(auto, using(wire_base::proofs::AppendsLemmas::appends))]
fn push_origin(origin: Origin, out: &mut Vec<u8>) -> Result<(), OutOfMemory>
    ensures ok { OnOk result (out.new.items ≡ out.old.items ++ origin_text origin) }
    ensures err { OnErr result (AppendsFront out.old.items out.new.items (origin_text origin)) }
{
    match origin {
        Origin::Sender => out.push(0x01)?,
        Origin::Receiver => out.push(0xff)?,
        Origin::ByParity => {}
    }
    Ok(())
}

#[tactic(auto, using(wire_base::proofs::AppendsLemmas::appends))]
fn push_str(text: &Text, out: &mut Vec<u8>) -> Result<(), OutOfMemory>
    requires { length text.now < 2 ^ 32 }
    ensures ok { OnOk result (out.new.items ≡ out.old.items ++ str_text text.now) }
    ensures err { OnErr result (AppendsFront out.old.items out.new.items (str_text text.now)) }
{
    let bytes = text.as_str().as_bytes();
    push_str_head(out, bytes.len() as u32)?;
    out.extend_from_slice(bytes)?;
    Ok(())
}

#[tactic(auto, using(wire_base::proofs::AppendsLemmas::appends))]
fn push_payload(payload: &Payload, out: &mut Vec<u8>) -> Result<(), OutOfMemory>
    requires { length (payload_text payload.now) < 2 ^ 32 }
    ensures ok { OnOk result (out.new.items ≡ out.old.items ++ payload_text payload.now) }
    ensures err { OnErr result (AppendsFront out.old.items out.new.items (payload_text payload.now)) }
{
    match payload {
        Payload::Offer(name, None) => {
            push_array_head(out, 1)?;
            push_str(name, out)
        }
        Payload::Offer(name, Some(window)) => {
            push_array_head(out, 2)?;
            push_str(name, out)?;
            push_unsigned(out, *window)
        }
        Payload::Accepted(None) => push_array_head(out, 0),
        Payload::Accepted(Some(window)) => {
            push_array_head(out, 1)?;
            push_unsigned(out, *window)
        }
        Payload::Content(bytes) => {
            out.extend_from_slice(bytes.as_bytes())?;
            Ok(())
        }
        Payload::Nothing => Ok(()),
        Payload::Processed(count) => {
            push_array_head(out, 1)?;
            push_unsigned(out, *count)
        }
    }
}

/// All of a frame but its payload.
#[tactic(auto, using(wire_base::proofs::AppendsLemmas::appends))]
fn push_front(elements: u32, frame: &Frame, out: &mut Vec<u8>) -> Result<(), OutOfMemory>
    ensures ok { OnOk result (out.new.items ≡ out.old.items ++ front_text elements frame.now) }
    ensures err { OnErr result (AppendsFront out.old.items out.new.items (front_text elements frame.now)) }
{
    push_array_head(out, elements)?;
    push_unsigned(out, frame.code.number().into())?;
    push_unsigned(out, frame.id)?;
    push_origin(frame.origin, out)?;
    Ok(())
}

/// The shortest spelling of a frame of version 2 or 3.
#[tactic(auto, using(crate::proofs::FrameTexts::writing))]
pub fn push_frame(version: Version, frame: &Frame, out: &mut Vec<u8>) -> Result<(), OutOfMemory>
    requires packed { is_packed version ≡ true }
    requires fits { fits version frame.now ≡ true }
    ensures ok { OnOk result (out.new.items ≡ out.old.items ++ text version frame.now) }
    ensures err { OnErr result (AppendsFront out.old.items out.new.items (text version frame.now)) }
{
    let elements = least_elements(version);
    let len = payload_len(&frame.payload);
    if len == 0 {
        return push_front(elements, frame, out);
    }
    push_front(elements + 1, frame, out)?;
    push_bin_head(out, len as u32)?;
    push_payload(&frame.payload, out)
}
