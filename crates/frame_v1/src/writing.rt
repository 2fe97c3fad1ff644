//! Shortest spellings, written.

ghost use Rattle.frame_text.specs.Frames.{code_number, fits, plain_payload, text};
ghost use Rattle.std.specs.Int.{w16, w32, to_be_bytes};
ghost use Rattle.std.specs.Prelude.{◌≡◌, ◌∷◌, ◌++◌, true, OnOk, OnErr};

use wire_base::{Code, Frame, OutOfMemory, Payload, Version};

/// A frame has so many bytes before its payload.
const HEADER_LEN: usize = 7;

/// A payload as it is written.
pub fn payload_bytes(payload: &Payload) -> &[u8]
    ensures { result.now ≡ plain_payload payload.now }
{
    match payload {
        Payload::Offer(name, _) => name.as_str().as_bytes(),
        Payload::Content(bytes) => bytes.as_bytes(),
        Payload::Accepted(_) | Payload::Nothing | Payload::Processed(_) => &[],
    }
}

/// All of a frame but its payload.
fn header(code: Code, id: u32, size: u16) -> [u8; HEADER_LEN]
    ensures { result ≡ code_number code ∷ to_be_bytes w32 id ++ to_be_bytes w16 size }
{
    let id = id.to_be_bytes();
    let size = size.to_be_bytes();
    [code.number(), id[0], id[1], id[2], id[3], size[0], size[1]]
}

#[tactic(auto, using(crate::proofs::FrameTexts::writing))]
pub fn push_frame(frame: &Frame, out: &mut Vec<u8>) -> Result<(), OutOfMemory>
    requires { fits Version.One frame.now ≡ true }
    ensures ok { OnOk result (out.new.items ≡ out.old.items ++ text Version.One frame.now) }
    ensures err { OnErr result (out.new.items ≡ out.old.items) }
{
    let payload = payload_bytes(&frame.payload);
    let header = header(frame.code, frame.id as u32, payload.len() as u16);
    let len = out.len();
    out.extend_from_slice(&header)?;
    if out.extend_from_slice(payload).is_err() {
        out.truncate(len);
        return Err(OutOfMemory);
    }
    Ok(())
}
