//! Framed messages as they are written.

ghost use Rattle.std.specs.Prelude.{◌≡◌, ◌+◌, ◌<◌, ◌≤◌, ◌^◌, ◌++◌, codes, length, OnOk, OnErr};
ghost use Rattle.message_framing.specs.Lines.{line_end};
ghost use Rattle.message_framing.specs.Wrapped.{wrapped};
ghost use Rattle.wire_base.specs.declared.limits.TheConstants.{MAX_BODY};

use crate::framing::Framing;
use wire_base::OutOfMemory;

/// Appends a length of so many digits, and what stands before and behind it.
fn push_digits(digits: &[u8], body: &[u8], out: &mut Vec<u8>) -> Result<(), OutOfMemory>
    requires { length digits.now + length body.now < 2 ^ 32 }
    ensures ok { OnOk result (out.new.items ≡ out.old.items ++ (codes "Content-Length: " ++ (digits.now ++ (line_end ++ line_end)) ++ body.now)) }
    ensures err { OnErr result (out.new.items ≡ out.old.items) }
{
    out.reserve(CONTENT_LENGTH.len() + digits.len() + BLOCK_END.len() + body.len())?;
    out.extend_from_slice(CONTENT_LENGTH)?;
    out.extend_from_slice(digits)?;
    out.extend_from_slice(BLOCK_END)?;
    out.extend_from_slice(body)?;
    Ok(())
}

fn push_both(front: &[u8; 4], body: &[u8], out: &mut Vec<u8>) -> Result<(), OutOfMemory>
    requires { length body.now < 2 ^ 32 }
    ensures ok { OnOk result (out.new.items ≡ out.old.items ++ (front.now ++ body.now)) }
    ensures err { OnErr result (out.new.items ≡ out.old.items) }
{
    out.reserve(front.len() + body.len())?;
    out.extend_from_slice(front)?;
    out.extend_from_slice(body)?;
    Ok(())
}

/// Appends a body with its head.
#[tactic(auto, unfolding(crate::specs::Wrapped::head_text))]
pub fn wrap(framing: Framing, body: &[u8], out: &mut Vec<u8>) -> Result<(), OutOfMemory>
    requires some { 0 < length body.now }
    requires most { length body.now ≤ MAX_BODY }
    ensures ok { OnOk result (out.new.items ≡ out.old.items ++ wrapped framing body.now) }
    ensures err { OnErr result (out.new.items ≡ out.old.items) }
{
    let len = body.len() as u32;
    match framing {
        Framing::Header => push_digits(itoa::Buffer::new().format(len).as_bytes(), body, out),
        Framing::Length => push_both(&len.to_be_bytes(), body, out),
    }
}

const CONTENT_LENGTH: &[u8] = b"Content-Length: ";

const BLOCK_END: &[u8] = b"\r\n\r\n";
