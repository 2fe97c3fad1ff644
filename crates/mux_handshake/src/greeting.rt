//! The own handshake.

ghost use Rattle.frame_text.specs.Hello.{hello};
ghost use Rattle.std.specs.Prelude.{◌≡◌, ◌++◌, OnOk, OnErr};

use mux_items::NONCE_SIZE;
use wire_base::{OutOfMemory, Version};

fn push_both(front: &[u8], nonce: &[u8; NONCE_SIZE], out: &mut Vec<u8>) -> Result<(), OutOfMemory>
    ensures ok { OnOk result (out.new.items ≡ out.old.items ++ (front.now ++ nonce.now)) }
    ensures err { OnErr result (out.new.items ≡ out.old.items) }
{
    out.reserve(front.len() + nonce.len())?;
    out.extend_from_slice(front)?;
    out.extend_from_slice(nonce)?;
    Ok(())
}

/// Writes the handshake of an end with this nonce at the end of `out`: in version 1 four bytes and the nonce, in
/// version 2 an array of the version's numbers and the nonce, in version 3 nothing.
pub fn hello(
    version: Version,
    nonce: &[u8; NONCE_SIZE],
    out: &mut Vec<u8>,
) -> Result<(), OutOfMemory>
    ensures ok { OnOk result (out.new.items ≡ out.old.items ++ hello version nonce.now) }
    ensures err { OnErr result (out.new.items ≡ out.old.items) }
{
    match version {
        Version::One => push_both(&[0x2f, 0xdf, 0x1d, 0x50], nonce, out),
        Version::Two => push_both(&[0x92, 0x92, 0x02, 0x00, 0xc4, 0x10], nonce, out),
        Version::Three => Ok(()),
    }
}
