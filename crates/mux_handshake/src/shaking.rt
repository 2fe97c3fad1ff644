//! The peer's handshake, read.

ghost use Rattle.wire_base.specs.Tokens.{Says, field_at, only};
ghost use Rattle.mux_handshake.specs.Handshake.{handshake, handshake_at, major_at, nonce_at, packed_at, plain_at};
ghost use Rattle.mux_handshake.specs.Shaking.{Shakes};
ghost use Rattle.mux_items.specs.Parties.{party_by};
ghost use Rattle.std.specs.Int.{w8};
ghost use Rattle.std.specs.Prelude.{◌≡◌};
ghost use Rattle.wire_base.specs.declared.reason.Reason.TheVariants.{BadMagic};

use crate::shaken::Shaken;
use mux_items::{NONCE_SIZE, Party};
use wire_base::{Fault, Place, Reason, Version, array_of, bin_of, breaks, count, number};

/// The side with the greater nonce is Odd.
#[tactic(auto, using(crate::proofs::Greater::greater))]
fn party(own: &[u8; NONCE_SIZE], peer: &[u8; NONCE_SIZE]) -> Party
    ensures { result ≡ party_by own.now peer.now }
{
    if own > peer { Party::Odd } else { Party::Even }
}

/// The peer's nonce, which tells the own party.
#[tactic(auto, unfolding(crate::specs::Handshake::nonce_at, wire_base::specs::Tokens::bytes_at))]
fn nonce<'a>(own: &[u8; NONCE_SIZE], bytes: &'a [u8]) -> Result<(Party, &'a [u8]), Fault>
    ensures { Says (λ x. (x.0, x.1.now)) result (nonce_at own.now bytes.now) }
{
    let Some((peer, rest)) = bytes.split_first_chunk::<NONCE_SIZE>() else {
        return Err(Fault::Ends);
    };
    if own == peer {
        return Err(breaks(bytes, Reason::SameNonce));
    }
    Ok((party(own, peer), rest))
}

/// The bytes after the first, which must be this byte.
#[tactic(auto, unfolding(wire_base::specs::Tokens::field_at))]
fn magic(byte: u8, bytes: &[u8]) -> Result<&[u8], Fault>
    ensures { Says (λ rest. (byte, rest.now)) result (field_at w8 (only byte) BadMagic bytes.now) }
{
    match bytes {
        [] => Err(Fault::Ends),
        [first, rest @ ..] if *first == byte => Ok(rest),
        _ => Err(breaks(bytes, Reason::BadMagic)),
    }
}

#[tactic(auto, unfolding(crate::specs::Handshake::plain_at))]
fn plain<'a>(own: &[u8; NONCE_SIZE], bytes: &'a [u8]) -> Result<(Party, &'a [u8]), Fault>
    ensures { Says (λ x. (x.0, x.1.now)) result (plain_at own.now bytes.now) }
{
    let rest = magic(0x2f, bytes)?;
    let rest = magic(0xdf, rest)?;
    let rest = magic(0x1d, rest)?;
    let rest = magic(0x50, rest)?;
    nonce(own, rest)
}

/// The bytes after the major number, which must be 2.
#[tactic(auto, unfolding(crate::specs::Handshake::major_at))]
fn major(bytes: &[u8]) -> Result<&[u8], Fault>
    ensures { Says (λ rest. (2, rest.now)) result (major_at bytes.now) }
{
    let (major, rest) = number(Reason::BadShape2, bytes)?;
    if major == 2 {
        Ok(rest)
    } else {
        Err(breaks(bytes, Reason::BadVersion))
    }
}

#[tactic(auto, unfolding(crate::specs::Handshake::packed_at))]
fn packed<'a>(own: &[u8; NONCE_SIZE], bytes: &'a [u8]) -> Result<(Party, &'a [u8]), Fault>
    ensures { Says (λ x. (x.0, x.1.now)) result (packed_at own.now bytes.now) }
{
    let (_, rest) = array_of(2, Reason::BadShape2, bytes)?;
    let (_, rest) = array_of(2, Reason::BadShape2, rest)?;
    let rest = major(rest)?;
    let (_, rest) = count(Reason::BadShape2, rest)?;
    let (_, rest) = bin_of(NONCE_SIZE as u32, Reason::BadShape2, rest)?;
    nonce(own, rest)
}

fn reading<'a>(
    version: Version,
    own: &[u8; NONCE_SIZE],
    bytes: &'a [u8],
) -> Result<(Party, &'a [u8]), Fault>
    ensures { Says (λ x. (x.0, x.1.now)) result (handshake_at version own.now bytes.now) }
{
    match version {
        Version::One => plain(own, bytes),
        Version::Two => packed(own, bytes),
        Version::Three => Ok((Party::Neither, bytes)),
    }
}

/// Reads the peer's handshake from the front of all bytes that it sent, at an end with this nonce. In version 3 there
/// is none, so that it is done at once. It takes no memory.
#[tactic(auto, using(crate::proofs::Stopping::stops), unfolding(crate::specs::Handshake::handshake))]
pub fn shake(version: Version, own: &[u8; NONCE_SIZE], input: &[u8]) -> Shaken
    ensures { Shakes result input.now (handshake version own.now input.now) }
{
    match reading(version, own, input) {
        Ok((party, rest)) => Shaken::Done(party, input.len() - rest.len()),
        Err(Fault::Ends) => Shaken::Short,
        Err(Fault::Breaks(left, reason)) => {
            Shaken::Refused(Place((input.len() - left) as u64), reason)
        }
    }
}
