//! The handshakes of versions 1 and 2.

use crate::fronts::Front;
use crate::rows::{are_same, tells, tells_once};
use mux_handshake::hello;
use row_text::bytes;
use std::alloc::Global;
use std::process::Abort;
use std::test::Fail;
use wire_base::Version;

const ZEROS: &str = "00*16";

const ONES: &str = "01*16";

/// Nonces that differ first in their second byte, 7f against 80; in all later bytes the other one is greater.
const LOW: &str = "557f ff*14";

const HIGH: &str = "5580 00*14";

fn nonce(alloc: Global, words: &str) -> Result<[u8; 16], Fail> {
    let bytes = bytes(alloc, words)?;
    Ok(*bytes.first_chunk::<16>().ok_or("no nonce")?)
}

/// The handshake of the peer, as a row, with its party and size.
fn row_of(alloc: Global, spelling: &str, peer: &str, party: &str) -> Result<String, Fail> {
    let size = spelling.len() / 2 + 16;
    Ok(format!(in alloc; "{spelling} {peer} | 94 | {party} {size}")?)
}

/// The handshake is read when its last byte is in and not before, whatever stands behind it.
fn is_read(
    rt: &impl Abort,
    alloc: Global,
    version: Version,
    spelling: &str,
    (own, peer, party): (&str, &str, &str),
) -> Result<(), Fail> {
    let front = Front::Handshake(version, nonce(alloc, own)?);
    let row = row_of(alloc, spelling, peer, party)?;
    tells_once(rt, alloc, &front, row.as_str())
}

/// The end with the greater nonce is odd.
fn parts(
    rt: &impl Abort,
    alloc: Global,
    version: Version,
    spelling: &str,
    (less, greater): (&str, &str),
) -> Result<(), Fail> {
    is_read(rt, alloc, version, spelling, (less, greater, "Even"))?;
    is_read(rt, alloc, version, spelling, (greater, less, "Odd"))
}

/// What stands before the nonce, in each width.
#[test]
fn reads_every_width(rt: HostRuntime) -> Result<(), Fail> {
    let spellings = "
        92920200c410
        92920207c410
        929202cf7fffffffffffffffc410
        9292d002d37fffffffffffffffc410
        dc0002dc0002cc02cd0000c50010
        dd00000002dd00000002cf0000000000000002cf7fffffffffffffffc600000010
        dd00000002dd00000002d30000000000000002d30000000000000000c600000010";
    for spelling in spellings.split_whitespace() {
        parts(&rt, rt.alloc(), Version::Two, spelling, (ZEROS, ONES))?;
    }
    parts(&rt, rt.alloc(), Version::One, "2fdf1d50", (ZEROS, ONES))
}

/// An end with this nonce answers so to each front as soon as it is in, whatever stands behind it, and not before.
fn answers(
    rt: &impl Abort,
    alloc: Global,
    version: Version,
    own: &str,
    rows: &str,
) -> Result<(), Fail> {
    let front = Front::Handshake(version, nonce(alloc, own)?);
    tells(rt, alloc, &front, rows)
}

#[test]
fn refuses_the_first_token(rt: HostRuntime) -> Result<(), Fail> {
    let packed = "
        c1                       | 00   | 0 Unused
        ca                       | 00   | 0 Float
        d8                       | 00   | 0 Ext
        91                       | 02   | 0 BadShape2
        93                       | 02   | 0 BadShape2
        02                       | 00   | 0 BadShape2
        de                       | 00   | 0 BadShape2
        dc0003                   | 00   | 0 BadShape2
        dd00010002               | 00   | 0 BadShape2
        92c1                     | 00   | 1 Unused
        9202                     |      | 1 BadShape2
        92c4                     | 10   | 1 BadShape2
        9293                     | 02   | 1 BadShape2
        92dd00000001             | 00   | 1 BadShape2
        9292cb                   | 00   | 2 Float
        9292c7                   | 00   | 2 Ext
        929201                   | 00   | 2 BadVersion
        929203                   | 00   | 2 BadVersion
        9292fe                   | 00   | 2 BadVersion
        9292cd0102               | 00   | 2 BadVersion
        9292cf8000000000000002   | 00   | 2 BadVersion
        9292d3fffffffffffffffe   | 00   | 2 BadVersion
        9292c0                   | 00   | 2 BadShape2
        9292d9                   | 02   | 2 BadShape2
        929202c1                 | 00   | 3 Unused
        929202ff                 | 00   | 3 BadShape2
        929202a0                 | 00   | 3 BadShape2
        929202cf8000000000000000 | c4   | 3 BadShape2
        92920200ca               | 00   | 4 Float
        92920200c40f             | 00   | 4 BadShape2
        92920200c50011           | 0000 | 4 BadShape2
        92920200d9               | 1000 | 4 BadShape2
        92920200c410 01*16       | 94   | 6 SameNonce";
    answers(&rt, rt.alloc(), Version::Two, ONES, packed)?;
    let plain = "
        30                       | df   | 0 BadMagic
        2f1d                     |      | 1 BadMagic
        2fdf1c                   | 50   | 2 BadMagic
        2fdf1dc1                 | 00   | 3 BadMagic
        2fdf1d50 01*16           | 00   | 4 SameNonce";
    answers(&rt, rt.alloc(), Version::One, ONES, plain)
}

#[test]
fn version_3_has_no_handshake(rt: HostRuntime) -> Result<(), Fail> {
    answers(&rt, rt.alloc(), Version::Three, ONES, "| c1 | Neither 0")
}

/// What is written behind a byte.
fn greeted(alloc: Global, version: Version, nonce: &[u8; 16]) -> Result<Vec<u8>, Fail> {
    let mut output = bytes(alloc, "94")?;
    hello(version, nonce, &mut output)?;
    Ok(output)
}

/// An end with this nonce writes the spelling and the nonce.
fn is_written(
    rt: &impl Abort,
    alloc: Global,
    version: Version,
    (spelling, own): (&str, &str),
) -> Result<(), Fail> {
    let wanted = format!(in alloc; "94 {spelling} {own}")?;
    let wanted = bytes(alloc, wanted.as_str())?;
    let output = greeted(alloc, version, &nonce(alloc, own)?)?;
    are_same(rt, output.as_slice(), wanted.as_slice());
    Ok(())
}

/// What an end of this version writes, another one reads.
fn is_greeted(
    rt: &impl Abort,
    alloc: Global,
    version: Version,
    spelling: &str,
) -> Result<(), Fail> {
    is_written(rt, alloc, version, (spelling, ZEROS))?;
    is_written(rt, alloc, version, (spelling, LOW))?;
    parts(rt, alloc, version, spelling, (ZEROS, ONES))?;
    parts(rt, alloc, version, spelling, (LOW, HIGH))
}

#[test]
fn the_greater_nonce_is_odd(rt: HostRuntime) -> Result<(), Fail> {
    is_greeted(&rt, rt.alloc(), Version::One, "2fdf1d50")?;
    is_greeted(&rt, rt.alloc(), Version::Two, "92920200c410")
}
