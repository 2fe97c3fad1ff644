//! Two ends of version 2, which greet each other.

use crate::rows::a_life_of;
use std::alloc::Global;
use std::process::Abort;
use std::test::Fail;
use wire_base::Version;

/// A has the greater nonce.
const GREETINGS: &str = r"
    A delivers   | 22 [Happened(Mux(Ready))]                |;
    B delivers   | 22 [Happened(Mux(Ready))]                |;
    A offers a 8 | Made(ChannelKey { id: 1, own: true }) [] | \x93\x00\x01\xc4\x04\x92\xa1a\x08;";

/// Both have the same nonce.
const SAME_NONCES: &str = r"
    B delivers   | 22 [Ended(Refused(Place(6), SameNonce))]        |;
    B offers a 8 | Refused(Ended(Refused(Place(6), SameNonce))) [] |;";

const NONCE: [u8; 16] = *b"\x00\x01\x02\x03\x04\x05\x06\x07\x08\x09\x0a\x0b\x0c\x0d\x0e\x0f";

fn greets(rt: &impl Abort, alloc: Global, nonces: [[u8; 16]; 2], rows: &str) -> Result<(), Fail> {
    a_life_of(rt, alloc, Version::Two, nonces, &[rows])
}

#[test]
fn the_greater_nonce_offers_odd_ids(rt: HostRuntime) -> Result<(), Fail> {
    greets(&rt, rt.alloc(), [[1; 16], [0; 16]], GREETINGS)
}

#[test]
fn the_same_nonce_is_refused(rt: HostRuntime) -> Result<(), Fail> {
    greets(&rt, rt.alloc(), [NONCE, NONCE], SAME_NONCES)
}
