//! Whose a channel is.

ghost use Rattle.mux_items.specs.Bodies.{has_parity, is_own, key_of, same_key};
ghost use Rattle.mux_items.specs.Kept.{own_id};
ghost use Rattle.mux_items.specs.Limits.{most_offers};
ghost use Rattle.mux_items.specs.Views.{precedes};
ghost use Rattle.std.specs.Prelude.{◌≡◌, ◌≤◌, ◌<◌};
ghost use Rattle.wire_base.specs.declared.limits.TheConstants.{PLAIN_ID_LIMIT};

use mux_items::{ChannelKey, Party};
use wire_base::{Frame, Origin};

/// Whether an id is one of this party's own.
fn has_parity(party: Party, id: u64) -> bool
    ensures { result ≡ has_parity party id }
{
    match party {
        Party::Odd => id % 2 == 1,
        Party::Even => id % 2 == 0,
        Party::Neither => false,
    }
}

/// Whether the end of this party that takes a frame made the offer of its channel.
fn is_own(party: Party, frame: &Frame) -> bool
    ensures { result ≡ is_own party frame.now.origin frame.now.id }
{
    match frame.origin {
        Origin::Sender => false,
        Origin::Receiver => true,
        Origin::ByParity => has_parity(party, frame.id),
    }
}

/// The channel that a frame names, as the end of this party that takes it names it.
pub fn key_of(party: Party, frame: &Frame) -> ChannelKey
    ensures { result ≡ key_of party frame.now }
{
    ChannelKey {
        id: frame.id,
        own: is_own(party, frame),
    }
}

/// The id of the k-th offer of an end of this party.
pub fn own_id(party: Party, k: u64) -> u64
    requires first { 1 ≤ k }
    requires last { k ≤ most_offers }
    ensures id { result ≡ own_id party k }
    ensures least { 0 < result }
    ensures most { result < PLAIN_ID_LIMIT }
{
    match party {
        Party::Odd => 2 * k - 1,
        Party::Even => 2 * k,
        Party::Neither => k,
    }
}

/// Whether two keys name one channel.
pub fn same_key(a: ChannelKey, b: ChannelKey) -> bool
    ensures { result ≡ same_key a b }
{
    a.id == b.id && a.own == b.own
}

/// Whether a channel stands before another: own ones before the peer's, each side's by rising id.
pub fn precedes(a: ChannelKey, b: ChannelKey) -> bool
    ensures { result ≡ precedes a b }
{
    if a.own == b.own { a.id < b.id } else { a.own }
}
