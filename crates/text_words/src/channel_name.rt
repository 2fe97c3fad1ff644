//! Channels by the side that offered them.

ghost use Rattle.std.specs.Prelude.{◌≡◌};
ghost use Rattle.text_words.specs.Written.{other_side};

use mux_items::ChannelKey;
use mux_run::Side;

/// A channel as texts name it: by the side that offered it, and its id.
#[derive(Clone, Copy, Debug, PartialEq, Eq)]
pub struct ChannelName {
    pub offering: Side,
    pub id: u64,
}

impl ChannelName {
    ghost use Rattle.text_words.specs.Written.{key_at, name_at};

    /// The name of a channel of an end of this side.
    pub fn of(side: Side, key: ChannelKey) -> ChannelName
        ensures { result ≡ name_at side key }
    {
        let offering = if key.own { side } else { other_side(side) };
        ChannelName {
            offering,
            id: key.id,
        }
    }

    /// The channel at an end of this side.
    pub fn key(&self, side: Side) -> ChannelKey
        ensures { result ≡ key_at side self.now }
    {
        let own = self.offering == side;
        ChannelKey { id: self.id, own }
    }
}

pub fn other_side(side: Side) -> Side
    ensures { result ≡ other_side side }
{
    match side {
        Side::A => Side::B,
        Side::B => Side::A,
    }
}
