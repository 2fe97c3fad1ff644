//! Channels as both ends name them.

use duo_world::{ChannelKey, Side};

/// A channel, the side that offered it, and the windows of its offer and of its acceptance, which is 0 until then.
#[derive(Clone, Copy)]
pub struct Channel {
    pub offerer: Side,
    pub id: u64,
    pub offered: u32,
    pub accepted: u32,
}

impl Channel {
    /// The channel as a side names it.
    pub fn key_at(&self, side: Side) -> ChannelKey {
        ChannelKey {
            id: self.id,
            own: side == self.offerer,
        }
    }

    /// The own window of a side.
    pub fn window_at(&self, side: Side) -> u32 {
        if side == self.offerer {
            self.offered
        } else {
            self.accepted
        }
    }
}
