//! How an end or a connection stands.

use crate::place::Place;
use crate::reason::Reason;

/// Why an end or a connection has ended.
#[derive(Clone, Copy, Debug, PartialEq, Eq)]
pub enum Cause {
    /// The stream that is read has ended.
    InputEnded,
    /// The peer completed its writing on the channel.
    PeerCompleted,
    /// The channel was closed.
    ChannelClosed,
    /// More than 2^62 bytes would have been fed.
    Spent,
    /// Received bytes were refused at this place.
    Refused(Place, Reason),
}

/// How an end stands: running, ended, or stopped by want of memory.
#[derive(Clone, Copy, Debug, PartialEq, Eq)]
pub enum EndState {
    Running,
    Ended(Cause),
    Stopped,
}
