//! Channels as the calls of an end name and show them.

/// A channel: its id, and whether this end made the offer.
#[derive(Clone, Copy, Debug, PartialEq, Eq)]
pub struct ChannelKey {
    pub id: u64,
    pub own: bool,
}

/// Where a channel stands at one end.
#[derive(Clone, Copy, Debug, PartialEq, Eq)]
pub enum Phase {
    /// Offered here, not accepted by the peer.
    Waiting,
    /// Offered by the peer, not accepted here.
    Heard,
    Live,
    /// Terminated here, not by the peer.
    Closing,
    /// Terminated by both.
    Closed,
}

/// What an applied handshake or frame was to its end. Counts are numbers of bytes.
#[derive(Clone, Copy, Debug, PartialEq, Eq)]
pub enum MuxEvent {
    Ready,
    Offered(ChannelKey),
    Rejected(ChannelKey),
    Accepted(ChannelKey),
    Content(ChannelKey, u32),
    Completed(ChannelKey),
    Closed(ChannelKey),
    Credit(ChannelKey, u64),
    Ignored(ChannelKey),
}

/// A kept channel: its unread and pending bytes, how many were emitted, how many may be, which is None in
/// version 1, and whether the peer has completed its writing.
#[derive(Clone, Copy, Debug, PartialEq, Eq)]
pub struct ChannelView {
    pub phase: Phase,
    pub unread: usize,
    pub pending: usize,
    pub emitted: u64,
    pub granted: Option<u64>,
    pub completed: bool,
}

/// What came of a channel so far, closed ones included, in numbers of bytes.
#[derive(Clone, Copy, Debug, PartialEq, Eq)]
pub struct Tally {
    pub phase: Phase,
    pub written: u64,
    pub emitted: u64,
    pub taken: u64,
    pub handed: u64,
}
