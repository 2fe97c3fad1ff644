//! A channel, and what of it is due.

ghost use Rattle.wire_base.specs.declared.limits.TheConstants.{COUNT_LIMIT};
ghost use Rattle.std.specs.Prelude.{◌≡◌, ◌≤◌, ◌<◌, ◌++◌, ℕ, length, not, true, IfOk, OnErr, OnOk};
ghost use Rattle.mux_items.specs.Bodies.{is_one};
ghost use Rattle.mux_items.specs.Limits.{greatest_window};
ghost use Rattle.mux_state.specs.Emitting.{due_of, sent_bytes, sent_state};
ghost use Rattle.mux_state.specs.Next.{heard_state, is_done, offered_state, sendable};

use crate::incoming::Incoming;
use crate::outgoing::Outgoing;
use mux_items::PIECE_SIZE;
use mux_state::Due;
use std::alloc::Global;
use std::marker::Model;
use wire_base::{OutOfMemory, Version};

/// A channel of one end. What was emitted or handed over is forgotten, but for its number of bytes.
#[derive(Drop)]
pub struct Channel {
    pub(crate) version: Version,
    /// Whether this end made the offer.
    pub(crate) own: bool,
    pub(crate) accepted: bool,
    pub(crate) outgoing: Outgoing,
    pub(crate) incoming: Incoming,
    pub(crate) termination_sent: bool,
    pub(crate) peer_terminated: bool,
}

impl Model for Channel {
    ghost use Rattle.mux_state.specs.State.{ChannelState};

    ghost Value = { ChannelState };

    ghost use Rattle.channel_credit.specs.Parts.{state_in, IsSoundIn};

    ghost view = { state_in };

    ghost invariant = { IsSoundIn };
}

impl Channel {
    /// A channel that this end offers with a window of so many bytes.
    pub fn offered(alloc: Global, version: Version, window: u32) -> Channel
        requires { window ≤ greatest_window }
        ensures { result ≡ offered_state version window }
    {
        Channel {
            version,
            own: true,
            accepted: false,
            outgoing: Outgoing::new(alloc, 0),
            incoming: Incoming::new(alloc, window),
            termination_sent: false,
            peer_terminated: false,
        }
    }

    /// A channel that the peer offers with a window of so many bytes.
    pub fn heard(alloc: Global, version: Version, peer_window: u64) -> Channel
        requires { peer_window < COUNT_LIMIT }
        ensures { result ≡ heard_state version peer_window }
    {
        Channel {
            version,
            own: false,
            accepted: false,
            outgoing: Outgoing::new(alloc, peer_window),
            incoming: Incoming::new(alloc, 0),
            termination_sent: false,
            peer_terminated: false,
        }
    }

    /// Versions 2 and 3 count content against a window.
    pub(crate) fn has_windows(&self) -> bool
        ensures { result ≡ not (is_one self.now.version) }
    {
        match self.version {
            Version::One => false,
            Version::Two | Version::Three => true,
        }
    }

    /// How many of the pending bytes may go.
    fn sendable(&self) -> usize
        ensures count { result ≡ sendable self.now }
        ensures within { result ≤ length self.now.pending }
        ensures accepted { 0 < result → self.now.accepted ≡ true }
    {
        if !self.accepted {
            0
        } else if self.has_windows() {
            self.outgoing.within_credit()
        } else {
            self.outgoing.pending.len()
        }
    }

    /// Whether the completion is sent, at the latest by what is due.
    fn is_done(&self, count: usize) -> bool
        requires { count ≡ sendable self.now }
        ensures { result ≡ is_done self.now }
    {
        let goes_whole = self.outgoing.pending.len() == count;
        self.outgoing.completion_sent || (self.accepted && self.outgoing.completing && goes_whole)
    }

    /// The next frame to write.
    pub fn due(&self) -> Due
        ensures due { result ≡ due_of self.now }
        ensures within { (size : ℕ) → result ≡ Due.Content size → (size ≤ length self.now.pending) × (self.now.accepted ≡ true) }
    {
        let sendable = self.sendable();
        let done = self.is_done(sendable);
        if self.termination_sent {
            Due::Nothing
        } else if self.peer_terminated {
            Due::Terminated
        } else if 0 < sendable {
            Due::Content(PIECE_SIZE.min(sendable))
        } else if done && !self.outgoing.completion_sent {
            Due::Completed
        } else if done && self.incoming.completed {
            Due::Terminated
        } else {
            Due::Nothing
        }
    }

    /// Moves the content of the next frame to the end of `payload`, and counts the frame as written.
    pub fn emit(&mut self, payload: &mut Vec<u8>) -> Result<Due, OutOfMemory>
        ensures due { IfOk result (λ due. due ≡ due_of self.old) }
        ensures state { OnOk result (self.new ≡ sent_state (due_of self.old) self.old) }
        ensures bytes { OnOk result (payload.new.items ≡ payload.old.items ++ sent_bytes (due_of self.old) self.old) }
        ensures err { OnErr result (self.new ≡ self.old) }
        ensures kept { OnErr result (payload.new.items ≡ payload.old.items) }
    {
        let due = self.due();
        match due {
            Due::Content(size) => self.outgoing.emit(size, payload)?,
            Due::Completed => self.outgoing.completion_sent = true,
            Due::Terminated => self.termination_sent = true,
            Due::Nothing => (),
        }
        Ok(due)
    }
}
