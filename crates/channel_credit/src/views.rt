//! What a channel shows of itself.

ghost use Rattle.std.specs.Prelude.{◌≡◌, ◌≤◌, ◌-◌, ◌&&◌, length, not, Some, None, if◌then◌else◌};
ghost use Rattle.mux_items.specs.Bodies.{is_one};
ghost use Rattle.mux_items.specs.Limits.{greatest_window};
ghost use Rattle.mux_state.specs.Tests.{phase_in, stays_kept, tally_in, view_in};

use crate::channel::Channel;
use mux_items::{ChannelView, Phase, Tally};

impl Channel {
    pub fn phase(&self) -> Phase
        ensures { result ≡ phase_in self.now }
    {
        if self.termination_sent && self.peer_terminated {
            Phase::Closed
        } else if self.termination_sent {
            Phase::Closing
        } else if self.accepted {
            Phase::Live
        } else if self.own {
            Phase::Waiting
        } else {
            Phase::Heard
        }
    }

    pub fn unread(&self) -> usize
        ensures { result ≡ length self.now.unread }
    {
        self.incoming.unread.len()
    }

    pub fn pending(&self) -> usize
        ensures { result ≡ length self.now.pending }
    {
        self.outgoing.pending.len()
    }

    pub fn emitted(&self) -> u64
        ensures { result ≡ self.now.emitted }
    {
        self.outgoing.emitted
    }

    /// How many bytes may be emitted in all.
    pub fn granted(&self) -> Option<u64>
        ensures { result ≡ (if is_one self.now.version then None else Some self.now.granted) }
    {
        if self.has_windows() {
            Some(self.outgoing.granted)
        } else {
            None
        }
    }

    /// Whether the peer has completed its writing.
    pub fn completed(&self) -> bool
        ensures { result ≡ self.now.completed }
    {
        self.incoming.completed
    }

    /// The own window.
    pub fn window(&self) -> u32
        ensures window { result ≡ self.now.window }
        ensures within { result ≤ greatest_window }
    {
        self.incoming.window
    }

    /// How many more bytes the own window takes.
    pub fn spare(&self) -> usize
        ensures { result ≡ self.now.window - length self.now.unread }
    {
        (self.incoming.window as usize).saturating_sub(self.incoming.unread.len())
    }

    /// Whether the own termination was written.
    pub fn has_terminated(&self) -> bool
        ensures { result ≡ self.now.termination_sent }
    {
        self.termination_sent
    }

    pub fn is_terminated_by_peer(&self) -> bool
        ensures { result ≡ self.now.peer_terminated }
    {
        self.peer_terminated
    }

    /// Whether a read of some bytes is acknowledged while the end runs.
    pub fn acknowledges(&self) -> bool
        ensures { result ≡ (not (is_one self.now.version) && (not self.now.termination_sent && self.now.accepted)) }
    {
        self.has_windows() && !self.termination_sent && self.accepted
    }

    /// Whether the channel isn't closed or has unread bytes.
    pub fn stays_kept(&self) -> bool
        ensures { result ≡ stays_kept self.now }
    {
        !(self.termination_sent && self.peer_terminated) || self.incoming.unread.len() > 0
    }

    pub fn view(&self) -> ChannelView
        ensures { result ≡ view_in self.now }
    {
        ChannelView {
            phase: self.phase(),
            unread: self.unread(),
            pending: self.pending(),
            emitted: self.emitted(),
            granted: self.granted(),
            completed: self.completed(),
        }
    }

    pub fn tally(&self) -> Tally
        ensures { result ≡ tally_in self.now }
    {
        Tally {
            phase: self.phase(),
            written: self.outgoing.written,
            emitted: self.outgoing.emitted,
            taken: self.incoming.taken,
            handed: self.incoming.handed,
        }
    }
}
