//! Why a call or a frame of a channel is refused.

ghost use Rattle.std.specs.Prelude.{◌≡◌, ◌||◌, not, ℕ, List, length, None};
ghost use Rattle.mux_items.specs.Bodies.{Content};
ghost use Rattle.mux_items.specs.Refusals.{is_bad_window};
ghost use Rattle.mux_state.specs.Tests.{accept_test, accepting_test, comes_early, heeded_test, open_test, read_test, waits_here, write_test, writing_test};

use crate::channel::Channel;
use mux_items::{GREATEST_WINDOW, MOST_BYTES, MOST_WINDOWS};
use wire_base::{Reason, Refusal};

/// Whether a window may not be given.
pub fn is_bad_window(window: u32) -> bool
    ensures { result ≡ is_bad_window window }
{
    window < 1 || GREATEST_WINDOW < window
}

impl Channel {
    /// Whether the peer's offer isn't accepted here.
    fn waits_here(&self) -> bool
        ensures { result ≡ waits_here self.now }
    {
        !self.own && !self.accepted
    }

    /// Whether neither side has terminated the channel.
    fn is_open(&self) -> bool
        ensures { result ≡ not (self.now.termination_sent || self.now.peer_terminated) }
    {
        !(self.termination_sent || self.peer_terminated)
    }

    /// Why terminating is refused, if it is.
    pub fn terminate_refusal(&self) -> Option<Refusal>
        ensures { result ≡ open_test self.now }
    {
        if self.is_open() {
            None
        } else {
            Some(Refusal::NotOpen)
        }
    }

    /// Why completing is refused, if it is.
    pub fn complete_refusal(&self) -> Option<Refusal>
        ensures { result ≡ writing_test self.now }
    {
        if !self.is_open() {
            Some(Refusal::NotOpen)
        } else if self.waits_here() {
            Some(Refusal::NotAccepted)
        } else if self.outgoing.completing {
            Some(Refusal::WritingDone)
        } else {
            None
        }
    }

    /// Why writing so many bytes is refused, if it is.
    pub fn write_refusal(&self, bytes: &[u8]) -> Option<Refusal>
        ensures { result ≡ write_test bytes.now self.now }
    {
        let room = MOST_BYTES - self.outgoing.written;
        match self.complete_refusal() {
            None if room < bytes.len() as u64 => Some(Refusal::BytesSpent),
            refusal => refusal,
        }
    }

    /// Why reading is refused, if it is.
    pub fn read_refusal(&self) -> Option<Refusal>
        ensures { result ≡ read_test self.now }
    {
        if self.waits_here() {
            Some(Refusal::NotAccepted)
        } else {
            None
        }
    }

    /// Why accepting is refused by the channel itself, if it is.
    pub(crate) fn acceptance_refusal(&self) -> Option<Refusal>
        ensures { result ≡ accepting_test self.now }
    {
        if !self.is_open() {
            Some(Refusal::NotOpen)
        } else if self.accepted {
            Some(Refusal::AlreadyAccepted)
        } else {
            None
        }
    }

    /// Why accepting with this window is refused, if it is, where the own windows of kept channels are `windows` together.
    pub fn accept_refusal(&self, windows: u64, window: u32) -> Option<Refusal>
        ensures test { result ≡ accept_test windows window self.now }
        ensures open { result ≡ None → accepting_test self.now ≡ None }
    {
        if self.own {
            Some(Refusal::WrongSide)
        } else if let Some(refusal) = self.acceptance_refusal() {
            Some(refusal)
        } else if is_bad_window(window) {
            Some(Refusal::BadWindow)
        } else if MOST_WINDOWS < windows || MOST_WINDOWS - windows < u64::from(window) {
            Some(Refusal::WindowsSpent)
        } else {
            None
        }
    }

    /// Whether content or a completion comes before acceptance. In version 1 it may, where the peer made the offer.
    pub(crate) fn comes_early(&self) -> bool
        ensures { result ≡ comes_early self.now }
    {
        (self.own || self.has_windows()) && !self.accepted
    }

    /// Why so many bytes of content are refused, if they are.
    pub(crate) fn content_refusal(&self, count: usize) -> Option<Reason>
        ensures { (bytes : List ℕ) → count ≡ length bytes → result ≡ heeded_test (Content bytes) self.now }
    {
        if self.comes_early() {
            Some(Reason::NotAccepted)
        } else if self.incoming.completed {
            Some(Reason::ContentAfterCompletion)
        } else if self.has_windows() && self.incoming.is_above_window(count) {
            Some(Reason::WindowExceeded)
        } else {
            None
        }
    }
}
