//! What an end keeps of all its channels.

mod calls;
mod frames;
mod offers;

ghost use Rattle.mux_items.specs.Bodies.{same_key};
ghost use Rattle.mux_items.specs.Items.{End, Hello, party_or_neither};
ghost use Rattle.mux_state.specs.Book.{empty_book, found, has_offer, is_ready_book, kept_in, known_in, next_book, tally_found};
ghost use Rattle.mux_state.specs.Tests.{view_on};
ghost use Rattle.std.specs.List.{list_any};
ghost use Rattle.std.specs.Prelude.{◌≡◌, slice_get};

use crate::channels::Channels;
use crate::party::same_key;
use mux_items::{ChannelKey, ChannelView, Party, Tally};
use std::alloc::Global;
use std::marker::Model;
use wire_base::{Cause, Version};

/// What an end keeps of all its channels.
#[derive(Drop)]
pub struct ChannelBook {
    alloc: Global,
    version: Version,
    /// The own party, once the peer's handshake is applied.
    party: Option<Party>,
    /// Why the end has ended, if it has.
    cause: Option<Cause>,
    channels: Channels,
    /// The channels whose offers were rejected.
    rejected: Vec<ChannelKey>,
}

impl Model for ChannelBook {
    ghost use Rattle.mux_end.specs.Known.{IsOf};
    ghost use Rattle.mux_state.specs.Book.{Book};
    ghost use Rattle.std.specs.Prelude.{All};

    ghost Value = { Book };

    ghost view = { λ b. record { version = b.version; party = b.party; cause = b.cause; entries = b.channels; rejected = b.rejected.items } };

    ghost invariant = { λ b. All (IsOf b.version) b.channels };
}

impl ChannelBook {
    /// An end without channels.
    pub fn new(alloc: Global, version: Version) -> ChannelBook
        ensures { result ≡ empty_book version }
    {
        ChannelBook {
            alloc,
            version,
            party: None,
            cause: None,
            channels: Channels::new(alloc),
            rejected: Vec::new(alloc),
        }
    }

    pub fn version(&self) -> Version
        ensures { result ≡ self.now.version }
    {
        self.version
    }

    /// Why the end has ended, if it has.
    pub fn cause(&self) -> Option<Cause>
        ensures { result ≡ self.now.cause }
    {
        self.cause
    }

    /// Which ids are the end's own.
    pub fn party(&self) -> Party
        ensures { result ≡ party_or_neither self.now.party }
    {
        self.party.unwrap_or(Party::Neither)
    }

    /// Whether the end may offer and take frames.
    pub fn is_ready(&self) -> bool
        ensures { result ≡ is_ready_book self.now }
    {
        self.version == Version::Three || self.party.is_some()
    }

    pub fn view(&self, key: ChannelKey) -> Option<ChannelView>
        ensures { result ≡ view_on (kept_in (found key self.now)) }
    {
        self.channels.view(key)
    }

    pub fn tally(&self, key: ChannelKey) -> Option<Tally>
        ensures { result ≡ tally_found (found key self.now) }
    {
        self.channels.tally(key)
    }

    pub fn known(&self, i: usize) -> Option<ChannelKey>
        ensures { result ≡ slice_get (known_in self.now) i }
    {
        self.channels.known(i)
    }

    /// The peer's handshake made the end this party.
    pub fn greet(&mut self, party: Party)
        ensures { self.new ≡ next_book (Hello party) self.old }
    {
        self.party = Some(party);
    }

    /// The end has ended.
    pub fn end(&mut self, cause: Cause)
        ensures { self.new ≡ next_book (End cause) self.old }
    {
        self.cause = Some(cause);
        self.channels.on_end();
    }

    fn is_rejected(&self, key: ChannelKey) -> bool
        ensures { result ≡ list_any (λ rejected. same_key rejected key) self.now.rejected }
    {
        self.rejected
            .iter()
            .any(|rejected| same_key(*rejected, key))
    }

    /// Whether a channel was offered by either side, a rejected offer included.
    fn has_offer(&self, key: ChannelKey) -> bool
        ensures { result ≡ has_offer key self.now }
    {
        self.channels.contains(key) || self.is_rejected(key)
    }
}
