//! The offers of an end.

ghost use Rattle.frame_text.specs.Frames.{fits_id};
ghost use Rattle.mux_end.specs.Keeps.{room_test};
ghost use Rattle.mux_end.specs.Known.{Leaves};
ghost use Rattle.mux_items.specs.Bodies.{frame_texts};
ghost use Rattle.mux_items.specs.Items.{DidOffer};
ghost use Rattle.mux_items.specs.Limits.{greatest_window, longest_name, most_offers};
ghost use Rattle.mux_state.specs.Book.{drawn_key, due_of_book, next_book, offer_test, own_count};
ghost use Rattle.std.specs.Prelude.{◌≡◌, ◌≤◌, ◌<◌, ◌++◌, Err, IfOk, None, OnOk, length, true};
ghost use Rattle.wire_base.specs.declared.refusal.Refusal.{Refusal};

use crate::book::ChannelBook;
use crate::frames::push_offer;
use crate::known::KnownChannel;
use crate::party::own_id;
use channel_credit::{Channel, is_bad_window};
use mux_items::{ChannelKey, LONGEST_NAME, MOST_CHANNELS, MOST_OFFERS, MOST_WINDOWS};
use wire_base::{CallFault, OutOfMemory, Refusal, Text};

impl ChannelBook {
    /// Why an offer with this window is refused by the number and the windows of channels, if it is.
    fn room_refusal(&self, window: u32) -> Option<Refusal>
        ensures test { result ≡ room_test window self.now }
        ensures offers { result ≡ None → own_count self.now < most_offers }
    {
        if self.channels.kept_count() >= MOST_CHANNELS {
            Some(Refusal::TooManyChannels)
        } else if MOST_WINDOWS < self.channels.windows() + u64::from(window) {
            Some(Refusal::WindowsSpent)
        } else if self.channels.own_count() as u64 >= MOST_OFFERS {
            Some(Refusal::TooManyOffers)
        } else {
            None
        }
    }

    fn offer_refusal(&self, name: &Text, window: u32) -> Option<Refusal>
        ensures test { result ≡ offer_test name.now window self.now }
        ensures offers { result ≡ None → own_count self.now < most_offers }
        ensures short { result ≡ None → length name.now ≤ longest_name }
        ensures window { result ≡ None → window ≤ greatest_window }
    {
        if let Some(cause) = self.cause {
            Some(Refusal::Ended(cause))
        } else if !self.is_ready() {
            Some(Refusal::NotReady)
        } else if LONGEST_NAME < name.as_str().len() {
            Some(Refusal::NameTooLong)
        } else if is_bad_window(window) {
            Some(Refusal::BadWindow)
        } else {
            self.room_refusal(window)
        }
    }

    /// The channel that the next own offer draws.
    fn next_key(&self) -> ChannelKey
        requires { own_count self.now < most_offers }
        ensures key { result ≡ drawn_key self.now }
        ensures fits { fits_id self.now.version result.id ≡ true }
    {
        let offers = self.channels.own_count() as u64;
        ChannelKey {
            id: own_id(self.party(), offers + 1),
            own: true,
        }
    }

    fn add_offer(
        &mut self,
        key: ChannelKey,
        name: &Text,
        window: u32,
        out: &mut Vec<u8>,
    ) -> Result<(), OutOfMemory>
        requires fits { fits_id self.old.version key.id ≡ true }
        requires short { length name.now ≤ longest_name }
        requires window { window ≤ greatest_window }
        ensures state { OnOk result (self.new ≡ next_book (DidOffer key name.now window) self.old) }
        ensures output { OnOk result (out.new.items ≡ out.old.items ++ frame_texts self.old.version (due_of_book (DidOffer key name.now window) self.old)) }
        ensures one_version { self.new.version ≡ self.old.version }
        ensures one_party { self.new.party ≡ self.old.party }
    {
        push_offer(self.alloc, self.version, key, name, window, out)?;
        let channel = Channel::offered(self.alloc, self.version, window);
        self.channels.insert(KnownChannel::new(key, channel))
    }

    pub fn offer(
        &mut self,
        name: &Text,
        window: u32,
        out: &mut Vec<u8>,
    ) -> Result<ChannelKey, CallFault>
        ensures leaves { Leaves (offer_test name.now window self.old) self.old (next_book (DidOffer (drawn_key self.old) name.now window) self.old) self.new result }
        ensures key { IfOk result (λ key. key ≡ drawn_key self.old) }
        ensures output { OnOk result (out.new.items ≡ out.old.items ++ frame_texts self.old.version (due_of_book (DidOffer (drawn_key self.old) name.now window) self.old)) }
        ensures unwritten { (refusal : Refusal) → result ≡ Err (CallFault.Refused refusal) → out.new.items ≡ out.old.items }
        ensures one_version { self.new.version ≡ self.old.version }
        ensures one_party { self.new.party ≡ self.old.party }
    {
        if let Some(refusal) = self.offer_refusal(name, window) {
            return Err(CallFault::Refused(refusal));
        }
        let key = self.next_key();
        match self.add_offer(key, name, window, out) {
            Ok(()) => Ok(key),
            Err(_) => Err(CallFault::OutOfMemory),
        }
    }
}
