//! The frames that come on the channels of an end.

ghost use Rattle.frame_text.specs.Frames.{fits, fits_id};
ghost use Rattle.mux_end.specs.Heeded.{IsInRange};
ghost use Rattle.mux_end.specs.Keeps.{event_by, heard_book, heard_event, heard_frames, item_in, later_book, later_in, offer_in};
ghost use Rattle.mux_end.specs.Known.{Takes, frames_after};
ghost use Rattle.mux_items.specs.Bodies.{ChannelTerminated, body_of, frame_on, frame_texts};
ghost use Rattle.mux_state.specs.Book.{due_of_book, event_found, found, frame_in, next_book};
ghost use Rattle.std.specs.Prelude.{◌≡◌, ◌<◌, ◌++◌, ◌∷◌, [], ℕ, Err, IfOk, OnOk, true};
ghost use Rattle.wire_base.specs.declared.limits.TheConstants.{COUNT_LIMIT};
ghost use Rattle.wire_base.specs.declared.reason.Reason.{Reason};

use crate::book::ChannelBook;
use crate::frames::push_terminated;
use crate::known::KnownChannel;
use channel_credit::{Channel, TakeFault};
use mux_items::{ABSENT_WINDOW, ChannelKey, MOST_CHANNELS, MuxEvent};
use wire_base::{Frame, OutOfMemory, Payload, Reason};

impl ChannelBook {
    /// A frame comes on the channel that it names.
    pub fn take(
        &mut self,
        key: ChannelKey,
        frame: &Frame,
        out: &mut Vec<u8>,
    ) -> Result<MuxEvent, TakeFault>
        requires fits { fits self.old.version frame.now ≡ true }
        requires id { key.id ≡ frame.now.id }
        ensures takes { (place : ℕ) → Takes (frame_in key (body_of frame.now.code frame.now.payload) self.old) self.old (next_book (item_in place key (body_of frame.now.code frame.now.payload) self.old) self.old) self.new result }
        ensures event { IfOk result (λ event. event ≡ event_by key (body_of frame.now.code frame.now.payload) self.old) }
        ensures output { (place : ℕ) → OnOk result (out.new.items ≡ out.old.items ++ frame_texts self.old.version (due_of_book (item_in place key (body_of frame.now.code frame.now.payload) self.old) self.old)) }
        ensures unwritten { (reason : Reason) → result ≡ Err (TakeFault.Refused reason) → out.new.items ≡ out.old.items }
        ensures one_version { self.new.version ≡ self.old.version }
        ensures one_party { self.new.party ≡ self.old.party }
    {
        match &frame.payload {
            Payload::Offer(_, window) => {
                self.take_offer(key, window.unwrap_or(ABSENT_WINDOW), out)
            }
            _ => self.take_later(key, frame, out),
        }
    }

    /// The peer offers a channel. It is rejected where no more channels are kept.
    fn take_offer(
        &mut self,
        key: ChannelKey,
        peer_window: u64,
        out: &mut Vec<u8>,
    ) -> Result<MuxEvent, TakeFault>
        requires fits { fits_id self.old.version key.id ≡ true }
        requires window { peer_window < COUNT_LIMIT }
        ensures takes { Takes (offer_in key self.old) self.old (heard_book key peer_window self.old) self.new result }
        ensures event { IfOk result (λ event. event ≡ heard_event key self.old) }
        ensures output { OnOk result (out.new.items ≡ out.old.items ++ frame_texts self.old.version (heard_frames key self.old)) }
        ensures unwritten { (reason : Reason) → result ≡ Err (TakeFault.Refused reason) → out.new.items ≡ out.old.items }
        ensures one_version { self.new.version ≡ self.old.version }
        ensures one_party { self.new.party ≡ self.old.party }
    {
        if key.own {
            return Err(TakeFault::Refused(Reason::WrongSide));
        }
        if self.has_offer(key) {
            return Err(TakeFault::Refused(Reason::IdInUse));
        }
        match self.hear(key, peer_window, out) {
            Ok(event) => Ok(event),
            Err(_) => Err(TakeFault::OutOfMemory),
        }
    }

    /// No more channels are kept: this one is terminated and remembered.
    fn reject(&mut self, key: ChannelKey, out: &mut Vec<u8>) -> Result<(), OutOfMemory>
        requires { fits_id self.old.version key.id ≡ true }
        ensures state { OnOk result (self.new ≡ record self.old { rejected = self.old.rejected ++ key ∷ [] }) }
        ensures output { OnOk result (out.new.items ≡ out.old.items ++ frame_texts self.old.version (frame_on key ChannelTerminated ∷ [])) }
        ensures one_version { self.new.version ≡ self.old.version }
        ensures one_party { self.new.party ≡ self.old.party }
    {
        push_terminated(self.version, key, out)?;
        self.rejected.push(key)?;
        Ok(())
    }

    fn hear(
        &mut self,
        key: ChannelKey,
        peer_window: u64,
        out: &mut Vec<u8>,
    ) -> Result<MuxEvent, OutOfMemory>
        requires fits { fits_id self.old.version key.id ≡ true }
        requires window { peer_window < COUNT_LIMIT }
        ensures state { OnOk result (self.new ≡ heard_book key peer_window self.old) }
        ensures event { IfOk result (λ event. event ≡ heard_event key self.old) }
        ensures output { OnOk result (out.new.items ≡ out.old.items ++ frame_texts self.old.version (heard_frames key self.old)) }
        ensures one_version { self.new.version ≡ self.old.version }
        ensures one_party { self.new.party ≡ self.old.party }
    {
        if self.channels.kept_count() >= MOST_CHANNELS {
            self.reject(key, out)?;
            return Ok(MuxEvent::Rejected(key));
        }
        let channel = Channel::heard(self.alloc, self.version, peer_window);
        self.channels.insert(KnownChannel::new(key, channel))?;
        Ok(MuxEvent::Offered(key))
    }

    /// A frame that isn't an offer comes.
    fn take_later(
        &mut self,
        key: ChannelKey,
        frame: &Frame,
        out: &mut Vec<u8>,
    ) -> Result<MuxEvent, TakeFault>
        requires { IsInRange (body_of frame.now.code frame.now.payload) }
        ensures takes { Takes (later_in key (body_of frame.now.code frame.now.payload) self.old) self.old (later_book key (body_of frame.now.code frame.now.payload) self.old) self.new result }
        ensures event { IfOk result (λ event. event ≡ event_found key (body_of frame.now.code frame.now.payload) (found key self.old)) }
        ensures output { OnOk result (out.new.items ≡ out.old.items ++ frame_texts self.old.version (frames_after key (body_of frame.now.code frame.now.payload) (found key self.old))) }
        ensures unwritten { (reason : Reason) → result ≡ Err (TakeFault.Refused reason) → out.new.items ≡ out.old.items }
        ensures one_version { self.new.version ≡ self.old.version }
        ensures one_party { self.new.party ≡ self.old.party }
    {
        if self.has_offer(key) {
            self.channels
                .take(self.alloc, self.version, key, frame, out)
        } else {
            Err(TakeFault::Refused(Reason::NoChannel))
        }
    }
}
