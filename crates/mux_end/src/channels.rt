//! The channels of an end, in their order.

ghost use Rattle.mux_end.specs.ChannelCalls.{called_frames, called_state, test_of};
ghost use Rattle.mux_end.specs.Heeded.{IsInRange};
ghost use Rattle.mux_end.specs.Known.{IsOf, Leaves, Takes, count_found, frames_after, heeds, unread_found};
ghost use Rattle.mux_items.specs.Bodies.{body_of, frame_texts, same_key};
ghost use Rattle.mux_items.specs.Items.{DidAccept, DidRead};
ghost use Rattle.mux_items.specs.Limits.{most_windows};
ghost use Rattle.mux_state.specs.Book.{change_at, changed_entry, due_found, event_found, find, frame_on_found, insert_entry, is_found, is_kept_standing, kept_in, kept_window, tally_found};
ghost use Rattle.mux_state.specs.Next.{ended_state, next_state};
ghost use Rattle.mux_state.specs.Tests.{accept_test, on_kept, read_test, view_on};
ghost use Rattle.std.specs.List.{position};
ghost use Rattle.std.specs.Prelude.{◌≡◌, ◌+◌, ◌++◌, [], All, Bool, Some, None, Err, MatchOption, OnOk, OnErr, IfOk, filter, length, map, min, slice_get, sum_by, take};
ghost use Rattle.wire_base.specs.declared.frame.Version.{Version};
ghost use Rattle.wire_base.specs.declared.reason.Reason.{Reason};
ghost use Rattle.wire_base.specs.declared.refusal.Refusal.{Refusal};

use crate::channel_call::ChannelCall;
use crate::known::KnownChannel;
use crate::party::precedes;
use channel_credit::TakeFault;
use mux_items::{ChannelKey, ChannelView, MOST_WINDOWS, MuxEvent, Tally};
use std::alloc::Global;
use std::marker::Model;
use wire_base::{CallFault, Frame, OutOfMemory, Refusal, Version};

/// The channels that were offered and not rejected: own ones by rising id, then the peer's.
#[derive(Drop)]
pub struct Channels {
    list: Vec<KnownChannel>,
}

impl Model for Channels {
    ghost use Rattle.mux_state.specs.Book.{Entry};
    ghost use Rattle.std.specs.Prelude.{List};

    ghost Value = { List Entry };

    ghost view = { λ c. c.list.items };
}

impl Channels {
    pub fn new(alloc: Global) -> Channels
        ensures { result ≡ [] }
    {
        Channels {
            list: Vec::new(alloc),
        }
    }

    fn place_of(&self, key: ChannelKey) -> Option<usize>
        ensures { result ≡ position (λ entry. same_key key entry.key) self.now }
    {
        self.list.iter().position(|known| known.has_key(key))
    }

    fn get(&self, key: ChannelKey) -> Option<&KnownChannel>
        ensures { MatchOption result (find key self.now ≡ None) (λ known. find key self.now ≡ Some known.now.standing) }
    {
        for known in &self.list {
            if known.has_key(key) {
                return Some(known);
            }
        }
        None
    }

    pub fn contains(&self, key: ChannelKey) -> bool
        ensures { result ≡ is_found (find key self.now) }
    {
        self.get(key).is_some()
    }

    pub fn view(&self, key: ChannelKey) -> Option<ChannelView>
        ensures { result ≡ view_on (kept_in (find key self.now)) }
    {
        match self.get(key) {
            Some(known) => known.view(),
            None => None,
        }
    }

    pub fn tally(&self, key: ChannelKey) -> Option<Tally>
        ensures { result ≡ tally_found (find key self.now) }
    {
        match self.get(key) {
            Some(known) => Some(known.tally()),
            None => None,
        }
    }

    /// The i-th channel, from 0.
    pub fn known(&self, i: usize) -> Option<ChannelKey>
        ensures { result ≡ slice_get (map (λ entry. entry.key) self.now) i }
    {
        match self.list.get(i) {
            Some(known) => Some(known.key()),
            None => None,
        }
    }

    pub fn kept_count(&self) -> usize
        ensures { result ≡ length (filter (λ entry. is_kept_standing entry.standing) self.now) }
    {
        self.list.iter().filter(|known| known.is_kept()).count()
    }

    pub fn own_count(&self) -> usize
        ensures { result ≡ length (filter (λ entry. entry.key.own) self.now) }
    {
        self.list.iter().filter(|known| known.key().own).count()
    }

    /// The own windows of kept channels together, or one more than the most where they are more.
    pub fn windows(&self) -> u64
        ensures { result ≡ min (most_windows + 1) (sum_by (λ entry. kept_window entry.standing) self.now) }
    {
        let mut total = 0;
        for known in &self.list {
            total = (total + u64::from(known.window())).min(MOST_WINDOWS + 1);
        }
        total
    }

    /// A channel takes its place among the others.
    pub fn insert(&mut self, known: KnownChannel) -> Result<(), OutOfMemory>
        ensures ok { OnOk result (self.new ≡ insert_entry known self.old) }
        ensures err { OnErr result (self.new ≡ self.old) }
        ensures stays { (v : Version) → All (IsOf v) self.old → IsOf v known → All (IsOf v) self.new }
    {
        let key = known.key();
        let mut place = 0;
        while place < self.list.len() && precedes(self.list[place].key(), key) {
            place += 1;
        }
        self.list.insert(place, known)?;
        Ok(())
    }

    /// Accepts the peer's offer.
    pub fn accept(
        &mut self,
        alloc: Global,
        version: Version,
        key: ChannelKey,
        window: u32,
        out: &mut Vec<u8>,
    ) -> Result<(), CallFault>
        requires { All (IsOf version) self.old }
        ensures leaves { Leaves (on_kept (kept_in (find key self.old)) (accept_test (sum_by (λ entry. kept_window entry.standing) self.old) window)) self.old (change_at key (next_state (DidAccept key window)) self.old) self.new result }
        ensures output { (running : Bool) → OnOk result (out.new.items ≡ out.old.items ++ frame_texts version (due_found key running (DidAccept key window) (find key self.old))) }
        ensures unwritten { (refusal : Refusal) → result ≡ Err (CallFault.Refused refusal) → out.new.items ≡ out.old.items }
        ensures stays { All (IsOf version) self.new }
    {
        let windows = self.windows();
        match self.place_of(key) {
            Some(place) => self.list[place].accept(alloc, version, windows, window, out),
            None => Err(CallFault::Refused(Refusal::NoChannel)),
        }
    }

    pub fn call(
        &mut self,
        alloc: Global,
        version: Version,
        key: ChannelKey,
        call: ChannelCall<'_>,
        out: &mut Vec<u8>,
    ) -> Result<(), CallFault>
        requires { All (IsOf version) self.old }
        ensures leaves { Leaves (on_kept (kept_in (find key self.old)) (test_of call.entry)) self.old (change_at key (called_state call.entry) self.old) self.new result }
        ensures output { OnOk result (out.new.items ≡ out.old.items ++ frame_texts version (called_frames key call.entry (find key self.old))) }
        ensures unwritten { (refusal : Refusal) → result ≡ Err (CallFault.Refused refusal) → out.new.items ≡ out.old.items }
        ensures stays { All (IsOf version) self.new }
    {
        match self.place_of(key) {
            Some(place) => self.list[place].call(alloc, version, call, out),
            None => Err(CallFault::Refused(Refusal::NoChannel)),
        }
    }

    /// Moves at most `max` unread bytes of a channel to the end of `into`.
    pub fn read(
        &mut self,
        version: Version,
        key: ChannelKey,
        running: bool,
        max: usize,
        into: &mut Vec<u8>,
        out: &mut Vec<u8>,
    ) -> Result<usize, CallFault>
        requires { All (IsOf version) self.old }
        ensures leaves { Leaves (on_kept (kept_in (find key self.old)) read_test) self.old (change_at key (next_state (DidRead key max)) self.old) self.new result }
        ensures count { IfOk result (λ n. n ≡ count_found max (find key self.old)) }
        ensures bytes { OnOk result (into.new.items ≡ into.old.items ++ take max (unread_found (find key self.old))) }
        ensures refused { (refusal : Refusal) → result ≡ Err (CallFault.Refused refusal) → into.new.items ≡ into.old.items }
        ensures output { OnOk result (out.new.items ≡ out.old.items ++ frame_texts version (due_found key running (DidRead key max) (find key self.old))) }
        ensures unwritten { (refusal : Refusal) → result ≡ Err (CallFault.Refused refusal) → out.new.items ≡ out.old.items }
        ensures stays { All (IsOf version) self.new }
    {
        match self.place_of(key) {
            Some(place) => self.list[place].read(version, running, max, into, out),
            None => Err(CallFault::Refused(Refusal::NoChannel)),
        }
    }

    /// Takes a frame that isn't an offer. One on a channel that isn't here is ignored.
    pub fn take(
        &mut self,
        alloc: Global,
        version: Version,
        key: ChannelKey,
        frame: &Frame,
        out: &mut Vec<u8>,
    ) -> Result<MuxEvent, TakeFault>
        requires of { All (IsOf version) self.old }
        requires in_range { IsInRange (body_of frame.now.code frame.now.payload) }
        ensures takes { Takes (frame_on_found (body_of frame.now.code frame.now.payload) (find key self.old)) self.old (change_at key (heeds (body_of frame.now.code frame.now.payload)) self.old) self.new result }
        ensures event { IfOk result (λ event. event ≡ event_found key (body_of frame.now.code frame.now.payload) (find key self.old)) }
        ensures output { OnOk result (out.new.items ≡ out.old.items ++ frame_texts version (frames_after key (body_of frame.now.code frame.now.payload) (find key self.old))) }
        ensures unwritten { (reason : Reason) → result ≡ Err (TakeFault.Refused reason) → out.new.items ≡ out.old.items }
        ensures stays { All (IsOf version) self.new }
    {
        match self.place_of(key) {
            Some(place) => self.list[place].take(alloc, version, frame, out),
            None => Ok(MuxEvent::Ignored(key)),
        }
    }

    /// The end has ended.
    pub fn on_end(&mut self)
        ensures { self.new ≡ map (changed_entry ended_state) self.old }
    {
        for known in self.list.iter_mut() {
            known.on_end();
        }
    }
}
