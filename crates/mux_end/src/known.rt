//! A channel in the list of an end.

ghost use Rattle.frame_text.specs.Frames.{fits_id};
ghost use Rattle.mux_end.specs.ChannelCalls.{called_frames, called_state, made_state, own_frame, test_of};
ghost use Rattle.mux_end.specs.Heeded.{IsInRange};
ghost use Rattle.mux_end.specs.Known.{IsOf, Leaves, Takes, count_in, frames_after, frames_in, heeds, unread_in};
ghost use Rattle.mux_items.specs.Bodies.{body_of, frame_texts, same_key};
ghost use Rattle.mux_items.specs.Items.{DidAccept, DidRead};
ghost use Rattle.mux_items.specs.Limits.{greatest_window};
ghost use Rattle.mux_state.specs.Book.{changed_entry, due_found, entry_at, event_found, frame_on_found, is_kept_standing, kept_in, kept_window, tally_found};
ghost use Rattle.mux_state.specs.Next.{ended_state, next_state, read_state, settled};
ghost use Rattle.mux_state.specs.Tests.{accept_test, on_kept, read_test, view_on};
ghost use Rattle.std.specs.Prelude.{◌≡◌, ◌≤◌, ◌++◌, Bool, Err, IfOk, None, OnOk, Some, take, true};
ghost use Rattle.wire_base.specs.declared.frame.Version.{Version};
ghost use Rattle.wire_base.specs.declared.reason.Reason.{Reason};
ghost use Rattle.wire_base.specs.declared.refusal.Refusal.{Refusal};

use crate::channel_call::ChannelCall;
use crate::emission::emit_due;
use crate::frames::{push_accepted, push_processed, push_terminated};
use crate::heeding::{event_on, heed};
use crate::party::same_key;
use channel_credit::{Channel, TakeFault};
use mux_items::{ChannelKey, ChannelView, MuxEvent, Tally};
use std::alloc::Global;
use std::marker::Model;
use wire_base::{CallFault, Frame, OutOfMemory, Refusal, Version};

/// Where a channel stands in the list.
#[derive(Drop)]
enum Standing {
    Kept(Channel),
    /// What came of a channel that isn't kept any more.
    Gone(Tally),
}

/// A channel that was offered and not rejected.
#[derive(Drop)]
pub struct KnownChannel {
    key: ChannelKey,
    standing: Standing,
}

impl Model for KnownChannel {
    ghost use Rattle.mux_end.specs.Known.{entry_in};
    ghost use Rattle.mux_state.specs.Book.{Entry};

    ghost Value = { Entry };

    ghost view = { λ k. entry_in k.key k.standing };
}

/// Makes a call on a kept channel, and writes the frame of the call itself.
fn make(
    version: Version,
    key: ChannelKey,
    channel: &mut Channel,
    call: ChannelCall<'_>,
    out: &mut Vec<u8>,
) -> Result<(), CallFault>
    requires { fits_id version key.id ≡ true }
    ensures leaves { Leaves (test_of call.entry channel.old) channel.old (made_state call.entry channel.old) channel.new result }
    ensures output { OnOk result (out.new.items ≡ out.old.items ++ frame_texts version (own_frame key call.entry)) }
    ensures unwritten { (refusal : Refusal) → result ≡ Err (CallFault.Refused refusal) → out.new.items ≡ out.old.items }
    ensures one_version { channel.new.version ≡ channel.old.version }
{
    match call {
        ChannelCall::Write(bytes) => channel.write(bytes),
        ChannelCall::Complete => channel.complete(),
        ChannelCall::Terminate => {
            channel.terminate()?;
            push_terminated(version, key, out).map_err(|_| CallFault::OutOfMemory)
        }
    }
}

impl KnownChannel {
    /// A channel that was just offered.
    pub fn new(key: ChannelKey, channel: Channel) -> KnownChannel
        ensures { result ≡ entry_at key channel }
    {
        KnownChannel {
            key,
            standing: Standing::Kept(channel),
        }
    }

    pub fn key(&self) -> ChannelKey
        ensures { result ≡ self.now.key }
    {
        self.key
    }

    pub fn has_key(&self, key: ChannelKey) -> bool
        ensures { result ≡ same_key key self.now.key }
    {
        same_key(key, self.key)
    }

    pub fn is_kept(&self) -> bool
        ensures { result ≡ is_kept_standing self.now.standing }
    {
        match self.standing {
            Standing::Kept(_) => true,
            Standing::Gone(_) => false,
        }
    }

    /// The own window, where the channel is kept.
    pub fn window(&self) -> u32
        ensures window { result ≡ kept_window self.now.standing }
        ensures within { result ≤ greatest_window }
    {
        match &self.standing {
            Standing::Kept(channel) => channel.window(),
            Standing::Gone(_) => 0,
        }
    }

    pub fn view(&self) -> Option<ChannelView>
        ensures { result ≡ view_on (kept_in (Some self.now.standing)) }
    {
        match &self.standing {
            Standing::Kept(channel) => Some(channel.view()),
            Standing::Gone(_) => None,
        }
    }

    pub fn tally(&self) -> Tally
        ensures { Some result ≡ tally_found (Some self.now.standing) }
    {
        match &self.standing {
            Standing::Kept(channel) => channel.tally(),
            Standing::Gone(tally) => *tally,
        }
    }

    /// Accepts the peer's offer, where the own windows of kept channels are `windows` together.
    pub fn accept(
        &mut self,
        alloc: Global,
        version: Version,
        windows: u64,
        window: u32,
        out: &mut Vec<u8>,
    ) -> Result<(), CallFault>
        requires { IsOf version self.old }
        ensures leaves { Leaves (on_kept (kept_in (Some self.old.standing)) (accept_test windows window)) self.old (changed_entry (next_state (DidAccept self.old.key window)) self.old) self.new result }
        ensures output { (running : Bool) → OnOk result (out.new.items ≡ out.old.items ++ frame_texts version (due_found self.old.key running (DidAccept self.old.key window) (Some self.old.standing))) }
        ensures unwritten { (refusal : Refusal) → result ≡ Err (CallFault.Refused refusal) → out.new.items ≡ out.old.items }
        ensures stays { IsOf version self.new }
    {
        let Standing::Kept(channel) = &mut self.standing else {
            return Err(CallFault::Refused(Refusal::NoChannel));
        };
        if let Some(refusal) = channel.accept_refusal(windows, window) {
            return Err(CallFault::Refused(refusal));
        }
        channel.accept(window)?;
        push_accepted(version, self.key, window, out).map_err(|_| CallFault::OutOfMemory)?;
        self.finish(alloc, version, out)
    }

    pub fn call(
        &mut self,
        alloc: Global,
        version: Version,
        call: ChannelCall<'_>,
        out: &mut Vec<u8>,
    ) -> Result<(), CallFault>
        requires { IsOf version self.old }
        ensures leaves { Leaves (on_kept (kept_in (Some self.old.standing)) (test_of call.entry)) self.old (changed_entry (called_state call.entry) self.old) self.new result }
        ensures output { OnOk result (out.new.items ≡ out.old.items ++ frame_texts version (called_frames self.old.key call.entry (Some self.old.standing))) }
        ensures unwritten { (refusal : Refusal) → result ≡ Err (CallFault.Refused refusal) → out.new.items ≡ out.old.items }
        ensures stays { IsOf version self.new }
    {
        let Standing::Kept(channel) = &mut self.standing else {
            return Err(CallFault::Refused(Refusal::NoChannel));
        };
        match make(version, self.key, channel, call, out) {
            Ok(()) => self.finish(alloc, version, out),
            Err(fault) => Err(fault),
        }
    }

    /// Moves at most `max` unread bytes to the end of `into`, and writes how many they are, where that is to be told.
    pub fn read(
        &mut self,
        version: Version,
        running: bool,
        max: usize,
        into: &mut Vec<u8>,
        out: &mut Vec<u8>,
    ) -> Result<usize, CallFault>
        requires { IsOf version self.old }
        ensures leaves { Leaves (on_kept (kept_in (Some self.old.standing)) read_test) self.old (changed_entry (read_state max) self.old) self.new result }
        ensures count { IfOk result (λ n. n ≡ count_in max self.old.standing) }
        ensures bytes { OnOk result (into.new.items ≡ into.old.items ++ take max (unread_in self.old.standing)) }
        ensures refused { (refusal : Refusal) → result ≡ Err (CallFault.Refused refusal) → into.new.items ≡ into.old.items }
        ensures output { OnOk result (out.new.items ≡ out.old.items ++ frame_texts version (due_found self.old.key running (DidRead self.old.key max) (Some self.old.standing))) }
        ensures unwritten { (refusal : Refusal) → result ≡ Err (CallFault.Refused refusal) → out.new.items ≡ out.old.items }
        ensures stays { IsOf version self.new }
    {
        let Standing::Kept(channel) = &mut self.standing else {
            return Err(CallFault::Refused(Refusal::NoChannel));
        };
        let count = channel.read(max, into)?;
        if count > 0 && running && channel.acknowledges() {
            push_processed(version, self.key, count as u64, out).map_err(
                |_| CallFault::OutOfMemory,
            )?;
        }
        self.retire();
        Ok(count)
    }

    /// Takes a frame that isn't an offer.
    pub fn take(
        &mut self,
        alloc: Global,
        version: Version,
        frame: &Frame,
        out: &mut Vec<u8>,
    ) -> Result<MuxEvent, TakeFault>
        requires of { IsOf version self.old }
        requires in_range { IsInRange (body_of frame.now.code frame.now.payload) }
        ensures takes { Takes (frame_on_found (body_of frame.now.code frame.now.payload) (Some self.old.standing)) self.old (changed_entry (heeds (body_of frame.now.code frame.now.payload)) self.old) self.new result }
        ensures event { IfOk result (λ event. event ≡ event_found self.old.key (body_of frame.now.code frame.now.payload) (Some self.old.standing)) }
        ensures output { OnOk result (out.new.items ≡ out.old.items ++ frame_texts version (frames_after self.old.key (body_of frame.now.code frame.now.payload) (Some self.old.standing))) }
        ensures unwritten { (reason : Reason) → result ≡ Err (TakeFault.Refused reason) → out.new.items ≡ out.old.items }
        ensures stays { IsOf version self.new }
    {
        let Standing::Kept(channel) = &mut self.standing else {
            return Ok(MuxEvent::Ignored(self.key));
        };
        let event = event_on(self.key, channel, frame);
        match heed(channel, frame) {
            Ok(()) => match self.settle(alloc, version, out) {
                Ok(()) => Ok(event),
                Err(_) => Err(TakeFault::OutOfMemory),
            },
            Err(fault) => Err(fault),
        }
    }

    /// Writes all frames that are due. A channel that is closed then, with nothing unread, isn't kept any more.
    fn settle(
        &mut self,
        alloc: Global,
        version: Version,
        out: &mut Vec<u8>,
    ) -> Result<(), OutOfMemory>
        requires { IsOf version self.old }
        ensures state { OnOk result (self.new ≡ changed_entry settled self.old) }
        ensures output { OnOk result (out.new.items ≡ out.old.items ++ frame_texts version (frames_in self.old.key self.old.standing)) }
        ensures stays { IsOf version self.new }
    {
        if let Standing::Kept(channel) = &mut self.standing {
            emit_due(alloc, version, self.key, channel, out)?;
        }
        self.retire();
        Ok(())
    }

    /// The same at the end of a call.
    fn finish(
        &mut self,
        alloc: Global,
        version: Version,
        out: &mut Vec<u8>,
    ) -> Result<(), CallFault>
        requires { IsOf version self.old }
        ensures leaves { Leaves None self.old (changed_entry settled self.old) self.new result }
        ensures output { OnOk result (out.new.items ≡ out.old.items ++ frame_texts version (frames_in self.old.key self.old.standing)) }
        ensures stays { IsOf version self.new }
    {
        match self.settle(alloc, version, out) {
            Ok(()) => Ok(()),
            Err(_) => Err(CallFault::OutOfMemory),
        }
    }

    /// The end has ended.
    pub fn on_end(&mut self)
        ensures { self.new ≡ changed_entry ended_state self.old }
    {
        if let Standing::Kept(channel) = &mut self.standing {
            channel.on_end();
        }
        self.retire();
    }

    /// A channel that is closed, with nothing unread, isn't kept any more.
    fn retire(&mut self)
        ensures state { self.new ≡ changed_entry (λ s. s) self.old }
        ensures stays { (v : Version) → IsOf v self.old → IsOf v self.new }
    {
        if let Standing::Kept(channel) = &self.standing
            && !channel.stays_kept()
        {
            self.standing = Standing::Gone(channel.tally());
        }
    }
}
