//! The calls of an end.

ghost use Rattle.mux_end.specs.Replies.{CallAnswers, KeepsTerms, RefusesStopped};
ghost use Rattle.mux_end.specs.Stands.{MuxStands};
ghost use Rattle.mux_items.specs.Items.{DidAccept, DidComplete, DidOffer, DidRead, DidTerminate, DidWrite, Item};
ghost use Rattle.mux_items.specs.Kept.{next_key};
ghost use Rattle.mux_items.specs.Lists.{unread};
ghost use Rattle.mux_items.specs.Refusals.{accept_refusal, complete_refusal, offer_refusal, read_refusal, terminate_refusal, write_refusal};
ghost use Rattle.std.specs.Prelude.{◌≡◌, ◌++◌, Err, List, OnOk, length, min, take, ℕ};
ghost use Rattle.wire_base.specs.declared.refusal.Refusal.{Refusal};

use crate::channel_call::ChannelCall;
use crate::end::MuxEnd;
use mux_items::ChannelKey;
use wire_base::{CallFault, Refusal, Text};

impl MuxEnd {
    /// Offers a channel and answers its key. The window is how many unread bytes this end takes on it.
    pub fn offer(&mut self, name: &Text, window: u32) -> Result<ChannelKey, CallFault>
        ensures answers { (items : List Item) (at : ℕ) (rest : List ℕ) → MuxStands self.old items at rest →
            CallAnswers self.old self.new items at rest (offer_refusal self.old.version name.now window items)
            (DidOffer (next_key items) name.now window) (λ key. key ≡ next_key items) result }
        ensures stopped { RefusesStopped self.old self.new result }
        ensures terms { KeepsTerms self.old self.new }
    {
        if self.stopped {
            return Err(CallFault::Refused(Refusal::Stopped));
        }
        let offered = self.book.offer(name, window, &mut self.output);
        self.finish(offered)
    }

    /// Accepts a channel that the peer offered. The window is how many unread bytes this end takes on it.
    pub fn accept(&mut self, key: ChannelKey, window: u32) -> Result<(), CallFault>
        ensures answers { (items : List Item) (at : ℕ) (rest : List ℕ) → MuxStands self.old items at rest →
            CallAnswers self.old self.new items at rest (accept_refusal self.old.version key window items)
            (DidAccept key window) (λ _. Unit {0}) result }
        ensures stopped { RefusesStopped self.old self.new result }
        ensures terms { KeepsTerms self.old self.new }
    {
        if self.stopped {
            return Err(CallFault::Refused(Refusal::Stopped));
        }
        let accepted = self.book.accept(key, window, &mut self.output);
        self.finish(accepted)
    }

    /// Writes bytes on a channel. Those that the peer has no window for wait.
    pub fn write(&mut self, key: ChannelKey, bytes: &[u8]) -> Result<(), CallFault>
        ensures answers { (items : List Item) (at : ℕ) (rest : List ℕ) → MuxStands self.old items at rest →
            CallAnswers self.old self.new items at rest (write_refusal self.old.version key bytes.now items)
            (DidWrite key bytes.now) (λ _. Unit {0}) result }
        ensures stopped { RefusesStopped self.old self.new result }
        ensures terms { KeepsTerms self.old self.new }
    {
        if self.stopped {
            return Err(CallFault::Refused(Refusal::Stopped));
        }
        let written = self
            .book
            .call(key, ChannelCall::Write(bytes), &mut self.output);
        self.finish(written)
    }

    /// Moves at most `max` unread bytes of a channel to the end of `out`, and answers their number.
    pub fn read(
        &mut self,
        key: ChannelKey,
        max: usize,
        out: &mut Vec<u8>,
    ) -> Result<usize, CallFault>
        ensures answers { (items : List Item) (at : ℕ) (rest : List ℕ) → MuxStands self.old items at rest →
            CallAnswers self.old self.new items at rest (read_refusal self.old.version key items)
            (DidRead key max) (λ n. n ≡ min max (length (unread self.old.version key items))) result }
        ensures bytes { (items : List Item) (at : ℕ) (rest : List ℕ) → MuxStands self.old items at rest →
            OnOk result (out.new.items ≡ out.old.items ++ take max (unread self.old.version key items)) }
        ensures refused { (refusal : Refusal) → result ≡ Err (CallFault.Refused refusal) → out.new.items ≡ out.old.items }
        ensures stopped { RefusesStopped self.old self.new result }
        ensures terms { KeepsTerms self.old self.new }
    {
        if self.stopped {
            return Err(CallFault::Refused(Refusal::Stopped));
        }
        let moved = self.book.read(key, max, out, &mut self.output);
        self.finish(moved)
    }

    /// Completes writing on a channel. What was written goes before.
    pub fn complete(&mut self, key: ChannelKey) -> Result<(), CallFault>
        ensures answers { (items : List Item) (at : ℕ) (rest : List ℕ) → MuxStands self.old items at rest →
            CallAnswers self.old self.new items at rest (complete_refusal self.old.version key items)
            (DidComplete key) (λ _. Unit {0}) result }
        ensures stopped { RefusesStopped self.old self.new result }
        ensures terms { KeepsTerms self.old self.new }
    {
        if self.stopped {
            return Err(CallFault::Refused(Refusal::Stopped));
        }
        let completed = self.book.call(key, ChannelCall::Complete, &mut self.output);
        self.finish(completed)
    }

    /// Terminates a channel. What is pending or unread on it is dropped.
    pub fn terminate(&mut self, key: ChannelKey) -> Result<(), CallFault>
        ensures answers { (items : List Item) (at : ℕ) (rest : List ℕ) → MuxStands self.old items at rest →
            CallAnswers self.old self.new items at rest (terminate_refusal self.old.version key items)
            (DidTerminate key) (λ _. Unit {0}) result }
        ensures stopped { RefusesStopped self.old self.new result }
        ensures terms { KeepsTerms self.old self.new }
    {
        if self.stopped {
            return Err(CallFault::Refused(Refusal::Stopped));
        }
        let terminated = self
            .book
            .call(key, ChannelCall::Terminate, &mut self.output);
        self.finish(terminated)
    }
}
