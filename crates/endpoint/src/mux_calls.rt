//! The calls of an end that are calls of its multiplexing end.

ghost use Rattle.endpoint.specs.Changes.{ended_at, with_connections};
ghost use Rattle.endpoint.specs.Calls.{stopped_refusal};
ghost use Rattle.endpoint.specs.Refusing.{RefusesUse};
ghost use Rattle.endpoint.specs.Replies.{Answers, RefusesStopped};
ghost use Rattle.endpoint.specs.Stands.{Stands};
ghost use Rattle.endpoint_items.specs.Calls.{OfMux};
ghost use Rattle.endpoint_items.specs.Connections.{was_attached};
ghost use Rattle.endpoint_items.specs.Items.{EndItem};
ghost use Rattle.endpoint_items.specs.Layers.{mux_of, rpc_of};
ghost use Rattle.mux_end.specs.Replies.{KeepsTerms};
ghost use Rattle.mux_items.specs.Items.{is_running};
ghost use Rattle.mux_items.specs.Kept.{is_kept, next_key};
ghost use Rattle.mux_items.specs.Lists.{unread};
ghost use Rattle.mux_items.specs.declared.call.Call.TheVariants as call;
ghost use Rattle.rpc_end.specs.Calls.{Tests};
ghost use Rattle.std.specs.Prelude.{◌≡◌, ◌++◌, ◌&&◌, Err, List, OnOk, length, min, take, ℕ};
ghost use Rattle.wire_base.specs.declared.refusal.Refusal.{Refusal};

use crate::endpoint::Endpoint;
use mux_end::ChannelKey;
use wire_base::{CallFault, Cause, EndState, Refusal, Text};

impl Endpoint {
    /// Offers a channel and answers its key. The window is how many unread bytes this end takes on it.
    pub fn offer(&mut self, name: &Text, window: u32) -> Result<ChannelKey, CallFault>
        ensures answers { (items : List EndItem) (at : ℕ) (rest : List ℕ) → Stands self.old items at rest →
            Answers self.old self.new items at rest (OfMux (call.Offer name.now window)) (λ key. key ≡ next_key (mux_of self.old.mux.version items)) result }
        ensures stopped { RefusesStopped self.old self.new result }
        ensures terms { KeepsTerms self.old.mux self.new.mux }
    {
        self.check_stopped()?;
        let offered = self.mux.offer(name, window);
        self.finish(offered)
    }

    /// Accepts a channel that the peer offered. The window is how many unread bytes this end takes on it.
    pub fn accept(&mut self, key: ChannelKey, window: u32) -> Result<(), CallFault>
        ensures answers { (items : List EndItem) (at : ℕ) (rest : List ℕ) → Stands self.old items at rest →
            Answers self.old self.new items at rest (OfMux (call.Accept key window)) (λ _. Unit {0}) result }
        ensures stopped { RefusesStopped self.old self.new result }
        ensures terms { KeepsTerms self.old.mux self.new.mux }
    {
        self.check_stopped()?;
        let accepted = self.mux.accept(key, window);
        self.finish(accepted)
    }

    /// Writes bytes on a channel that never had a connection. Those that the peer has no window for wait.
    pub fn write(&mut self, key: ChannelKey, bytes: &[u8]) -> Result<(), CallFault>
        ensures answers { (items : List EndItem) (at : ℕ) (rest : List ℕ) → Stands self.old items at rest →
            Answers self.old self.new items at rest (OfMux (call.Write key bytes.now)) (λ _. Unit {0}) result }
        ensures stopped { RefusesStopped self.old self.new result }
        ensures terms { KeepsTerms self.old.mux self.new.mux }
    {
        self.check_stopped()?;
        self.check_writable(key)?;
        let written = self.mux.write(key, bytes);
        self.finish(written)
    }

    /// Moves at most `max` unread bytes of a channel that never had a connection to the end of `out`, and answers their
    /// number.
    pub fn read(
        &mut self,
        key: ChannelKey,
        max: usize,
        out: &mut Vec<u8>,
    ) -> Result<usize, CallFault>
        ensures answers { (items : List EndItem) (at : ℕ) (rest : List ℕ) → Stands self.old items at rest →
            Answers self.old self.new items at rest (OfMux (call.Read key max)) (λ n. n ≡ min max (length (unread self.old.mux.version key (mux_of self.old.mux.version items)))) result }
        ensures bytes { (items : List EndItem) (at : ℕ) (rest : List ℕ) → Stands self.old items at rest →
            OnOk result (out.new.items ≡ out.old.items ++ take max (unread self.old.mux.version key (mux_of self.old.mux.version items))) }
        ensures refused { (refusal : Refusal) → result ≡ Err (CallFault.Refused refusal) → out.new.items ≡ out.old.items }
        ensures stopped { RefusesStopped self.old self.new result }
        ensures terms { KeepsTerms self.old.mux self.new.mux }
    {
        self.check_stopped()?;
        self.check_unattached(key)?;
        let moved = self.mux.read(key, max, out);
        self.finish(moved)
    }

    /// Completes writing on a channel that never had a connection. What was written goes before.
    pub fn complete(&mut self, key: ChannelKey) -> Result<(), CallFault>
        ensures answers { (items : List EndItem) (at : ℕ) (rest : List ℕ) → Stands self.old items at rest →
            Answers self.old self.new items at rest (OfMux (call.Complete key)) (λ _. Unit {0}) result }
        ensures stopped { RefusesStopped self.old self.new result }
        ensures terms { KeepsTerms self.old.mux self.new.mux }
    {
        self.check_stopped()?;
        self.check_writable(key)?;
        let completed = self.mux.complete(key);
        self.finish(completed)
    }

    /// Terminates a channel, whose connection ends. What is pending or unread on it is dropped.
    pub fn terminate(&mut self, key: ChannelKey) -> Result<(), CallFault>
        ensures answers { (items : List EndItem) (at : ℕ) (rest : List ℕ) → Stands self.old items at rest →
            Answers self.old self.new items at rest (OfMux (call.Terminate key)) (λ _. Unit {0}) result }
        ensures stopped { RefusesStopped self.old self.new result }
        ensures terms { KeepsTerms self.old.mux self.new.mux }
    {
        self.check_stopped()?;
        match self.mux.terminate(key) {
            Ok(()) => {
                self.end_connection(key, Cause::ChannelClosed);
                Ok(())
            }
            Err(fault) => self.finish(Err(fault)),
        }
    }

    pub(crate) fn check_stopped(&self) -> Result<(), CallFault>
        ensures test { Tests (stopped_refusal self.now.state) result }
    {
        if let EndState::Stopped = self.state() {
            return Err(CallFault::Refused(Refusal::Stopped));
        }
        Ok(())
    }

    /// Refuses to write on a kept channel that has or had a connection, while the end runs.
    fn check_writable(&self, key: ChannelKey) -> Result<(), CallFault>
        ensures { (items : List EndItem) (at : ℕ) (rest : List ℕ) → Stands self.now items at rest →
            RefusesUse ((is_running (mux_of self.now.mux.version items) && is_kept self.now.mux.version key (mux_of self.now.mux.version items)) && was_attached (rpc_of self.now.mux.version key items)) result }
    {
        match self.mux.state() {
            EndState::Running => self.check_unattached(key),
            _ => Ok(()),
        }
    }

    /// Refuses a kept channel that has or had a connection, which alone may use it.
    fn check_unattached(&self, key: ChannelKey) -> Result<(), CallFault>
        ensures { (items : List EndItem) (at : ℕ) (rest : List ℕ) → Stands self.now items at rest →
            RefusesUse (is_kept self.now.mux.version key (mux_of self.now.mux.version items) && was_attached (rpc_of self.now.mux.version key items)) result }
    {
        if self.is_in_use(key) {
            return Err(CallFault::Refused(Refusal::Attached));
        }
        Ok(())
    }

    /// Whether a kept channel has or had a connection.
    fn is_in_use(&self, key: ChannelKey) -> bool
        ensures { (items : List EndItem) (at : ℕ) (rest : List ℕ) → Stands self.now items at rest →
            result ≡ (is_kept self.now.mux.version key (mux_of self.now.mux.version items) && was_attached (rpc_of self.now.mux.version key items)) }
    {
        match self.mux.view(key) {
            Some(_) => self.has_connection(key),
            None => false,
        }
    }

    /// The connection of a channel ends, if it has one that runs.
    pub(crate) fn end_connection(&mut self, key: ChannelKey, cause: Cause)
        ensures { self.new ≡ with_connections (ended_at key cause self.old.connections) self.old }
    {
        if let Some(place) = self.place_of(key) {
            self.connections[place].end.end(cause);
        }
    }
}
