//! The calls of an end that are calls of a connection.

ghost use Rattle.endpoint.specs.Calls.{attached_place, room_refusal, saying_refusal};
ghost use Rattle.endpoint.specs.Replies.{Answers, RefusesStopped};
ghost use Rattle.endpoint.specs.Sending.{FinishesSaid};
ghost use Rattle.endpoint.specs.Stands.{Stands};
ghost use Rattle.endpoint_items.specs.Calls.{OfConnection, is_spent_on};
ghost use Rattle.endpoint_items.specs.Connections.{items_of, was_attached};
ghost use Rattle.endpoint_items.specs.Items.{EndItem};
ghost use Rattle.endpoint_items.specs.Layers.{mux_of, rpc_of};
ghost use Rattle.mux_end.specs.Replies.{KeepsTerms};
ghost use Rattle.mux_items.specs.Bodies.{same_key};
ghost use Rattle.rpc_end.specs.Calls.{Tests};
ghost use Rattle.rpc_items.specs.Drawn.{drawn};
ghost use Rattle.rpc_items.specs.Items.{Abort, Ask, Cancel, Forget, Invoke, Next, Release, Report, Respond, TakeReport, Tell};
ghost use Rattle.rpc_items.specs.Reports.{reports};
ghost use Rattle.std.specs.List.{position};
ghost use Rattle.std.specs.Prelude.{◌≡◌, ◌<◌, ◌+◌, IfOk, List, Some, length, slice_get, true, ℕ};

use crate::endpoint::Endpoint;
use mux_end::ChannelKey;
use mux_items::MOST_BYTES;
use rpc_end::{Answer, Arguments, Expect, HandleKey};
use wire_base::{CallFault, Datum, Id, Refusal, Text};

/// No message has more bytes than these, with its head.
const MOST_TEXT: u64 = 33_554_432;

impl Endpoint {
    /// Says a request on a channel, and answers its number, which is its id and the token of its progress.
    pub fn request(
        &mut self,
        key: ChannelKey,
        method: &Text,
        args: Arguments,
        expect: Expect,
    ) -> Result<u64, CallFault>
        ensures answers { (items : List EndItem) (at : ℕ) (rest : List ℕ) → Stands self.old items at rest →
            Answers self.old self.new items at rest (OfConnection key (Ask method.now args expect)) (λ n. n ≡ drawn (items_of (rpc_of self.old.mux.version key items)) + 1) result }
        ensures stopped { RefusesStopped self.old self.new result }
        ensures terms { KeepsTerms self.old.mux self.new.mux }
    {
        let place = self.check_saying(key)?;
        let asked = self.connections[place].end.request(method, args, expect);
        self.finish_said(place, asked)
    }

    /// Says a notification on a channel.
    pub fn notify(
        &mut self,
        key: ChannelKey,
        method: &Text,
        args: Arguments,
    ) -> Result<(), CallFault>
        ensures answers { (items : List EndItem) (at : ℕ) (rest : List ℕ) → Stands self.old items at rest →
            Answers self.old self.new items at rest (OfConnection key (Tell method.now args)) (λ _. Unit {0}) result }
        ensures stopped { RefusesStopped self.old self.new result }
        ensures terms { KeepsTerms self.old.mux self.new.mux }
    {
        let place = self.check_saying(key)?;
        let told = self.connections[place].end.notify(method, args);
        self.finish_said(place, told)
    }

    /// Says the one response to a request of the peer on a channel. Where that is a sequence, it has the first values of it.
    pub fn respond(&mut self, key: ChannelKey, id: &Id, answer: Answer) -> Result<(), CallFault>
        ensures answers { (items : List EndItem) (at : ℕ) (rest : List ℕ) → Stands self.old items at rest →
            Answers self.old self.new items at rest (OfConnection key (Respond id.now answer)) (λ _. Unit {0}) result }
        ensures stopped { RefusesStopped self.old self.new result }
        ensures terms { KeepsTerms self.old.mux self.new.mux }
    {
        let place = self.check_saying(key)?;
        let answered = self.connections[place].end.respond(id, answer);
        self.finish_said(place, answered)
    }

    /// Asks the peer of a channel to give up an own request that waits.
    pub fn cancel(&mut self, key: ChannelKey, n: u64) -> Result<(), CallFault>
        ensures answers { (items : List EndItem) (at : ℕ) (rest : List ℕ) → Stands self.old items at rest →
            Answers self.old self.new items at rest (OfConnection key (Cancel n)) (λ _. Unit {0}) result }
        ensures stopped { RefusesStopped self.old self.new result }
        ensures terms { KeepsTerms self.old.mux self.new.mux }
    {
        let place = self.check_saying(key)?;
        let cancelled = self.connections[place].end.cancel(n);
        self.finish_said(place, cancelled)
    }

    /// Reports a value on a request of the peer that waits on a channel. The token is one that the request gave.
    pub fn report(
        &mut self,
        key: ChannelKey,
        id: &Id,
        token: &Id,
        value: &Datum,
    ) -> Result<(), CallFault>
        ensures answers { (items : List EndItem) (at : ℕ) (rest : List ℕ) → Stands self.old items at rest →
            Answers self.old self.new items at rest (OfConnection key (Report id.now token.now value.now)) (λ _. Unit {0}) result }
        ensures stopped { RefusesStopped self.old self.new result }
        ensures terms { KeepsTerms self.old.mux self.new.mux }
    {
        let place = self.check_saying(key)?;
        let reported = self.connections[place].end.report(id, token, value);
        self.finish_said(place, reported)
    }

    /// Asks for the next page of the sequence that is the result of an own request, and answers the number of the request for
    /// it.
    pub fn next(&mut self, key: ChannelKey, n: u64) -> Result<u64, CallFault>
        ensures answers { (items : List EndItem) (at : ℕ) (rest : List ℕ) → Stands self.old items at rest →
            Answers self.old self.new items at rest (OfConnection key (Next n)) (λ number. number ≡ drawn (items_of (rpc_of self.old.mux.version key items)) + 1) result }
        ensures stopped { RefusesStopped self.old self.new result }
        ensures terms { KeepsTerms self.old.mux self.new.mux }
    {
        let place = self.check_saying(key)?;
        let asked = self.connections[place].end.next(n);
        self.finish_said(place, asked)
    }

    /// Gives the sequence up that is the result of an own request: no page of it can be asked for any more.
    pub fn abort(&mut self, key: ChannelKey, n: u64) -> Result<(), CallFault>
        ensures answers { (items : List EndItem) (at : ℕ) (rest : List ℕ) → Stands self.old items at rest →
            Answers self.old self.new items at rest (OfConnection key (Abort n)) (λ _. Unit {0}) result }
        ensures stopped { RefusesStopped self.old self.new result }
        ensures terms { KeepsTerms self.old.mux self.new.mux }
    {
        let place = self.check_saying(key)?;
        let left = self.connections[place].end.abort(n);
        self.finish_said(place, left)
    }

    /// Says a request to the object of a handle of the peer on a channel, and answers its number.
    pub fn invoke(
        &mut self,
        key: ChannelKey,
        handle: u64,
        method: &Text,
        args: Arguments,
        expect: Expect,
    ) -> Result<u64, CallFault>
        ensures answers { (items : List EndItem) (at : ℕ) (rest : List ℕ) → Stands self.old items at rest →
            Answers self.old self.new items at rest (OfConnection key (Invoke handle method.now args expect)) (λ n. n ≡ drawn (items_of (rpc_of self.old.mux.version key items)) + 1) result }
        ensures stopped { RefusesStopped self.old self.new result }
        ensures terms { KeepsTerms self.old.mux self.new.mux }
    {
        let place = self.check_saying(key)?;
        let called = self.connections[place]
            .end
            .invoke(handle, method, args, expect);
        self.finish_said(place, called)
    }

    /// Releases a handle of either side on a channel, and tells the peer.
    pub fn release(&mut self, key: ChannelKey, handle: HandleKey) -> Result<(), CallFault>
        ensures answers { (items : List EndItem) (at : ℕ) (rest : List ℕ) → Stands self.old items at rest →
            Answers self.old self.new items at rest (OfConnection key (Release handle)) (λ _. Unit {0}) result }
        ensures stopped { RefusesStopped self.old self.new result }
        ensures terms { KeepsTerms self.old.mux self.new.mux }
    {
        let place = self.check_saying(key)?;
        let released = self.connections[place].end.release(handle);
        self.finish_said(place, released)
    }

    /// Takes the next report that was kept on an own request, where one is left, also after the end of the connection. It
    /// takes no memory.
    pub fn take_report(&mut self, key: ChannelKey, n: u64) -> Result<Option<Datum>, CallFault>
        ensures answers { (items : List EndItem) (at : ℕ) (rest : List ℕ) → Stands self.old items at rest →
            Answers self.old self.new items at rest (OfConnection key (TakeReport n)) (λ r. r ≡ slice_get (reports n (items_of (rpc_of self.old.mux.version key items))) 0) result }
        ensures stopped { RefusesStopped self.old self.new result }
        ensures terms { KeepsTerms self.old.mux self.new.mux }
    {
        let place = self.check_attached(key)?;
        let taken = self.connections[place].end.take_report(n);
        self.finish_said(place, taken)
    }

    /// Drops a known outcome of a connection, also after its end. It takes no memory.
    pub fn forget(&mut self, key: ChannelKey, n: u64) -> Result<(), CallFault>
        ensures answers { (items : List EndItem) (at : ℕ) (rest : List ℕ) → Stands self.old items at rest →
            Answers self.old self.new items at rest (OfConnection key (Forget n)) (λ _. Unit {0}) result }
        ensures stopped { RefusesStopped self.old self.new result }
        ensures terms { KeepsTerms self.old.mux self.new.mux }
    {
        let place = self.check_attached(key)?;
        let forgotten = self.connections[place].end.forget(n);
        self.finish_said(place, forgotten)
    }

    /// Where the connection of a channel stands, ended or not; a call of another channel is refused.
    pub(crate) fn check_attached(&self, key: ChannelKey) -> Result<usize, CallFault>
        ensures { result ≡ attached_place self.now.state (position (λ attached. same_key key attached.key) self.now.connections) }
    {
        self.check_stopped()?;
        match self.place_of(key) {
            Some(place) => Ok(place),
            None => Err(CallFault::Refused(Refusal::NotAttached)),
        }
    }

    /// Where the connection of a channel stands that has room for one more message.
    fn check_saying(&self, key: ChannelKey) -> Result<usize, CallFault>
        ensures found { IfOk result (λ place. position (λ attached. same_key key attached.key) self.now.connections ≡ Some place) }
        ensures test { (items : List EndItem) (at : ℕ) (rest : List ℕ) → Stands self.now items at rest → Tests (saying_refusal self.now.mux.version key items) result }
        ensures stopped { RefusesStopped self.now self.now result }
    {
        let place = self.check_attached(key)?;
        self.check_room(key)?;
        Ok(place)
    }

    /// Refuses to say more on a channel that has no room for one more message.
    fn check_room(&self, key: ChannelKey) -> Result<(), CallFault>
        ensures { (items : List EndItem) (at : ℕ) (rest : List ℕ) → Stands self.now items at rest → was_attached (rpc_of self.now.mux.version key items) ≡ true →
            Tests (room_refusal (is_spent_on key (mux_of self.now.mux.version items))) result }
    {
        if self.is_spent_on(key) {
            return Err(CallFault::Refused(Refusal::BytesSpent));
        }
        Ok(())
    }

    /// Whether more bytes are written on a channel than leave room for one more message.
    pub(crate) fn is_spent_on(&self, key: ChannelKey) -> bool
        ensures { (items : List EndItem) (at : ℕ) (rest : List ℕ) → Stands self.now items at rest → was_attached (rpc_of self.now.mux.version key items) ≡ true →
            result ≡ is_spent_on key (mux_of self.now.mux.version items) }
    {
        match self.mux.tally(key) {
            Some(tally) => tally.written > MOST_BYTES - MOST_TEXT,
            None => false,
        }
    }

    /// Writes what a call made a connection say, and answers what the call did. After want of memory the end is stopped.
    fn finish_said<T: Drop>(
        &mut self,
        place: usize,
        answer: Result<T, CallFault>,
    ) -> Result<T, CallFault>
        requires { place < length self.old.connections }
        ensures finishes { FinishesSaid self.old self.new place answer result }
        ensures terms { KeepsTerms self.old.mux self.new.mux }
    {
        match answer {
            Ok(done) => match self.send(place) {
                Ok(()) => Ok(done),
                Err(_) => {
                    self.stop();
                    Err(CallFault::OutOfMemory)
                }
            },
            Err(fault) => self.finish(Err(fault)),
        }
    }
}
