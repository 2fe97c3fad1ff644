//! What arrives at an end.

ghost use Rattle.message_body.specs.Found.{body_in};
ghost use Rattle.message_body.specs.Replies.{Reads};
ghost use Rattle.message_framing.specs.Front.{front};
ghost use Rattle.message_framing.specs.declared.front.Front.TheVariants.{Whole};
ghost use Rattle.rpc_end.specs.Arrivals.{Refuses, arrival, begins_message};
ghost use Rattle.rpc_end.specs.Ends.{with_rest, with_stop};
ghost use Rattle.rpc_end.specs.Heeding.{HasId, Steps, front_arrives, message_arrives};
ghost use Rattle.rpc_end.specs.Replies.{FeedAnswers, StepAnswers, StepsStopped, is_spent, most_fed};
ghost use Rattle.rpc_end.specs.Stands.{RpcStands};
ghost use Rattle.rpc_items.specs.declared.calls.RpcEvent.{RpcEvent};
ghost use Rattle.rpc_items.specs.Items.{RpcItem, ended, is_running};
ghost use Rattle.std.specs.Prelude.{◌≡◌, ◌≤◌, ◌<◌, ◌+◌, ◌++◌, ◌&&◌, IfOk, List, OnErr, OnOk, Ok, drop, false, is_ok, length, nat_lt, take, ℕ};

use crate::end::RpcEnd;
use crate::step::RpcStep;
use message_body::{BodyFault, read};
use message_framing::Front;
use rpc_items::Message;
use wire_base::{Cause, EndState, MAX_FED, OutOfMemory, Place, Reason};

impl RpcEnd {
    /// Keeps a piece of what the peer sent, and answers how the end stands then.
    ///
    /// A piece with which more than 2^62 bytes would have been fed isn't kept: the end ends with the cause Spent.
    pub fn feed(&mut self, piece: &[u8]) -> Result<EndState, OutOfMemory>
        ensures answers { (items : List RpcItem) (at : ℕ) (rest : List ℕ) → RpcStands self.old items at rest →
            FeedAnswers self.old self.new items at rest piece.now (ended items) (is_spent at rest piece.now) result }
        ensures stopped { self.old.state ≡ EndState.Stopped → (result ≡ Ok EndState.Stopped) × (self.new ≡ self.old) }
        ensures terms { self.new.terms ≡ self.old.terms }
    {
        let EndState::Running = self.state else {
            return Ok(self.state);
        };
        if self.would_be_spent(piece.len()) {
            self.close(Cause::Spent);
            return Ok(self.state);
        }
        match self.keep(piece) {
            Ok(()) => Ok(EndState::Running),
            Err(error) => {
                self.stop();
                Err(error)
            }
        }
    }

    /// Whether more bytes than may be fed would have been fed with so many more.
    fn would_be_spent(&self, count: usize) -> bool
        ensures { result ≡ nat_lt most_fed (self.now.at + length self.now.rest + count) }
    {
        MAX_FED - self.reader.fed() < count as u64
    }

    fn keep(&mut self, piece: &[u8]) -> Result<(), OutOfMemory>
        requires { self.old.at + length self.old.rest + length piece.now ≤ most_fed }
        ensures ok { OnOk result (self.new ≡ with_rest (self.old.rest ++ piece.now) self.old) }
        ensures err { OnErr result (self.new ≡ self.old) }
    {
        self.reader.feed(piece)
    }

    #[tactic(auto, using(crate::proofs::Stepping::step_answers, crate::proofs::Stepping::ended_answers, crate::proofs::Stepping::never_stopped))]
    /// Applies the next whole message, and answers what it was to this end. A refused one ends the end.
    pub fn step(&mut self) -> RpcStep
        ensures answers { (items : List RpcItem) (at : ℕ) (rest : List ℕ) → RpcStands self.old items at rest →
            StepAnswers self.old self.new items at rest (ended items) (arrival self.old.terms items at rest) result }
        ensures stopped { StepsStopped self.old self.new result }
        ensures shorter { (event : RpcEvent) → result ≡ RpcStep.Event event → length self.new.rest < length self.old.rest }
        ensures terms { self.new.terms ≡ self.old.terms }
    {
        match self.state {
            EndState::Running => self.apply_front(),
            EndState::Ended(cause) => RpcStep::Ended(cause),
            EndState::Stopped => RpcStep::Stopped,
        }
    }

    /// Whether a running end has a whole message at the front of the rest. It changes nothing.
    pub fn has_message(&self) -> Result<bool, OutOfMemory>
        ensures answers { (items : List RpcItem) (at : ℕ) (rest : List ℕ) → RpcStands self.now items at rest →
            IfOk result (λ has. has ≡ (is_running items && begins_message self.now.terms rest)) }
        ensures stopped { self.now.state ≡ EndState.Stopped → result ≡ Ok false }
    {
        match (self.state, self.reader.front()) {
            (EndState::Running, Front::Whole(start, size)) => self.is_message(start, size),
            _ => Ok(false),
        }
    }

    /// Whether a body of so many bytes says a message, the first of them at this offset.
    fn is_message(&self, start: usize, size: usize) -> Result<bool, OutOfMemory>
        requires { start + size ≤ length self.now.rest }
        ensures { IfOk result (λ is. is ≡ is_ok (body_in self.now.terms.encoding (take size (drop start self.now.rest)))) }
    {
        match self.read_body(start, size) {
            Ok(_) => Ok(true),
            Err(BodyFault::Refused(_, _)) => Ok(false),
            Err(BodyFault::OutOfMemory) => Err(OutOfMemory),
        }
    }

    /// Applies the message at the front of the rest, if it is whole.
    fn apply_front(&mut self) -> RpcStep
        requires { self.old.state ≡ EndState.Running }
        ensures steps { Steps self.old self.new (front_arrives self.old (front self.old.terms.framing self.old.rest)) result }
        ensures terms { self.new.terms ≡ self.old.terms }
    {
        match self.reader.front() {
            Front::Whole(start, size) => self.apply_body(start, size),
            Front::Short => RpcStep::Short,
            Front::Broken(offset, reason) => self.refuse(offset, reason),
        }
    }

    #[tactic(auto, using(crate::proofs::Named::has_id, message_framing::proofs::FrontLemmas::whole_within))]
    /// Applies the message with a body of so many bytes, the first of them at this offset.
    fn apply_body(&mut self, start: usize, size: usize) -> RpcStep
        requires running { self.old.state ≡ EndState.Running }
        requires whole { front self.old.terms.framing self.old.rest ≡ Whole start size }
        ensures steps { Steps self.old self.new (front_arrives self.old (Whole start size)) result }
        ensures terms { self.new.terms ≡ self.old.terms }
    {
        match self.read_body(start, size) {
            Ok(message) => self.apply(message, start, size),
            Err(BodyFault::Refused(offset, reason)) => self.refuse(start + offset, reason),
            Err(BodyFault::OutOfMemory) => self.starved(),
        }
    }

    /// The message that a body of so many bytes says, the first of them at this offset.
    fn read_body(&self, start: usize, size: usize) -> Result<Message, BodyFault>
        requires { start + size ≤ length self.now.rest }
        ensures reads { Reads (body_in self.now.terms.encoding (take size (drop start self.now.rest))) result }
        ensures bound { length self.now.rest ≤ most_fed }
    {
        let body = &self.reader.unread()[start..start + size];
        read(self.alloc, self.terms.encoding, body)
    }

    #[tactic(auto, using(message_framing::proofs::FrontLemmas::whole_within))]
    /// Applies the message that a body of so many bytes says, the first of them at this offset.
    fn apply(&mut self, message: Message, start: usize, size: usize) -> RpcStep
        requires running { self.old.state ≡ EndState.Running }
        requires whole { front self.old.terms.framing self.old.rest ≡ Whole start size }
        requires named { HasId message }
        ensures steps { Steps self.old self.new (message_arrives self.old (self.old.at + start) (start + size) message) result }
        ensures terms { self.new.terms ≡ self.old.terms }
    {
        if let Some(reason) = self.broken_rule(&message) {
            return self.refuse(start, reason);
        }
        match self.heed(message) {
            Ok(event) => {
                self.reader.skip(start, size);
                RpcStep::Event(event)
            }
            Err(_) => self.starved(),
        }
    }

    /// What the peer sent is refused at this offset of the rest.
    fn refuse(&mut self, offset: usize, reason: Reason) -> RpcStep
        requires running { self.old.state ≡ EndState.Running }
        requires within { offset ≤ length self.old.rest }
        ensures steps { Steps self.old self.new (Refuses (self.old.at + offset) reason) result }
        ensures terms { self.new.terms ≡ self.old.terms }
    {
        let cause = Cause::Refused(self.place(offset), reason);
        self.close(cause);
        RpcStep::Ended(cause)
    }

    /// The place of a byte of the rest, by its offset.
    fn place(&self, offset: usize) -> Place
        requires { offset ≤ length self.now.rest }
        ensures { result.0 ≡ self.now.at + offset }
    {
        Place(self.reader.place().0 + offset as u64)
    }

    /// Memory ran out in a step.
    fn starved(&mut self) -> RpcStep
        ensures answer { result ≡ RpcStep.OutOfMemory }
        ensures stop { self.new ≡ with_stop self.old }
    {
        self.stop();
        RpcStep::OutOfMemory
    }
}
