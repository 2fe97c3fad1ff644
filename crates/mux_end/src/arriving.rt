//! What arrives at an end.

ghost use Rattle.frame_text.specs.Frames.{fits};
ghost use Rattle.frame_text.specs.Front.{Whole};
ghost use Rattle.frame_text.specs.Reading.{front};
ghost use Rattle.mux_end.specs.Arrivals.{arrival, arrival_of_handshake};
ghost use Rattle.mux_end.specs.Ends.{Steps, frame_arrives, front_arrives, with_end, with_rest, with_state};
ghost use Rattle.mux_end.specs.Replies.{FeedAnswers, KeepsTerms, StepAnswers, StepsStopped, is_spent};
ghost use Rattle.mux_end.specs.Stands.{MuxStands};
ghost use Rattle.mux_handshake.specs.Handshake.{handshake};
ghost use Rattle.mux_items.specs.Bodies.{taken_frame};
ghost use Rattle.mux_items.specs.Items.{Item, ended, party_or_neither};
ghost use Rattle.mux_items.specs.Limits.{most_bytes};
ghost use Rattle.mux_state.specs.Book.{is_ready_book};
ghost use Rattle.std.specs.Prelude.{◌≡◌, ◌≤◌, ◌<◌, ◌+◌, ◌++◌, List, OnOk, false, length, nat_lt, true, ℕ};

use crate::end::MuxEnd;
use crate::party::key_of;
use crate::step::MuxStep;
use channel_credit::TakeFault;
use mux_handshake::{Shaken, shake};
use mux_items::{MOST_BYTES, MuxEvent};
use wire_base::{Cause, EndState, Frame, FrameStep, OutOfMemory, Place, Reason};

impl MuxEnd {
    /// Keeps a piece of what the peer sent, and answers how the end stands then.
    pub fn feed(&mut self, piece: &[u8]) -> Result<EndState, OutOfMemory>
        ensures answers { (items : List Item) (at : ℕ) (rest : List ℕ) → MuxStands self.old items at rest →
            FeedAnswers self.old self.new items at rest piece.now (ended items) (is_spent at rest piece.now) result }
        ensures stopped { self.old.state ≡ EndState.Stopped → (result ≡ Ok EndState.Stopped) × (self.new ≡ self.old) }
        ensures terms { KeepsTerms self.old self.new }
    {
        if !self.is_running() {
            return Ok(self.state());
        }
        if self.would_be_spent(piece.len()) {
            self.end(Cause::Spent);
            return Ok(EndState::Ended(Cause::Spent));
        }
        match self.keep(piece) {
            Ok(()) => Ok(EndState::Running),
            Err(error) => {
                self.stop();
                Err(error)
            }
        }
    }

    /// Applies the peer's handshake, or the next whole frame.
    pub fn step(&mut self) -> MuxStep
        ensures answers { (items : List Item) (at : ℕ) (rest : List ℕ) → MuxStands self.old items at rest →
            StepAnswers self.old self.new items at rest (ended items) (arrival self.old.version self.old.nonce items at rest) result }
        ensures stopped { StepsStopped self.old self.new result }
        ensures shorter { (event : MuxEvent) → result ≡ MuxStep.Event event → length self.new.rest < length self.old.rest }
        ensures going { (event : MuxEvent) → result ≡ MuxStep.Event event → self.new.state ≡ self.old.state }
        ensures terms { KeepsTerms self.old self.new }
    {
        match self.state() {
            EndState::Running if self.book.is_ready() => self.apply_front(),
            EndState::Running => self.greet(),
            EndState::Ended(cause) => MuxStep::Ended(cause),
            EndState::Stopped => MuxStep::Stopped,
        }
    }

    /// Applies the frame at the front of the rest, if it is whole.
    fn apply_front(&mut self) -> MuxStep
        requires running { self.old.state ≡ EndState.Running }
        requires ready { is_ready_book self.old.book ≡ true }
        ensures steps { Steps self.old self.new (front_arrives self.old (front self.old.version self.old.rest)) result }
        ensures terms { KeepsTerms self.old self.new }
    {
        match self.reader.front() {
            FrameStep::Got(frame, size) => self.apply(&frame, size),
            FrameStep::Short => MuxStep::Short,
            FrameStep::Refused(place, reason) => self.refuse(place, reason),
            FrameStep::OutOfMemory => self.starve(),
        }
    }

    /// Applies a frame that takes so many bytes.
    fn apply(&mut self, frame: &Frame, size: usize) -> MuxStep
        requires running { self.old.state ≡ EndState.Running }
        requires ready { is_ready_book self.old.book ≡ true }
        requires whole { front self.old.version self.old.rest ≡ Whole frame.now size }
        requires fits { fits self.old.version frame.now ≡ true }
        ensures steps { Steps self.old self.new (frame_arrives self.old (taken_frame (party_or_neither self.old.book.party) frame.now) size) result }
        ensures terms { KeepsTerms self.old self.new }
    {
        let key = key_of(self.book.party(), frame);
        match self.book.take(key, frame, &mut self.output) {
            Ok(event) => {
                self.reader.skip(size);
                MuxStep::Event(event)
            }
            Err(TakeFault::Refused(reason)) => {
                let place = self.reader.place();
                self.refuse(place, reason)
            }
            Err(TakeFault::OutOfMemory) => self.starve(),
        }
    }

    /// Applies the peer's handshake at the front of the rest, if it is whole.
    fn greet(&mut self) -> MuxStep
        requires running { self.old.state ≡ EndState.Running }
        requires waits { is_ready_book self.old.book ≡ false }
        ensures steps { Steps self.old self.new (arrival_of_handshake self.old.at (handshake self.old.version self.old.nonce self.old.rest)) result }
        ensures terms { KeepsTerms self.old self.new }
    {
        match shake(self.book.version(), &self.nonce, self.reader.unread()) {
            Shaken::Done(party, size) => {
                self.reader.skip_greeting(size);
                self.book.greet(party);
                MuxStep::Event(MuxEvent::Ready)
            }
            Shaken::Short => MuxStep::Short,
            Shaken::Refused(place, reason) => {
                let start = self.reader.place();
                self.refuse(Place(start.0 + place.0), reason)
            }
        }
    }

    /// What the peer sent is refused at this place.
    fn refuse(&mut self, place: Place, reason: Reason) -> MuxStep
        requires { self.old.state ≡ EndState.Running }
        ensures answer { result ≡ MuxStep.Ended (Cause.Refused place reason) }
        ensures end { self.new ≡ with_end (Cause.Refused place reason) self.old }
    {
        let cause = Cause::Refused(place, reason);
        self.end(cause);
        MuxStep::Ended(cause)
    }

    /// Memory ran out in a step.
    fn starve(&mut self) -> MuxStep
        ensures answer { result ≡ MuxStep.OutOfMemory }
        ensures end { self.new ≡ with_state EndState.Stopped self.old }
    {
        self.stop();
        MuxStep::OutOfMemory
    }

    /// Whether more bytes than may be fed would have been fed with so many more.
    fn would_be_spent(&self, count: usize) -> bool
        ensures { result ≡ nat_lt most_bytes (self.now.at + length self.now.rest + count) }
    {
        MOST_BYTES - self.reader.fed() < count as u64
    }

    fn keep(&mut self, piece: &[u8]) -> Result<(), OutOfMemory>
        requires { self.old.at + length self.old.rest + length piece.now ≤ most_bytes }
        ensures kept { OnOk result (self.new ≡ with_rest (self.old.rest ++ piece.now) self.old) }
        ensures terms { KeepsTerms self.old self.new }
    {
        self.reader.feed(piece)
    }
}
