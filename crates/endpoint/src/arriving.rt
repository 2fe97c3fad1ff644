//! What arrives at an end.

ghost use Rattle.endpoint.specs.Changes.{ended_with, with_connections};
ghost use Rattle.endpoint.specs.Replies.{FeedAnswers, FrameAnswers, StepAnswers, StepsStopped};
ghost use Rattle.endpoint.specs.Stands.{Stands};
ghost use Rattle.endpoint_items.specs.Arriving.{next_message};
ghost use Rattle.endpoint_items.specs.Items.{EndItem};
ghost use Rattle.endpoint_items.specs.Layers.{mux_of};
ghost use Rattle.mux_end.specs.Arrivals.{arrival};
ghost use Rattle.mux_end.specs.Replies.{KeepsTerms, is_spent};
ghost use Rattle.mux_items.specs.Items.{ended};
ghost use Rattle.std.specs.Prelude.{◌≡◌, List, None, Ok, ℕ};

use crate::endpoint::Endpoint;
use crate::step::EndStep;
use mux_end::MuxStep;
use wire_base::{EndState, OutOfMemory};

impl Endpoint {
    /// Keeps a piece of what the peer sent, and answers how the end stands then.
    ///
    /// A piece with which more than 2^62 bytes would have been fed isn't kept: the end ends with the cause Spent.
    pub fn feed(&mut self, piece: &[u8]) -> Result<EndState, OutOfMemory>
        ensures answers { (items : List EndItem) (at : ℕ) (rest : List ℕ) → Stands self.old items at rest →
            FeedAnswers self.old self.new items at rest piece.now (ended (mux_of self.old.mux.version items)) (is_spent at rest piece.now) result }
        ensures stopped { self.old.state ≡ EndState.Stopped → (result ≡ Ok EndState.Stopped) × (self.new ≡ self.old) }
        ensures terms { KeepsTerms self.old.mux self.new.mux }
    {
        let EndState::Running = self.state() else {
            return Ok(self.state());
        };
        match self.mux.feed(piece) {
            Ok(state) => {
                self.end_with(state);
                Ok(state)
            }
            Err(error) => {
                self.stop();
                Err(error)
            }
        }
    }

    /// Where the multiplexing end has ended, so have all connections.
    fn end_with(&mut self, state: EndState)
        ensures { self.new ≡ with_connections (ended_with state self.old.connections) self.old }
    {
        if let EndState::Ended(cause) = state {
            self.end_all(cause);
        }
    }

    /// Applies the next whole message of a connection, own channels before the peer's and by rising id, or else the
    /// peer's handshake or next whole frame, and does what follows from it.
    pub fn step(&mut self) -> EndStep
        ensures answers { (items : List EndItem) (at : ℕ) (rest : List ℕ) → Stands self.old items at rest →
            StepAnswers self.old self.new items at rest (ended (mux_of self.old.mux.version items)) (next_message self.old.mux.version items) result }
        ensures stopped { StepsStopped self.old self.new result }
        ensures terms { KeepsTerms self.old.mux self.new.mux }
    {
        match self.state() {
            EndState::Running => match self.step_connections() {
                Some(step) => step,
                None => self.step_mux(),
            },
            EndState::Ended(cause) => EndStep::Ended(cause),
            EndState::Stopped => EndStep::Stopped,
        }
    }

    /// Applies the peer's handshake or next whole frame.
    fn step_mux(&mut self) -> EndStep
        ensures answers { (items : List EndItem) (at : ℕ) (rest : List ℕ) → Stands self.old items at rest → ended (mux_of self.old.mux.version items) ≡ None →
            FrameAnswers self.old self.new items at rest (arrival self.old.mux.version self.old.mux.nonce (mux_of self.old.mux.version items) at rest) result }
        ensures terms { KeepsTerms self.old.mux self.new.mux }
    {
        match self.mux.step() {
            MuxStep::Event(event) => self.follow(event),
            MuxStep::Short => EndStep::Short,
            MuxStep::Ended(cause) => {
                self.end_all(cause);
                EndStep::Ended(cause)
            }
            MuxStep::Stopped | MuxStep::OutOfMemory => self.starve(),
        }
    }
}
