//! What connections say, and what comes for them.

ghost use Rattle.endpoint.specs.Changes.{stopped};
ghost use Rattle.endpoint.specs.Replies.{Adds};
ghost use Rattle.endpoint.specs.Sending.{IsAt, SendsAt};
ghost use Rattle.endpoint.specs.Stands.{Stands};
ghost use Rattle.endpoint.specs.Steps.{FollowAnswers, Follows, FromConnections, HasApplied, SaidAnswers, ClosesAt, runs_on};
ghost use Rattle.endpoint.specs.Value.{connection_at};
ghost use Rattle.endpoint.specs.declared.attached.Attached.{Attached};
ghost use Rattle.endpoint_items.specs.Arriving.{arrival_on, item_of_arrival, lacks_room, message_on, next_message};
ghost use Rattle.endpoint_items.specs.Connections.{is_attached};
ghost use Rattle.endpoint_items.specs.Items.{EndItem, Mux};
ghost use Rattle.endpoint_items.specs.Layers.{mux_of, rpc_of};
ghost use Rattle.mux_end.specs.Replies.{KeepsTerms};
ghost use Rattle.mux_end.specs.Stands.{MuxStands};
ghost use Rattle.mux_items.specs.Applying.{event_of};
ghost use Rattle.mux_items.specs.Bodies.{Content, ContentWritingCompleted, same_key};
ghost use Rattle.mux_items.specs.Items.{End, Got, Item, ended};
ghost use Rattle.std.specs.List.{position};
ghost use Rattle.std.specs.Prelude.{◌≡◌, ◌<◌, IfOk, List, None, OnOk, false, if◌then◌else◌, length, Some, true, ℕ};

use crate::endpoint::Endpoint;
use crate::following::{complete, read_all, terminate, write};
use crate::step::EndStep;
use endpoint_items::EndEvent;
use mux_end::{ChannelKey, MuxEvent};
use rpc_end::{RpcEvent, RpcStep};
use wire_base::{Cause, EndState, OutOfMemory};

impl Endpoint {
    /// Writes what a connection said on its channel.
    pub(crate) fn send(&mut self, place: usize) -> Result<(), OutOfMemory>
        requires { place < length self.old.connections }
        ensures sends { OnOk result (SendsAt self.old self.new place) }
        ensures terms { KeepsTerms self.old.mux self.new.mux }
    {
        let attached = &mut self.connections[place];
        let count = attached.end.pending_output().len();
        if count == 0 {
            return Ok(());
        }
        write(&mut self.mux, attached.key, attached.end.pending_output())?;
        attached.end.took(count);
        Ok(())
    }

    /// Applies the next message of the first connection that has one, or ends the connection or the end as it demands.
    pub(crate) fn step_connections(&mut self) -> Option<EndStep>
        ensures answers { (items : List EndItem) (at : ℕ) (rest : List ℕ) → Stands self.old items at rest →
            FromConnections self.old self.new items at rest (next_message self.old.mux.version items) result }
        ensures terms { KeepsTerms self.old.mux self.new.mux }
    {
        let mut place = 0;
        while place < self.connections.len() {
            if let Some(step) = self.step_connection(place) {
                return Some(step);
            }
            place += 1;
        }
        None
    }

    /// Applies the next message of a connection, if it runs and has one.
    fn step_connection(&mut self, place: usize) -> Option<EndStep>
        requires { place < length self.old.connections }
        ensures answers { (attached : Attached) (items : List EndItem) (at : ℕ) (rest : List ℕ) → IsAt self.old.connections place attached → Stands self.old items at rest →
            FromConnections self.old self.new items at rest (message_on self.old.mux.version attached.key items) result }
        ensures count { result ≡ None → length self.new.connections ≡ length self.old.connections }
        ensures terms { KeepsTerms self.old.mux self.new.mux }
    {
        let EndState::Running = self.connections[place].end.state() else {
            return None;
        };
        match self.lacks_room(place) {
            Ok(false) => self.apply_message(place),
            Ok(true) => Some(self.spend()),
            Err(_) => Some(self.starve()),
        }
    }

    /// Whether a whole message waits at a connection while its channel has no room for an answer.
    fn lacks_room(&self, place: usize) -> Result<bool, OutOfMemory>
        requires { place < length self.now.connections }
        ensures { (attached : Attached) (items : List EndItem) (at : ℕ) (rest : List ℕ) → IsAt self.now.connections place attached → Stands self.now items at rest →
            is_attached (rpc_of self.now.mux.version attached.key items) ≡ true → IfOk result (λ lacks. lacks ≡ lacks_room self.now.mux.version attached.key items) }
    {
        let attached = &self.connections[place];
        if !self.is_spent_on(attached.key) {
            return Ok(false);
        }
        attached.end.has_message()
    }

    fn apply_message(&mut self, place: usize) -> Option<EndStep>
        requires { place < length self.old.connections }
        ensures answers { (attached : Attached) (items : List EndItem) (at : ℕ) (rest : List ℕ) → IsAt self.old.connections place attached → Stands self.old items at rest →
            is_attached (rpc_of self.old.mux.version attached.key items) ≡ true → lacks_room self.old.mux.version attached.key items ≡ false →
            FromConnections self.old self.new items at rest (item_of_arrival attached.key (arrival_on self.old.mux.version attached.key items)) result }
        ensures count { result ≡ None → length self.new.connections ≡ length self.old.connections }
        ensures terms { KeepsTerms self.old.mux self.new.mux }
    {
        match self.connections[place].end.step() {
            RpcStep::Event(event) => Some(self.answer(place, event)),
            RpcStep::Short => None,
            RpcStep::Ended(cause) => Some(self.close(place, cause)),
            RpcStep::Stopped | RpcStep::OutOfMemory => Some(self.starve()),
        }
    }

    /// A connection applied a message, and what that made it say is written.
    fn answer(&mut self, place: usize, event: RpcEvent) -> EndStep
        requires { place < length self.old.connections }
        ensures answers { (attached : Attached) → IsAt self.old.connections place attached → SaidAnswers self.old self.new place attached.key event result }
        ensures terms { KeepsTerms self.old.mux self.new.mux }
    {
        let key = self.connections[place].key;
        match self.send(place) {
            Ok(()) => EndStep::Event(EndEvent::Rpc(key, event)),
            Err(_) => self.starve(),
        }
    }

    /// A connection refused a message, and its channel is terminated.
    fn close(&mut self, place: usize, cause: Cause) -> EndStep
        requires { place < length self.old.connections }
        ensures closes { (attached : Attached) (items : List Item) (at : ℕ) (rest : List ℕ) → IsAt self.old.connections place attached → MuxStands self.old.mux items at rest → self.old.state ≡ self.old.mux.state →
            ClosesAt self.old self.new attached.key cause items at rest result }
        ensures terms { KeepsTerms self.old.mux self.new.mux }
    {
        let key = self.connections[place].key;
        match terminate(&mut self.mux, key) {
            Ok(()) => EndStep::Event(EndEvent::RpcEnded(key, cause)),
            Err(_) => self.starve(),
        }
    }

    /// The end is spent, and so are all connections.
    fn spend(&mut self) -> EndStep
        ensures answer { result ≡ EndStep.Ended Cause.Spent }
        ensures ends { (items : List EndItem) (at : ℕ) (rest : List ℕ) → Stands self.old items at rest → ended (mux_of self.old.mux.version items) ≡ None → Adds self.old self.new items at rest (Mux (End Cause.Spent)) }
        ensures terms { KeepsTerms self.old.mux self.new.mux }
    {
        self.mux.spend();
        self.end_all(Cause::Spent);
        EndStep::Ended(Cause::Spent)
    }

    /// Does for a connection what the peer's handshake or frame asks for that made this event.
    pub(crate) fn follow(&mut self, event: MuxEvent) -> EndStep
        ensures answers { (items : List EndItem) (item : Item) (at : ℕ) (rest : List ℕ) → HasApplied self.old items item at rest → event_of self.old.mux.version item (mux_of self.old.mux.version items) ≡ Some event →
            FollowAnswers self.old self.new items item at rest event result }
        ensures terms { KeepsTerms self.old.mux self.new.mux }
    {
        match self.serve(event) {
            Ok(()) => EndStep::Event(EndEvent::Mux(event)),
            Err(_) => self.starve(),
        }
    }

    /// Hands content, a completion or a termination on to the connection of its channel.
    fn serve(&mut self, event: MuxEvent) -> Result<(), OutOfMemory>
        ensures follows { (items : List EndItem) (item : Item) (at : ℕ) (rest : List ℕ) → HasApplied self.old items item at rest → event_of self.old.mux.version item (mux_of self.old.mux.version items) ≡ Some event →
            OnOk result (Follows self.old self.new items item at rest) }
        ensures terms { KeepsTerms self.old.mux self.new.mux }
    {
        match event {
            MuxEvent::Content(key, _) => self.join(key),
            MuxEvent::Completed(key) => self.complete_with(key),
            MuxEvent::Closed(key) => {
                self.end_connection(key, Cause::ChannelClosed);
                Ok(())
            }
            _ => Ok(()),
        }
    }

    /// Where a connection that runs stands.
    fn running_at(&self, key: ChannelKey) -> Option<usize>
        ensures { result ≡ (if runs_on (connection_at key self.now.connections) then position (λ attached. same_key key attached.key) self.now.connections else None) }
    {
        let place = self.place_of(key)?;
        match self.connections[place].end.state() {
            EndState::Running => Some(place),
            _ => None,
        }
    }

    /// The connection of a channel reads the content that came.
    fn join(&mut self, key: ChannelKey) -> Result<(), OutOfMemory>
        ensures joins { (items : List EndItem) (place at : ℕ) (bytes rest : List ℕ) → HasApplied self.old items (Got place key (Content bytes)) at rest →
            OnOk result (Follows self.old self.new items (Got place key (Content bytes)) at rest) }
        ensures terms { KeepsTerms self.old.mux self.new.mux }
    {
        let Some(place) = self.running_at(key) else {
            return Ok(());
        };
        let piece = read_all(&mut self.mux, self.alloc, key)?;
        self.connections[place].end.feed(piece.as_slice())?;
        Ok(())
    }

    /// The peer has completed: the connection of the channel ends, and writing is completed here too.
    fn complete_with(&mut self, key: ChannelKey) -> Result<(), OutOfMemory>
        ensures completes { (items : List EndItem) (place at : ℕ) (rest : List ℕ) → HasApplied self.old items (Got place key ContentWritingCompleted) at rest →
            OnOk result (Follows self.old self.new items (Got place key ContentWritingCompleted) at rest) }
        ensures terms { KeepsTerms self.old.mux self.new.mux }
    {
        let Some(place) = self.running_at(key) else {
            return Ok(());
        };
        self.connections[place].end.end(Cause::PeerCompleted);
        complete(&mut self.mux, key)
    }

    /// Memory ran out in a step.
    pub(crate) fn starve(&mut self) -> EndStep
        ensures answer { result ≡ EndStep.OutOfMemory }
        ensures state { self.new ≡ stopped self.old }
    {
        self.stop();
        EndStep::OutOfMemory
    }
}
