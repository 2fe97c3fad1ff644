//! A connection is attached to a channel.

ghost use Rattle.endpoint.specs.Beginning.{BeginsOn, Shows, phase_refusal};
ghost use Rattle.endpoint.specs.Changes.{MovesIf, inserted};
ghost use Rattle.endpoint.specs.Replies.{Adds, Answers, RefusesStopped};
ghost use Rattle.endpoint.specs.Stands.{IsConnection, Stands};
ghost use Rattle.endpoint.specs.Value.{connection_at};
ghost use Rattle.endpoint_items.specs.Calls.{Attaches, attach_refusal};
ghost use Rattle.endpoint_items.specs.Following.{complete_once, followed};
ghost use Rattle.endpoint_items.specs.Items.{Attach, EndItem};
ghost use Rattle.endpoint_items.specs.Layers.{mux_of};
ghost use Rattle.mux_end.specs.Replies.{KeepsTerms};
ghost use Rattle.mux_end.specs.Stands.{MuxStands};
ghost use Rattle.mux_items.specs.Items.{Item};
ghost use Rattle.mux_items.specs.Limits.{most_bytes};
ghost use Rattle.mux_items.specs.Lists.{is_completed, unread};
ghost use Rattle.mux_items.specs.Refusals.{read_refusal};
ghost use Rattle.mux_items.specs.Views.{view_of};
ghost use Rattle.rpc_end.specs.declared.terms.Terms.{Terms};
ghost use Rattle.rpc_items.specs.Items.{End};
ghost use Rattle.std.specs.Prelude.{◌≡◌, ◌≤◌, ◌∷◌, [], IfOk, List, None, OnErr, OnOk, if◌then◌else◌, length, ℕ};

use crate::attached::Attached;
use crate::endpoint::Endpoint;
use crate::following::{complete, read_all};
use mux_end::{ChannelKey, ChannelView, MuxEnd, Phase, precedes};
use rpc_end::{Encoding, Framing, RpcEnd};
use std::alloc::Global;
use wire_base::{CallFault, Cause, EndState, OutOfMemory, Refusal};

impl Endpoint {
    /// Attaches a connection to a channel, which alone reads and writes there from then on. It reads all that came
    /// before. Where the peer has completed, it ends at once, and messages that lay unread aren't applied.
    pub fn attach(
        &mut self,
        key: ChannelKey,
        framing: Framing,
        encoding: Encoding,
    ) -> Result<(), CallFault>
        ensures answers { (items : List EndItem) (at : ℕ) (rest : List ℕ) → Stands self.old items at rest →
            Answers self.old self.new items at rest (Attaches key (record { framing = framing; encoding = encoding })) (λ _. Unit {0}) result }
        ensures stopped { RefusesStopped self.old self.new result }
        ensures terms { KeepsTerms self.old.mux self.new.mux }
    {
        self.check_stopped()?;
        let view = self.check_attachable(key)?;
        match self.attach_to(key, view.completed, framing, encoding) {
            Ok(()) => Ok(()),
            Err(_) => {
                self.stop();
                Err(CallFault::OutOfMemory)
            }
        }
    }

    /// Refuses a channel to which no connection can be attached, and shows another.
    fn check_attachable(&self, key: ChannelKey) -> Result<ChannelView, CallFault>
        ensures alone { IfOk result (λ _. connection_at key self.now.connections ≡ None) }
        ensures shows { (items : List EndItem) (at : ℕ) (rest : List ℕ) → Stands self.now items at rest →
            Shows (attach_refusal self.now.mux.version key items) (view_of self.now.mux.version key (mux_of self.now.mux.version items)) result }
    {
        if let EndState::Ended(cause) = self.mux.state() {
            return Err(CallFault::Refused(Refusal::Ended(cause)));
        }
        let Some(view) = self.mux.view(key) else {
            return Err(CallFault::Refused(Refusal::NoChannel));
        };
        match phase_refusal(view.phase, self.place_of(key).is_some()) {
            Some(refusal) => Err(CallFault::Refused(refusal)),
            None => Ok(view),
        }
    }

    /// A connection begins on a channel that has none.
    fn attach_to(
        &mut self,
        key: ChannelKey,
        completed: bool,
        framing: Framing,
        encoding: Encoding,
    ) -> Result<(), OutOfMemory>
        requires { connection_at key self.old.connections ≡ None }
        ensures adds { (items : List EndItem) (at : ℕ) (rest : List ℕ) → Stands self.old items at rest → attach_refusal self.old.mux.version key items ≡ None → completed ≡ is_completed self.old.mux.version key (mux_of self.old.mux.version items) →
            OnOk result (Adds self.old self.new items at rest (Attach key (record { framing = framing; encoding = encoding }))) }
        ensures terms { KeepsTerms self.old.mux self.new.mux }
    {
        let mut end = begin(&mut self.mux, self.alloc, key, framing, encoding)?;
        answer_completion(&mut self.mux, key, completed, &mut end)?;
        self.insert(key, end)
    }

    /// A connection takes its place among the others.
    fn insert(&mut self, key: ChannelKey, end: RpcEnd) -> Result<(), OutOfMemory>
        requires { connection_at key self.old.connections ≡ None }
        ensures ok { OnOk result (self.new ≡ inserted key end self.old) }
        ensures err { OnErr result (self.new ≡ self.old) }
    {
        let mut place = 0;
        while place < self.connections.len() && precedes(self.connections[place].key, key) {
            place += 1;
        }
        self.connections.insert(place, Attached { key, end })?;
        Ok(())
    }
}

/// Why no connection can be attached to a kept channel.
fn phase_refusal(phase: Phase, in_use: bool) -> Option<Refusal>
    ensures { result ≡ phase_refusal phase in_use }
{
    match phase {
        Phase::Closing | Phase::Closed => Some(Refusal::NotOpen),
        Phase::Heard => Some(Refusal::NotAccepted),
        _ if in_use => Some(Refusal::Attached),
        _ => None,
    }
}

/// A connection that has read all that is unread on a channel.
fn begin(
    mux: &mut MuxEnd,
    alloc: Global,
    key: ChannelKey,
    framing: Framing,
    encoding: Encoding,
) -> Result<RpcEnd, OutOfMemory>
    ensures begins { (items : List Item) (at : ℕ) (rest : List ℕ) → MuxStands mux.old items at rest → read_refusal mux.old.version key items ≡ None → length (unread mux.old.version key items) ≤ most_bytes →
        IfOk result (BeginsOn mux.old mux.new items at rest key (record { framing = framing; encoding = encoding })) }
    ensures terms { KeepsTerms mux.old mux.new }
{
    let piece = read_all(mux, alloc, key)?;
    let mut end = RpcEnd::new(alloc, framing, encoding);
    end.feed(piece.as_slice())?;
    Ok(end)
}

/// Where the peer has completed, a connection ends, and writing is completed here too.
fn answer_completion(
    mux: &mut MuxEnd,
    key: ChannelKey,
    completed: bool,
    end: &mut RpcEnd,
) -> Result<(), OutOfMemory>
    ensures moves { (items : List Item) (at : ℕ) (rest : List ℕ) → MuxStands mux.old items at rest →
        MovesIf mux.old mux.new items (followed mux.old.version (if completed then complete_once key items else []) items) at rest result }
    ensures ends { (terms : Terms) (at : ℕ) (rest : List ℕ) → IsConnection terms [] at rest end.old → IsConnection terms (if completed then End Cause.PeerCompleted ∷ [] else []) at rest end.new }
    ensures terms { KeepsTerms mux.old mux.new }
{
    if !completed {
        return Ok(());
    }
    end.end(Cause::PeerCompleted);
    complete(mux, key)
}
