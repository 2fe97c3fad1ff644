//! An end of a multiplexing stream with connections for remote calls on its channels.

ghost use Rattle.call_table.specs.Table.{shown};
ghost use Rattle.endpoint.specs.Changes.{each_ended, finished, stopped, with_connections, with_output};
ghost use Rattle.endpoint.specs.Replies.{EndsBy, IsStarted};
ghost use Rattle.endpoint.specs.Stands.{Stands};
ghost use Rattle.endpoint_items.specs.Connections.{items_of, was_attached};
ghost use Rattle.endpoint_items.specs.Items.{EndItem};
ghost use Rattle.endpoint_items.specs.Layers.{mux_of, rpc_of};
ghost use Rattle.endpoint_items.specs.Outcomes.{outcome_on};
ghost use Rattle.marshalled_handles.specs.Numbers.{adopted_numbers};
ghost use Rattle.marshalled_handles.specs.Stands.{standing};
ghost use Rattle.mux_end.specs.Replies.{KeepsTerms};
ghost use Rattle.mux_items.specs.Bodies.{same_key};
ghost use Rattle.mux_items.specs.Items.{ended};
ghost use Rattle.mux_items.specs.Refusals.{is_ready};
ghost use Rattle.mux_items.specs.Views.{known_keys, tally_of, view_of};
ghost use Rattle.rpc_items.specs.Drawn.{drawn};
ghost use Rattle.rpc_items.specs.Made.{last_handle};
ghost use Rattle.std.specs.List.{position};
ghost use Rattle.std.specs.Prelude.{◌≡◌, ◌≤◌, IfOk, List, drop, false, length, slice_get, ℕ};

use crate::attached::Attached;
use mux_end::{ChannelKey, ChannelView, MuxEnd, Tally, same_key};
use mux_items::NONCE_SIZE;
use rpc_end::{HandleKey, Look};
use std::alloc::Global;
use std::marker::Model;
use wire_base::{CallFault, Cause, EndState, OutOfMemory, Version};

/// An end of a multiplexing stream with connections for remote calls on its channels.
#[derive(Drop)]
pub struct Endpoint {
    pub(crate) alloc: Global,
    pub(crate) mux: MuxEnd,
    /// Those of own channels before those of the peer's, each side's by rising id.
    pub(crate) connections: Vec<Attached>,
    /// Whether memory ran out.
    pub(crate) stopped: bool,
}

impl Model for Endpoint {
    ghost use Rattle.call_table.specs.Codes.{coded_table};
    ghost use Rattle.enumerables.specs.Codes.{coded_followed, coded_sequences};
    ghost use Rattle.endpoint.specs.Value.{AreOfOne, EndpointValue, value_in};
    ghost use Rattle.marshalled_handles.specs.Codes.{coded_held, coded_made};
    ghost use Rattle.std.specs.Coded.{codes};

    ghost Value = { EndpointValue };

    ghost coded = { Prim.hlevel (codes, coded_table, coded_sequences, coded_followed, coded_made, coded_held) };

    ghost view = { λ e. value_in e.mux e.connections.items e.stopped };

    ghost invariant = { λ e. AreOfOne e.connections.items };
}

impl Endpoint {
    /// An end without channels, whose output is its hello.
    pub fn start(
        alloc: Global,
        version: Version,
        nonce: [u8; NONCE_SIZE],
    ) -> Result<Endpoint, OutOfMemory>
        ensures { IfOk result (IsStarted version nonce) }
    {
        Ok(Endpoint {
            alloc,
            mux: MuxEnd::start(alloc, version, nonce)?,
            connections: Vec::new(alloc),
            stopped: false,
        })
    }

    /// What this end has to send.
    pub fn pending_output(&self) -> &[u8]
        ensures { result.now ≡ self.now.mux.output }
    {
        self.mux.pending_output()
    }

    /// The first `n` bytes of the output were sent.
    pub fn took(&mut self, n: usize)
        requires { n ≤ length self.old.mux.output }
        ensures { self.new ≡ with_output (drop n self.old.mux.output) self.old }
    {
        self.mux.took(n);
    }

    pub fn state(&self) -> EndState
        ensures { result ≡ self.now.state }
    {
        if self.stopped {
            return EndState::Stopped;
        }
        self.mux.state()
    }

    pub fn version(&self) -> Version
        ensures { result ≡ self.now.mux.version }
    {
        self.mux.version()
    }

    /// Whether the peer's handshake is applied where one is needed: version 3 has none.
    pub fn ready(&self) -> bool
        ensures { (items : List EndItem) (at : ℕ) (rest : List ℕ) → Stands self.now items at rest → result ≡ is_ready self.now.mux.version (mux_of self.now.mux.version items) }
    {
        self.mux.ready()
    }

    /// A kept channel as it stands.
    pub fn view(&self, key: ChannelKey) -> Option<ChannelView>
        ensures { (items : List EndItem) (at : ℕ) (rest : List ℕ) → Stands self.now items at rest → result ≡ view_of self.now.mux.version key (mux_of self.now.mux.version items) }
    {
        self.mux.view(key)
    }

    /// What came of a channel so far.
    pub fn tally(&self, key: ChannelKey) -> Option<Tally>
        ensures { (items : List EndItem) (at : ℕ) (rest : List ℕ) → Stands self.now items at rest → result ≡ tally_of self.now.mux.version key (mux_of self.now.mux.version items) }
    {
        self.mux.tally(key)
    }

    /// The i-th of the channels that were offered and not rejected: own ones by rising id, then the peer's.
    pub fn known(&self, i: usize) -> Option<ChannelKey>
        ensures { (items : List EndItem) (at : ℕ) (rest : List ℕ) → Stands self.now items at rest → result ≡ slice_get (known_keys (mux_of self.now.mux.version items)) i }
    {
        self.mux.known(i)
    }

    /// Whether a channel has or had a connection.
    pub fn has_connection(&self, key: ChannelKey) -> bool
        ensures { (items : List EndItem) (at : ℕ) (rest : List ℕ) → Stands self.now items at rest → result ≡ was_attached (rpc_of self.now.mux.version key items) }
    {
        self.place_of(key).is_some()
    }

    /// What can be told of a request of a connection, also after its channel is gone.
    pub fn outcome(&self, key: ChannelKey, n: u64) -> Look<'_>
        ensures { (items : List EndItem) (at : ℕ) (rest : List ℕ) → Stands self.now items at rest → shown result ≡ outcome_on false self.now.mux.version key n items }
    {
        match self.place_of(key) {
            Some(place) => self.connections[place].end.outcome(n),
            None => Look::NoRequest,
        }
    }

    /// The last number that was drawn for a request of a connection, 0 before the first.
    pub fn last_request(&self, key: ChannelKey) -> u64
        ensures { (items : List EndItem) (at : ℕ) (rest : List ℕ) → Stands self.now items at rest → result ≡ drawn (items_of (rpc_of self.now.mux.version key items)) }
    {
        match self.place_of(key) {
            Some(place) => self.connections[place].end.last_request(),
            None => 0,
        }
    }

    /// The last handle that was drawn for an object on a channel, 0 before the first. It takes no memory.
    pub fn last_handle(&self, key: ChannelKey) -> u64
        ensures { (items : List EndItem) (at : ℕ) (rest : List ℕ) → Stands self.now items at rest → result ≡ last_handle (items_of (rpc_of self.now.mux.version key items)) }
    {
        match self.place_of(key) {
            Some(place) => self.connections[place].end.last_handle(),
            None => 0,
        }
    }

    /// Whether a handle of the connection of a channel lives, where it was made or adopted. It takes no memory.
    pub fn handle(&self, channel: ChannelKey, key: HandleKey) -> Option<bool>
        ensures { (items : List EndItem) (at : ℕ) (rest : List ℕ) → Stands self.now items at rest → result ≡ standing key (items_of (rpc_of self.now.mux.version channel items)) }
    {
        let place = self.place_of(channel)?;
        self.connections[place].end.handle(key)
    }

    /// The handle of the peer at this place, from 0, among those that the connection of a channel adopted, by rising number. It
    /// takes no memory.
    pub fn peer_handle(&self, channel: ChannelKey, i: usize) -> Option<u64>
        ensures { (items : List EndItem) (at : ℕ) (rest : List ℕ) → Stands self.now items at rest → result ≡ slice_get (adopted_numbers (items_of (rpc_of self.now.mux.version channel items))) i }
    {
        let place = self.place_of(channel)?;
        self.connections[place].end.peer_handle(i)
    }

    /// The peer's stream has ended, and so have all connections. It takes no memory.
    pub fn end_of_input(&mut self)
        ensures answers { (items : List EndItem) (at : ℕ) (rest : List ℕ) → Stands self.old items at rest → EndsBy self.old self.new items at rest Cause.InputEnded (ended (mux_of self.old.mux.version items)) }
        ensures stopped { self.old.state ≡ EndState.Stopped → self.new ≡ self.old }
        ensures terms { KeepsTerms self.old.mux self.new.mux }
    {
        if let EndState::Running = self.state() {
            self.mux.end_of_input();
            self.end_all(Cause::InputEnded);
        }
    }

    /// Where the connection of a channel stands in the list.
    pub(crate) fn place_of(&self, key: ChannelKey) -> Option<usize>
        ensures { result ≡ position (λ attached. same_key key attached.key) self.now.connections }
    {
        self.connections
            .iter()
            .position(|attached| same_key(key, attached.key))
    }

    /// Each connection that runs ends.
    pub(crate) fn end_all(&mut self, cause: Cause)
        ensures { self.new ≡ with_connections (each_ended cause self.old.connections) self.old }
    {
        for attached in self.connections.iter_mut() {
            attached.end.end(cause);
        }
    }

    /// Memory ran out: requests without a response are starved.
    pub(crate) fn stop(&mut self)
        ensures { self.new ≡ stopped self.old }
    {
        self.stopped = true;
        for attached in self.connections.iter_mut() {
            attached.end.starve();
        }
    }

    /// What a call answers. After want of memory the end is stopped.
    pub(crate) fn finish<T>(&mut self, answer: Result<T, CallFault>) -> Result<T, CallFault>
        ensures answer { result ≡ answer }
        ensures state { self.new ≡ finished answer self.old }
    {
        match answer {
            Err(CallFault::OutOfMemory) => {
                self.stop();
                Err(CallFault::OutOfMemory)
            }
            answer => answer,
        }
    }
}
