//! One end of a connection.

ghost use Rattle.call_table.specs.Table.{shown};
ghost use Rattle.rpc_end.specs.Ends.{if_running, with_end, with_output, with_stop};
ghost use Rattle.rpc_end.specs.Replies.{EndsBy, IsBegun};
ghost use Rattle.rpc_end.specs.Stands.{RpcStands};
ghost use Rattle.marshalled_handles.specs.Numbers.{adopted_numbers};
ghost use Rattle.marshalled_handles.specs.Stands.{standing};
ghost use Rattle.rpc_items.specs.Drawn.{drawn};
ghost use Rattle.rpc_items.specs.Items.{RpcItem, ended};
ghost use Rattle.rpc_items.specs.Made.{last_handle};
ghost use Rattle.rpc_items.specs.Outcomes.{outcome};
ghost use Rattle.std.specs.Prelude.{◌≡◌, ◌≤◌, List, drop, false, length, slice_get, ℕ};

use crate::terms::Terms;
use call_table::{CallTable, Look};
use enumerables::{Consumer, Producer};
use marshalled_handles::{Holder, Owner, standing};
use message_body::Encoding;
use message_framing::{Framing, MessageReader};
use rpc_items::HandleKey;
use std::alloc::Global;
use std::marker::Model;
use wire_base::{Cause, EndState};

/// One end of a connection for remote calls.
#[derive(Drop)]
pub struct RpcEnd {
    pub(crate) alloc: Global,
    pub(crate) terms: Terms,
    pub(crate) table: CallTable,
    pub(crate) producer: Producer,
    pub(crate) consumer: Consumer,
    pub(crate) owner: Owner,
    pub(crate) holder: Holder,
    pub(crate) output: Vec<u8>,
    pub(crate) reader: MessageReader,
    pub(crate) state: EndState,
}

impl Model for RpcEnd {
    ghost use Rattle.rpc_end.specs.Ends.{value_in};
    ghost use Rattle.rpc_end.specs.Sound.{IsSound};
    ghost use Rattle.rpc_end.specs.Stands.{RpcValue};
    ghost use Rattle.std.specs.Coded.{codes};
    ghost use Rattle.call_table.specs.Codes.{coded_table};
    ghost use Rattle.enumerables.specs.Codes.{coded_followed, coded_sequences};
    ghost use Rattle.marshalled_handles.specs.Codes.{coded_held, coded_made};

    ghost Value = { RpcValue };

    ghost coded = { Prim.hlevel (codes, coded_table, coded_sequences, coded_followed, coded_made, coded_held) };

    ghost view = { λ e. value_in e.terms e.table e.producer e.consumer e.owner e.holder e.output.items e.reader e.state };

    ghost invariant = { λ e. IsSound e.terms e.producer e.reader };
}

impl RpcEnd {
    /// A connection with nothing begun. It takes no memory.
    pub fn new(alloc: Global, framing: Framing, encoding: Encoding) -> RpcEnd
        ensures { IsBegun (record { framing = framing; encoding = encoding }) result }
    {
        RpcEnd {
            alloc,
            terms: Terms { framing, encoding },
            table: CallTable::new(alloc),
            producer: Producer::new(alloc),
            consumer: Consumer::new(alloc),
            owner: Owner::new(alloc),
            holder: Holder::new(alloc),
            output: Vec::new(alloc),
            reader: MessageReader::new(alloc, framing),
            state: EndState::Running,
        }
    }

    /// What this end has to send.
    pub fn pending_output(&self) -> &[u8]
        ensures { result.now ≡ self.now.output }
    {
        self.output.as_slice()
    }

    /// The first `n` bytes of the output were sent.
    pub fn took(&mut self, n: usize)
        requires { n ≤ length self.old.output }
        ensures { self.new ≡ with_output (drop n self.old.output) self.old }
    {
        self.output.drain(..n);
    }

    pub fn state(&self) -> EndState
        ensures { result ≡ self.now.state }
    {
        self.state
    }

    /// The last number that was drawn for a request, 0 before the first. It takes no memory.
    pub fn last_request(&self) -> u64
        ensures { (items : List RpcItem) (at : ℕ) (rest : List ℕ) → RpcStands self.now items at rest → result ≡ drawn items }
    {
        self.table.drawn()
    }

    /// What can be told of a request. It takes no memory.
    pub fn outcome(&self, n: u64) -> Look<'_>
        ensures { (items : List RpcItem) (at : ℕ) (rest : List ℕ) → RpcStands self.now items at rest → shown result ≡ outcome false n items }
    {
        self.table.outcome(n)
    }

    /// The last handle that was drawn for an object, 0 before the first. It takes no memory.
    pub fn last_handle(&self) -> u64
        ensures { (items : List RpcItem) (at : ℕ) (rest : List ℕ) → RpcStands self.now items at rest → result ≡ last_handle items }
    {
        self.owner.drawn()
    }

    /// Whether a handle lives, where it was made or adopted. It takes no memory.
    pub fn handle(&self, key: HandleKey) -> Option<bool>
        ensures { (items : List RpcItem) (at : ℕ) (rest : List ℕ) → RpcStands self.now items at rest → result ≡ standing key items }
    {
        standing(&self.owner, &self.holder, key)
    }

    /// The handle of the peer at this place, from 0, among those that were adopted, by rising number. It takes no memory.
    pub fn peer_handle(&self, i: usize) -> Option<u64>
        ensures { (items : List RpcItem) (at : ℕ) (rest : List ℕ) → RpcStands self.now items at rest → result ≡ slice_get (adopted_numbers items) i }
    {
        self.holder.number_at(i)
    }

    /// Ends a running connection: requests without a response are lost, no sequence goes on, and no handle lives. It takes no
    /// memory.
    pub fn end(&mut self, cause: Cause)
        ensures answers { (items : List RpcItem) (at : ℕ) (rest : List ℕ) → RpcStands self.old items at rest → EndsBy self.old self.new items at rest cause (ended items) }
        ensures value { self.new ≡ if_running self.old.state (with_end cause self.old) self.old }
    {
        if let EndState::Running = self.state {
            self.close(cause);
        }
    }

    /// A running connection stops, as it does where memory runs out: requests without a response are starved. It takes no memory.
    pub fn starve(&mut self)
        ensures { self.new ≡ if_running self.old.state (with_stop self.old) self.old }
    {
        if let EndState::Running = self.state {
            self.stop();
        }
    }

    /// A running connection ends.
    pub(crate) fn close(&mut self, cause: Cause)
        ensures { self.new ≡ with_end cause self.old }
    {
        self.table.lose_all();
        self.producer.end_all();
        self.consumer.end_all();
        self.owner.end_all();
        self.holder.end_all();
        self.state = EndState::Ended(cause);
    }

    /// Memory ran out: requests without a response are starved.
    pub(crate) fn stop(&mut self)
        ensures { self.new ≡ with_stop self.old }
    {
        self.table.starve_all();
        self.state = EndState::Stopped;
    }
}
