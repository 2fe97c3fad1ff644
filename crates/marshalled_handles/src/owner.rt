//! The handles that this end made.

ghost use Rattle.marshalled_handles.specs.Arguments.{is_object, objects_refusal, offered_all};
ghost use Rattle.marshalled_handles.specs.Owner.{all_ended, answered, end_in, ending, object_in, offered, released, room_refusal};
ghost use Rattle.marshalled_handles.specs.Replies.{seen_refusal};
ghost use Rattle.marshalled_handles.specs.Stands.{IsRelease, OwnerStands, end_after, many_refusal, own_object};
ghost use Rattle.rpc_items.specs.Checks.{Checks};
ghost use Rattle.rpc_items.specs.Drawn.{with_number};
ghost use Rattle.rpc_items.specs.Items.{Did, End, Got, Release, RpcItem};
ghost use Rattle.rpc_items.specs.Keys.{own_key};
ghost use Rattle.rpc_items.specs.Made.{last_handle, until_answer};
ghost use Rattle.rpc_items.specs.Outcomes.{response_in};
ghost use Rattle.rpc_items.specs.Refusals.{handle_refusal};
ghost use Rattle.rpc_items.specs.declared.calls.Outcome.{Outcome};
ghost use Rattle.rpc_items.specs.declared.messages.Message.{Message};
ghost use Rattle.std.specs.Option.{option_copied};
ghost use Rattle.std.specs.Prelude.{◌≡◌, ◌∷◌, [], List, OnErr, OnOk, Some, filter, length, ℕ};
ghost use Rattle.wire_base.specs.Lists.{changed_at};
ghost use Rattle.wire_base.specs.declared.state.Cause.{Cause};

use crate::own_handle::OwnHandle;
use rpc_items::{Arg, Lifetime, MOST_DRAWN};
use std::alloc::Global;
use std::marker::Model;
use wire_base::{OutOfMemory, Refusal};

/// The most handles that are made.
const MOST_HANDLES: usize = MOST_DRAWN as usize;

/// Whether an argument is an object.
fn is_object(arg: &Arg) -> bool
    ensures { result ≡ is_object arg.now }
{
    matches!(arg, Arg::Object(_, _))
}

/// How many arguments are objects.
fn objects_in(args: &[Arg]) -> usize
    ensures { result ≡ length (filter is_object args.now) }
{
    args.iter().filter(|arg| is_object(arg)).count()
}

/// The request with whose response a handle of this lifetime ends.
fn until_answer(lifetime: Lifetime, request: Option<u64>) -> Option<u64>
    ensures { result ≡ until_answer lifetime request }
{
    match lifetime {
        Lifetime::Call => request,
        Lifetime::Explicit => None,
    }
}

/// The handles that this end made, numbered from 1 in the order in which they were drawn.
#[derive(Drop)]
pub struct Owner {
    /// Handle 1 first.
    handles: Vec<OwnHandle>,
}

impl Model for Owner {
    ghost use Rattle.marshalled_handles.specs.Codes.{coded_made};
    ghost use Rattle.marshalled_handles.specs.declared.own_handle.OwnHandle.{OwnHandle};
    ghost use Rattle.std.specs.Prelude.{List};

    ghost Value = { List OwnHandle };

    ghost coded = { coded_made };

    ghost view = { λ o. o.handles.items };
}

impl Owner {
    /// No handle. It takes no memory.
    pub fn new(alloc: Global) -> Owner
        ensures value { result ≡ [] }
        ensures stands { OwnerStands result [] }
    {
        Owner {
            handles: Vec::new(alloc),
        }
    }

    /// The last handle that was drawn, 0 before the first.
    pub fn drawn(&self) -> u64
        ensures value { result ≡ length self.now }
        ensures stands { (items : List RpcItem) → OwnerStands self.now items → result ≡ last_handle items }
    {
        self.handles.len() as u64
    }

    /// Whether so many more handles can be made. It takes no memory.
    pub fn check(&self, count: usize) -> Result<(), Refusal>
        ensures value { Checks (room_refusal count self.now) result }
        ensures stands { (items : List RpcItem) → OwnerStands self.now items → Checks (many_refusal count items) result }
    {
        self.room(count)
    }

    /// Whether so many more handles can be made.
    fn room(&self, count: usize) -> Result<(), Refusal>
        ensures { Checks (room_refusal count self.now) result }
    {
        if MOST_HANDLES < self.handles.len().saturating_add(count) {
            return Err(Refusal::TooManyHandles);
        }
        Ok(())
    }

    /// Offers an object by the next handle, which may end with the response to an own request.
    pub fn offer(&mut self, object: u64, until: Option<u64>) -> Result<(), OutOfMemory>
        ensures ok { OnOk result (self.new ≡ offered (record { object = object; until = until }) self.old) }
        ensures err { OnErr result (self.new ≡ self.old) }
    {
        let handle = OwnHandle {
            object,
            until,
            ended: false,
        };
        self.handles.push(handle)?;
        Ok(())
    }

    /// Whether each object among arguments can get a handle. It takes no memory.
    pub fn check_arguments(&self, args: &[Arg]) -> Result<(), Refusal>
        ensures { Checks (objects_refusal args.now self.now) result }
    {
        self.room(objects_in(args))
    }

    /// Offers the objects among arguments by the next handles, left to right. Those of call lifetime end with the response to
    /// the own request that carries them.
    pub fn offer_all(&mut self, args: &[Arg], request: Option<u64>) -> Result<(), OutOfMemory>
        ensures ok { OnOk result (self.new ≡ offered_all request args.now self.old) }
    {
        for arg in args {
            self.offer_argument(arg, request)?;
        }
        Ok(())
    }

    /// Offers the object that an argument may be.
    fn offer_argument(&mut self, arg: &Arg, request: Option<u64>) -> Result<(), OutOfMemory>
        ensures ok { OnOk result (self.new ≡ offered_all request (arg.now ∷ []) self.old) }
    {
        match arg {
            Arg::Object(object, lifetime) => self.offer(*object, until_answer(*lifetime, request)),
            _ => Ok(()),
        }
    }

    /// The handle with this number.
    fn find(&self, number: u64) -> Option<&OwnHandle>
        ensures { option_copied result ≡ with_number number self.now }
    {
        if number == 0 {
            None
        } else {
            self.handles.get(number as usize - 1)
        }
    }

    /// The object of a handle, while it lives. It takes no memory.
    pub fn object(&self, number: u64) -> Option<u64>
        ensures value { result ≡ object_in number self.now }
        ensures stands { (items : List RpcItem) → OwnerStands self.now items → result ≡ own_object number items }
    {
        self.object_of(number)
    }

    /// The object of a handle, while it lives.
    fn object_of(&self, number: u64) -> Option<u64>
        ensures { result ≡ object_in number self.now }
    {
        match self.find(number) {
            Some(handle) if !handle.ended => Some(handle.object),
            _ => None,
        }
    }

    /// Whether a handle has ended, where it was made. It takes no memory.
    pub fn look(&self, number: u64) -> Option<bool>
        ensures value { result ≡ end_in number self.now }
        ensures stands { (items : List RpcItem) → OwnerStands self.now items → result ≡ end_after (own_key number) items }
    {
        self.end_of(number)
    }

    /// Whether a handle has ended, where it was made.
    fn end_of(&self, number: u64) -> Option<bool>
        ensures { result ≡ end_in number self.now }
    {
        match self.find(number) {
            Some(handle) => Some(handle.ended),
            None => None,
        }
    }

    /// Whether a handle can be released here. It takes no memory.
    pub fn check_handle(&self, number: u64) -> Result<(), Refusal>
        ensures value { Checks (seen_refusal (end_in number self.now)) result }
        ensures stands { (items : List RpcItem) → OwnerStands self.now items → Checks (handle_refusal (own_key number) items) result }
    {
        self.usable(number)
    }

    /// Whether a handle was made and lives.
    fn usable(&self, number: u64) -> Result<(), Refusal>
        ensures { Checks (seen_refusal (end_in number self.now)) result }
    {
        match self.end_of(number) {
            Some(false) => Ok(()),
            Some(true) => Err(Refusal::Released),
            None => Err(Refusal::NoHandle),
        }
    }

    /// Ends a handle, where it was made: it is released here or by the peer. It takes no memory.
    pub fn release(&mut self, number: u64)
        ensures value { self.new ≡ released number self.old }
        ensures stands { (items : List RpcItem) → OwnerStands self.old items → OwnerStands self.new (Did (Release (own_key number)) ∷ items) }
        ensures heard { (items : List RpcItem) (place : ℕ) (message : Message) → OwnerStands self.old items → IsRelease (own_key number) message →
            OwnerStands self.new (Got place message ∷ items) }
    {
        self.end(number);
    }

    /// A handle ends, where it was made.
    fn end(&mut self, number: u64)
        ensures { self.new ≡ released number self.old }
    {
        if number == 0 {
            return;
        }
        self.end_at(number as usize - 1);
    }

    /// The handle at this place ends, where there is one.
    fn end_at(&mut self, place: usize)
        ensures { self.new ≡ changed_at place ending self.old }
    {
        if place < self.handles.len() {
            self.handles[place].end();
        }
    }

    /// Ends the handles that do with the response to this own request. It takes no memory.
    pub fn answered(&mut self, request: u64)
        ensures value { self.new ≡ answered request self.old }
        ensures stands { (items : List RpcItem) (place : ℕ) (message : Message) (outcome : Outcome) → OwnerStands self.old items → response_in request message ≡ Some outcome →
            OwnerStands self.new (Got place message ∷ items) }
    {
        self.answer_each(request);
    }

    /// The response to this own request came.
    fn answer_each(&mut self, request: u64)
        ensures { self.new ≡ answered request self.old }
    {
        for handle in self.handles.iter_mut() {
            handle.answer(request);
        }
    }

    /// Ends every handle. It takes no memory.
    pub fn end_all(&mut self)
        ensures value { self.new ≡ all_ended self.old }
        ensures stands { (items : List RpcItem) (cause : Cause) → OwnerStands self.old items → OwnerStands self.new (End cause ∷ items) }
    {
        self.end_each();
    }

    /// No handle lives any longer.
    fn end_each(&mut self)
        ensures { self.new ≡ all_ended self.old }
    {
        for handle in self.handles.iter_mut() {
            handle.end();
        }
    }
}
