//! The handles that were adopted from the peer.

ghost use Rattle.marshalled_handles.specs.Arguments.{handed_refusal, is_over_arg, is_unknown_arg};
ghost use Rattle.marshalled_handles.specs.Holder.{AreRising, IsAt, IsGapFor, Keeps, adopting, adopting_all, adopting_if, adopting_member, adopting_offer, all_ended, end_in, found, number_at, released, responded};
ghost use Rattle.marshalled_handles.specs.Numbers.{adopted_numbers};
ghost use Rattle.marshalled_handles.specs.Replies.{seen_refusal};
ghost use Rattle.marshalled_handles.specs.Stands.{HolderStands, IsRelease, Offers, OffersOne, end_after};
ghost use Rattle.rpc_items.specs.Checks.{Checks};
ghost use Rattle.rpc_items.specs.Items.{Did, End, Got, Release, Respond, RpcItem};
ghost use Rattle.rpc_items.specs.Keys.{peer_key};
ghost use Rattle.rpc_items.specs.Objects.{last_values, offered_in, whole_arguments};
ghost use Rattle.rpc_items.specs.PeerHandles.{adopted_until};
ghost use Rattle.rpc_items.specs.Refusals.{handle_refusal};
ghost use Rattle.rpc_items.specs.declared.calls.Answer.{Answer};
ghost use Rattle.rpc_items.specs.declared.messages.Message.{Message};
ghost use Rattle.std.specs.List.{list_any};
ghost use Rattle.std.specs.Option.{option_copied};
ghost use Rattle.std.specs.Prelude.{◌≡◌, ◌∷◌, [], IfErr, IfOk, List, OnErr, OnOk, is_none, slice_get, ℕ};
ghost use Rattle.wire_base.specs.declared.state.Cause.{Cause};

use crate::members::is_named;
use crate::offered::{Offered, offered_in};
use crate::peer_handle::PeerHandle;
use rpc_items::{Arg, Lifetime, Params};
use std::alloc::Global;
use std::marker::Model;
use wire_base::{Datum, Id, OutOfMemory, PairList, Refusal, Text};

/// The handles that were adopted from the peer.
#[derive(Drop)]
pub struct Holder {
    alloc: Global,
    /// By rising number.
    handles: Vec<PeerHandle>,
}

impl Model for Holder {
    ghost use Rattle.marshalled_handles.specs.Codes.{coded_held};
    ghost use Rattle.marshalled_handles.specs.Holder.{AreRising};
    ghost use Rattle.marshalled_handles.specs.declared.peer_handle.PeerHandle.{PeerHandle};
    ghost use Rattle.std.specs.Prelude.{List};

    ghost Value = { List PeerHandle };

    ghost coded = { coded_held };

    ghost view = { λ h. h.handles.items };

    ghost invariant = { λ h. AreRising h.handles.items };
}

impl Holder {
    /// No handle. It takes no memory.
    pub fn new(alloc: Global) -> Holder
        ensures value { result ≡ [] }
        ensures stands { HolderStands result [] }
    {
        Holder {
            alloc,
            handles: Vec::new(alloc),
        }
    }

    /// Where the handle with this number is, or where it would go.
    fn search(&self, number: u64) -> Result<usize, usize>
        ensures at { IfOk result (IsAt self.now number) }
        ensures gap { IfErr result (IsGapFor self.now number) }
    {
        self.handles
            .binary_search_by_key(&number, |handle| handle.number)
    }

    /// The handle with this number.
    fn find(&self, number: u64) -> Option<&PeerHandle>
        ensures { option_copied result ≡ found number self.now }
    {
        match self.search(number) {
            Ok(place) => Some(&self.handles[place]),
            Err(_) => None,
        }
    }

    /// Whether a handle has ended, where it was adopted. It takes no memory.
    pub fn look(&self, number: u64) -> Option<bool>
        ensures value { result ≡ end_in number self.now }
        ensures stands { (items : List RpcItem) → HolderStands self.now items → result ≡ end_after (peer_key number) items }
    {
        self.end_of(number)
    }

    /// Whether a handle has ended, where it was adopted.
    fn end_of(&self, number: u64) -> Option<bool>
        ensures { result ≡ end_in number self.now }
    {
        match self.find(number) {
            Some(handle) => Some(handle.ended),
            None => None,
        }
    }

    /// The number at this place, from 0, where the numbers of all that were adopted stand by rising number.
    pub fn number_at(&self, place: usize) -> Option<u64>
        ensures value { result ≡ number_at place self.now }
        ensures stands { (items : List RpcItem) → HolderStands self.now items → result ≡ slice_get (adopted_numbers items) place }
    {
        self.number_of(place)
    }

    /// Refuses handles among arguments that can't go back to their owner. It takes no memory.
    pub fn check_arguments(&self, args: &[Arg]) -> Result<(), Refusal>
        ensures { Checks (handed_refusal args.now self.now) result }
    {
        if self.has_unknown(args) {
            return Err(Refusal::NoHandle);
        }
        if self.has_over(args) {
            return Err(Refusal::Released);
        }
        Ok(())
    }

    /// Whether one of the arguments is a handle that wasn't adopted.
    fn has_unknown(&self, args: &[Arg]) -> bool
        ensures { result ≡ list_any (is_unknown_arg self.now) args.now }
    {
        args.iter().any(|arg| self.is_unknown(arg))
    }

    /// Whether one of the arguments is a handle that has ended.
    fn has_over(&self, args: &[Arg]) -> bool
        ensures { result ≡ list_any (is_over_arg self.now) args.now }
    {
        args.iter().any(|arg| self.is_over(arg))
    }

    /// Whether an argument is a handle that wasn't adopted.
    fn is_unknown(&self, arg: &Arg) -> bool
        ensures { result ≡ is_unknown_arg self.now arg.now }
    {
        match arg {
            Arg::Handed(number) => self.end_of(*number).is_none(),
            _ => false,
        }
    }

    /// Whether an argument is a handle that has ended.
    fn is_over(&self, arg: &Arg) -> bool
        ensures { result ≡ is_over_arg self.now arg.now }
    {
        match arg {
            Arg::Handed(number) => matches!(self.end_of(*number), Some(true)),
            _ => false,
        }
    }

    /// The number at this place.
    fn number_of(&self, place: usize) -> Option<u64>
        ensures { result ≡ number_at place self.now }
    {
        match self.handles.get(place) {
            Some(handle) => Some(handle.number),
            None => None,
        }
    }

    /// Whether a handle can be called or released. It takes no memory.
    pub fn check_handle(&self, number: u64) -> Result<(), Refusal>
        ensures value { Checks (seen_refusal (end_in number self.now)) result }
        ensures stands { (items : List RpcItem) → HolderStands self.now items → Checks (handle_refusal (peer_key number) items) result }
    {
        self.usable(number)
    }

    /// Whether a handle was adopted and lives.
    fn usable(&self, number: u64) -> Result<(), Refusal>
        ensures { Checks (seen_refusal (end_in number self.now)) result }
    {
        match self.end_of(number) {
            Some(false) => Ok(()),
            Some(true) => Err(Refusal::Released),
            None => Err(Refusal::NoHandle),
        }
    }

    /// Adopts a handle, which may end with the response to the peer's request of this id. One that was adopted before stays
    /// as it is.
    pub fn adopt(&mut self, number: u64, until: Option<Id>) -> Result<(), OutOfMemory>
        ensures ok { OnOk result (self.new ≡ adopting number until self.old) }
        ensures err { OnErr result (self.new ≡ self.old) }
        ensures stands { (items : List RpcItem) (place : ℕ) (message : Message) → HolderStands self.old items → OffersOne number until message items →
            OnOk result (HolderStands self.new (Got place message ∷ items)) }
    {
        self.keep(number, until)
    }

    /// Keeps a handle that wasn't adopted before.
    fn keep(&mut self, number: u64, until: Option<Id>) -> Result<(), OutOfMemory>
        ensures ok { OnOk result (self.new ≡ adopting number until self.old) }
        ensures err { OnErr result (self.new ≡ self.old) }
    {
        match self.search(number) {
            Ok(_) => Ok(()),
            Err(place) => {
                let handle = PeerHandle {
                    number,
                    until,
                    ended: false,
                };
                self.handles.insert(place, handle)?;
                Ok(())
            }
        }
    }

    /// Adopts the object that a whole value offers, in a request or in another message. Where memory doesn't suffice, what was
    /// adopted stays as it was.
    pub fn adopt_value(&mut self, value: &Datum, request: Option<&Id>) -> Result<(), OutOfMemory>
        ensures ok { OnOk result (self.new ≡ adopting_all (option_copied request.entry) (value.now ∷ []) self.old) }
        ensures err { OnErr result (Keeps self.old self.new) }
        ensures stands { (items : List RpcItem) (place : ℕ) (message : Message) → HolderStands self.old items → Offers (option_copied request.entry) (value.now ∷ []) message items →
            OnOk result (HolderStands self.new (Got place message ∷ items)) }
    {
        self.keep_value(value, request)
    }

    /// Keeps the object that a whole value offers.
    fn keep_value(&mut self, value: &Datum, request: Option<&Id>) -> Result<(), OutOfMemory>
        ensures ok { OnOk result (self.new ≡ adopting_offer (option_copied request.entry) (offered_in value.now) self.old) }
        ensures err { OnErr result (self.new ≡ self.old) }
    {
        match offered_in(value) {
            Some(offered) => self.keep_offered(offered, request),
            None => Ok(()),
        }
    }

    /// Keeps an object that is offered: of call lifetime from a request alone.
    fn keep_offered(&mut self, offered: Offered, request: Option<&Id>) -> Result<(), OutOfMemory>
        ensures ok { OnOk result (self.new ≡ adopting_if offered.handle (adopted_until (option_copied request.entry) offered.lifetime) self.old) }
        ensures err { OnErr result (self.new ≡ self.old) }
    {
        match (offered.lifetime, request) {
            (Lifetime::Explicit, _) => self.keep(offered.handle, None),
            (Lifetime::Call, Some(id)) => {
                let id = id.copy(self.alloc)?;
                self.keep(offered.handle, Some(id))
            }
            (Lifetime::Call, None) => Ok(()),
        }
    }

    /// Adopts the objects that whole values offer, left to right, in a request or in another message. Where memory doesn't
    /// suffice, what was adopted stays as it was.
    pub fn adopt_all(&mut self, values: &[Datum], request: Option<&Id>) -> Result<(), OutOfMemory>
        ensures ok { OnOk result (self.new ≡ adopting_all (option_copied request.entry) values.now self.old) }
        ensures err { OnErr result (Keeps self.old self.new) }
        ensures stands { (items : List RpcItem) (place : ℕ) (message : Message) → HolderStands self.old items → Offers (option_copied request.entry) values.now message items →
            OnOk result (HolderStands self.new (Got place message ∷ items)) }
    {
        self.keep_values(values, request)
    }

    /// Keeps the objects that whole values offer.
    fn keep_values(&mut self, values: &[Datum], request: Option<&Id>) -> Result<(), OutOfMemory>
        ensures ok { OnOk result (self.new ≡ adopting_all (option_copied request.entry) values.now self.old) }
        ensures err { OnErr result (Keeps self.old self.new) }
    {
        for value in values {
            self.keep_value(value, request)?;
        }
        Ok(())
    }

    /// Adopts the objects that the whole arguments of a request or of a notification offer, left to right. Where memory doesn't
    /// suffice, what was adopted stays as it was.
    pub fn adopt_arguments(
        &mut self,
        params: &Params,
        request: Option<&Id>,
    ) -> Result<(), OutOfMemory>
        ensures ok { OnOk result (self.new ≡ adopting_all (option_copied request.entry) (whole_arguments params.now) self.old) }
        ensures err { OnErr result (Keeps self.old self.new) }
        ensures stands { (items : List RpcItem) (place : ℕ) (message : Message) → HolderStands self.old items → Offers (option_copied request.entry) (whole_arguments params.now) message items →
            OnOk result (HolderStands self.new (Got place message ∷ items)) }
    {
        self.keep_arguments(params, request)
    }

    /// Keeps the objects that whole arguments offer.
    fn keep_arguments(&mut self, params: &Params, request: Option<&Id>) -> Result<(), OutOfMemory>
        ensures ok { OnOk result (self.new ≡ adopting_all (option_copied request.entry) (whole_arguments params.now) self.old) }
        ensures err { OnErr result (Keeps self.old self.new) }
    {
        match params {
            Params::Absent => Ok(()),
            Params::List(values) => self.keep_values(values.as_slice(), request),
            Params::Named(members) => self.keep_members(members, request),
        }
    }

    /// Keeps the objects that members offer, the last of a repeated key alone.
    fn keep_members(&mut self, members: &PairList, request: Option<&Id>) -> Result<(), OutOfMemory>
        ensures ok { OnOk result (self.new ≡ adopting_all (option_copied request.entry) (last_values members.now) self.old) }
        ensures err { OnErr result (Keeps self.old self.new) }
    {
        let members = members.as_slice();
        for (place, member) in members.iter().enumerate() {
            self.keep_member(member, &members[place + 1..], request)?;
        }
        Ok(())
    }

    /// Keeps the object that a member offers, where its key doesn't stand again behind it.
    fn keep_member(
        &mut self,
        member: &(Text, Datum),
        later: &[(Text, Datum)],
        request: Option<&Id>,
    ) -> Result<(), OutOfMemory>
        ensures ok { OnOk result (self.new ≡ adopting_member (option_copied request.entry) member.now later.now self.old) }
        ensures err { OnErr result (self.new ≡ self.old) }
    {
        if is_named(&member.0, later) {
            return Ok(());
        }
        self.keep_value(&member.1, request)
    }

    /// Ends a handle, where it was adopted: it is released here or by the peer. It takes no memory.
    pub fn release(&mut self, number: u64)
        ensures value { self.new ≡ released number self.old }
        ensures stands { (items : List RpcItem) → HolderStands self.old items → HolderStands self.new (Did (Release (peer_key number)) ∷ items) }
        ensures heard { (items : List RpcItem) (place : ℕ) (message : Message) → HolderStands self.old items → IsRelease (peer_key number) message →
            HolderStands self.new (Got place message ∷ items) }
    {
        self.end(number);
    }

    /// A handle ends, where it was adopted.
    fn end(&mut self, number: u64)
        ensures { self.new ≡ released number self.old }
    {
        match self.search(number) {
            Ok(place) => self.handles[place].end(),
            Err(_) => {}
        }
    }

    /// Ends the handles that do with the response to the peer's request of this id. It takes no memory.
    pub fn responded(&mut self, id: &Id)
        ensures value { self.new ≡ responded id.now self.old }
        ensures stands { (items : List RpcItem) (response : Answer) → HolderStands self.old items → HolderStands self.new (Did (Respond id.now response) ∷ items) }
    {
        self.respond_each(id);
    }

    /// The peer's request of this id is answered.
    fn respond_each(&mut self, id: &Id)
        ensures { self.new ≡ responded id.now self.old }
    {
        for handle in self.handles.iter_mut() {
            handle.respond(id);
        }
    }

    /// Ends every handle. It takes no memory.
    pub fn end_all(&mut self)
        ensures value { self.new ≡ all_ended self.old }
        ensures stands { (items : List RpcItem) (cause : Cause) → HolderStands self.old items → HolderStands self.new (End cause ∷ items) }
    {
        self.end_each();
    }

    /// No handle lives any longer.
    fn end_each(&mut self)
        ensures { self.new ≡ all_ended self.old }
    {
        for handle in self.handles.iter_mut() {
            handle.end();
        }
    }
}
