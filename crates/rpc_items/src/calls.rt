//! What a connection is asked to do, and what it tells.

ghost use Rattle.std.specs.Prelude.{◌≡◌, [], ◌∷◌, ◌++◌, length, slice_get, IfOk, OnOk, OnErr};
ghost use Rattle.std.specs.Option.{option_copied};

use crate::messages::Params;
use std::alloc::Global;
use std::marker::Model;
use wire_base::{Datum, DatumList, Id, OutOfMemory, PairList, Text};

/// What is made of the result of a request.
#[derive(Clone, Copy, Debug, PartialEq, Eq)]
pub enum Expect {
    /// A result is a value.
    Plain,
    /// A result that tells a token is kept as a sequence.
    Sequence,
}

/// How long a handle lives: until the request that carried it is answered, or until it is released.
#[derive(Clone, Copy, Debug, PartialEq, Eq)]
pub enum Lifetime {
    Call,
    Explicit,
}

/// A handle, and whether this end made it.
#[derive(Clone, Copy, Debug, PartialEq, Eq)]
pub struct HandleKey {
    pub number: u64,
    pub own: bool,
}

/// An argument in order.
#[derive(Debug, Drop)]
pub enum Arg {
    /// A value.
    Plain(Datum),
    /// The token by which the peer reports progress on this request.
    Progress,
    /// An object of the service, by its number there, which is offered by a handle.
    Object(u64, Lifetime),
    /// A handle of the peer, which goes back to its owner.
    Handed(u64),
}

/// Arguments in order.
#[derive(Debug, Drop)]
pub struct ArgList {
    items: Vec<Arg>,
}

impl Model for ArgList {
    ghost use Rattle.std.specs.Prelude.{List};
    ghost use Rattle.rpc_items.specs.declared.calls.Arg.{Arg};
    ghost use Rattle.rpc_items.specs.Codes.{coded_args};

    ghost Value = { List Arg };

    ghost coded = { coded_args };

    ghost view = { λ a. a.items.items };
}

impl ArgList {
    /// No argument. It takes no memory.
    pub fn new(alloc: Global) -> ArgList
        ensures { result ≡ [] }
    {
        ArgList {
            items: Vec::new(alloc),
        }
    }

    /// How many arguments there are.
    pub fn len(&self) -> usize
        ensures { result ≡ length self.now }
    {
        self.items.len()
    }

    /// The arguments as a slice.
    pub fn as_slice(&self) -> &[Arg]
        ensures { result.now ≡ self.now }
    {
        self.items.as_slice()
    }

    /// The argument at this index, from 0.
    pub fn get(&self, i: usize) -> Option<&Arg>
        ensures { option_copied result ≡ slice_get self.now i }
    {
        self.items.get(i)
    }

    /// Adds an argument at the end.
    pub fn push(&mut self, item: Arg) -> Result<(), OutOfMemory>
        ensures ok { OnOk result (self.new ≡ self.old ++ item ∷ []) }
        ensures err { OnErr result (self.new ≡ self.old) }
    {
        self.items.push(item)?;
        Ok(())
    }
}

/// The arguments of a call: none, in order, or by name.
#[derive(Debug, Drop)]
pub enum Arguments {
    Absent,
    List(ArgList),
    Named(PairList),
}

/// The answer to a request of the peer.
#[derive(Debug, Drop)]
pub enum Answer {
    /// A value.
    Value(Datum),
    /// An object of the service, by its number there, which is offered by a handle.
    Object(u64),
    /// Values that come in pages: how many make a page, and how many go with the result.
    Sequence(DatumList, u32, u32),
    /// An error: its code, its message and its data.
    Fault(i64, Text, Option<Datum>),
}

/// What became of a request.
#[derive(Debug, Drop)]
pub enum Outcome {
    /// The response was this result.
    Replied(Datum),
    /// The response was an error: its code, its message and its data.
    Failed(i64, Text, Option<Datum>),
    /// The connection ended before a response.
    Lost,
    /// The connection stopped before a response.
    Starved,
}

/// What a request of the peer calls.
#[derive(Clone, Copy, Debug, PartialEq, Eq)]
pub enum Target {
    /// The service.
    Root,
    /// An object of the service, and the handle by which it was called.
    Object(u64, u64),
}

/// What an applied message was to its connection.
#[derive(Debug, Drop)]
pub enum RpcEvent {
    /// A request that the service has to answer.
    Asked(Id, Target, Text, Params),
    /// A notification to the service.
    Told(Text, Params),
    /// The peer gave this request up, which isn't answered yet.
    Cancelled(Id),
    /// The first response to this own request.
    Answered(u64),
    /// A report on this own request, which is kept.
    Reported(u64),
    /// The peer released this own handle: the service drops its object.
    Released(HandleKey),
    /// A message with this method of the extensions, of which nothing else is told.
    Handled(Text),
    /// A response to no unanswered request.
    Stray,
}

fn copied(alloc: Global, value: &Option<Datum>) -> Result<Option<Datum>, OutOfMemory>
    ensures { IfOk result (λ d. d ≡ value.now) }
{
    match value {
        Some(value) => Ok(Some(value.copy(alloc)?)),
        None => Ok(None),
    }
}

impl Arg {
    /// An equal value of its own.
    pub fn copy(&self, alloc: Global) -> Result<Arg, OutOfMemory>
        ensures { IfOk result (λ a. a ≡ self.now) }
    {
        match self {
            Arg::Plain(value) => Ok(Arg::Plain(value.copy(alloc)?)),
            Arg::Progress => Ok(Arg::Progress),
            Arg::Object(object, lifetime) => Ok(Arg::Object(*object, *lifetime)),
            Arg::Handed(handle) => Ok(Arg::Handed(*handle)),
        }
    }
}

impl ArgList {
    /// An equal value of its own.
    pub fn copy(&self, alloc: Global) -> Result<ArgList, OutOfMemory>
        ensures { IfOk result (λ a. a ≡ self.now) }
    {
        let mut out = ArgList::new(alloc);
        for arg in self.items.iter() {
            let arg = arg.copy(alloc)?;
            out.push(arg)?;
        }
        Ok(out)
    }
}

impl Arguments {
    /// An equal value of its own.
    pub fn copy(&self, alloc: Global) -> Result<Arguments, OutOfMemory>
        ensures { IfOk result (λ a. a ≡ self.now) }
    {
        match self {
            Arguments::Absent => Ok(Arguments::Absent),
            Arguments::List(args) => Ok(Arguments::List(args.copy(alloc)?)),
            Arguments::Named(args) => Ok(Arguments::Named(args.copy(alloc)?)),
        }
    }
}

impl Answer {
    /// An equal value of its own.
    pub fn copy(&self, alloc: Global) -> Result<Answer, OutOfMemory>
        ensures { IfOk result (λ a. a ≡ self.now) }
    {
        match self {
            Answer::Value(value) => Ok(Answer::Value(value.copy(alloc)?)),
            Answer::Object(object) => Ok(Answer::Object(*object)),
            Answer::Sequence(values, page, first) => {
                Ok(Answer::Sequence(values.copy(alloc)?, *page, *first))
            }
            Answer::Fault(code, text, more) => {
                let text = text.copy(alloc)?;
                Ok(Answer::Fault(*code, text, copied(alloc, more)?))
            }
        }
    }
}

impl Outcome {
    /// An equal value of its own.
    pub fn copy(&self, alloc: Global) -> Result<Outcome, OutOfMemory>
        ensures { IfOk result (λ o. o ≡ self.now) }
    {
        match self {
            Outcome::Replied(value) => Ok(Outcome::Replied(value.copy(alloc)?)),
            Outcome::Failed(code, text, more) => {
                let text = text.copy(alloc)?;
                Ok(Outcome::Failed(*code, text, copied(alloc, more)?))
            }
            Outcome::Lost => Ok(Outcome::Lost),
            Outcome::Starved => Ok(Outcome::Starved),
        }
    }
}
