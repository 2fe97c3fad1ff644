//! What a table answers.

use rpc_items::{Expect, Outcome};
use wire_base::Id;

/// What can be told of a request.
#[derive(Debug)]
pub enum Look<'a> {
    Known(&'a Outcome),
    NotYet,
    NoRequest,
}

/// What a response is to the requests of this end.
#[derive(Clone, Copy, Debug, PartialEq, Eq)]
pub enum Settled {
    /// The first response to this request, with what is made of its result.
    First(u64, Expect),
    /// A response to no unanswered request.
    Stray,
}

/// What a request of the peer is to those that wait.
#[derive(Debug, Drop)]
pub enum Heard {
    New,
    /// A request with this id waits already.
    Duplicate(Id),
    OutOfMemory,
}
