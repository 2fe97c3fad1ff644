//! What is answered of the peer's handshake.

use mux_items::Party;
use wire_base::{Place, Reason};

/// What stands at the front of the peer's bytes.
#[derive(Clone, Copy, Debug, PartialEq, Eq)]
pub enum Shaken {
    /// A whole handshake: which ids are this end's own by it, and how many bytes it takes.
    Done(Party, usize),
    /// Too few bytes to tell.
    Short,
    /// A token at this place breaks a rule.
    Refused(Place, Reason),
}
