//! What methods ask for.

use crate::calls::HandleKey;
use wire_base::{Datum, Id, Text};

/// What a method with its parameters asks for. A handle is named as the receiver names it.
#[derive(Debug, Drop)]
pub enum Meaning {
    /// A method of the service.
    Serves,
    /// The request with this id is given up.
    Cancels(Id),
    /// A report by this token, and its value.
    Reports(Id, Datum),
    /// The next page of the sequence with this token.
    Turns(Id),
    /// The sequence with this token is given up.
    Aborts(Id),
    /// This handle is released.
    Releases(HandleKey),
    /// A method of the object with this handle.
    Calls(u64, Text),
    /// An extension with other arguments.
    Mistakes,
    /// A reserved method that isn't known.
    Unknown,
}
