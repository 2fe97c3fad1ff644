//! Why a call of an end fails.

use crate::refusal::Refusal;

/// A call was refused, or memory ran out.
#[derive(Clone, Copy, Debug, PartialEq, Eq)]
pub enum CallFault {
    Refused(Refusal),
    OutOfMemory,
}
