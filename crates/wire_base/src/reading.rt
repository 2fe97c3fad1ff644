//! What ends a reading.

ghost use Rattle.wire_base.specs.declared.reading.DecodeError.TheVariants as errors;
ghost use Rattle.std.specs.Prelude.{◌≡◌};

use crate::out_of_memory::OutOfMemory;
use crate::reason::Reason;

/// What ends a reading before its end.
#[derive(Clone, Copy, Debug, PartialEq, Eq)]
pub enum Fault {
    /// The bytes end inside a token.
    Ends,
    /// A token that begins so many bytes before their end breaks a rule.
    Breaks(usize, Reason),
}

/// Why a reader of the code gave up.
#[derive(Clone, Copy, Debug, PartialEq, Eq)]
pub enum DecodeError {
    Memory,
    Fault(Fault),
}

impl From<OutOfMemory> for DecodeError {
    ghost from_gives = { λ _ e. e ≡ errors.Memory };

    fn from(_: OutOfMemory) -> DecodeError {
        DecodeError::Memory
    }
}

impl From<Fault> for DecodeError {
    ghost from_gives = { λ fault e. e ≡ errors.Fault fault };

    fn from(fault: Fault) -> DecodeError {
        DecodeError::Fault(fault)
    }
}
