//! What stops the reader of a script.

ghost use Rattle.std.specs.Prelude.{◌≡◌};

use crate::reason::ScriptReason;
use wire_base::OutOfMemory;

/// What stops the reader of a script: the first broken line, counted from 1, and why, or want of memory.
#[derive(Clone, Copy, Debug, PartialEq, Eq)]
pub enum ScriptFault {
    Refused(u64, ScriptReason),
    OutOfMemory,
}

/// What stops the reader of a line.
#[derive(Clone, Copy, Debug, PartialEq, Eq)]
pub enum LineFault {
    Refused(ScriptReason),
    OutOfMemory,
}

impl From<OutOfMemory> for LineFault {
    ghost use Rattle.std.specs.Prelude.{◌≡◌};
    ghost use Rattle.script.specs.declared.fault.LineFault.TheVariants as line_fault;

    ghost from_gives = { λ _ e. e ≡ line_fault.OutOfMemory };

    fn from(_: OutOfMemory) -> Self {
        LineFault::OutOfMemory
    }
}

impl From<OutOfMemory> for ScriptFault {
    ghost use Rattle.std.specs.Prelude.{◌≡◌};
    ghost use Rattle.script.specs.declared.fault.ScriptFault.TheVariants as script_fault;

    ghost from_gives = { λ _ e. e ≡ script_fault.OutOfMemory };

    fn from(_: OutOfMemory) -> Self {
        ScriptFault::OutOfMemory
    }
}

impl LineFault {
    ghost use Rattle.script.specs.Given.{fault_at};

    /// The fault of the script whose line has this number.
    pub fn at(self, number: u64) -> ScriptFault
        ensures { result ≡ fault_at number self }
    {
        match self {
            LineFault::Refused(reason) => ScriptFault::Refused(number, reason),
            LineFault::OutOfMemory => ScriptFault::OutOfMemory,
        }
    }
}
