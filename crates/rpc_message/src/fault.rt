//! Why a value is read as no message.

ghost use Rattle.std.specs.Prelude.{◌≡◌};
ghost use Rattle.rpc_message.specs.declared.fault.MessageFault.TheVariants as faults;

use wire_base::{OutOfMemory, Reason};

/// A value breaks this rule of messages, or memory ran out.
#[derive(Clone, Copy, Debug, PartialEq, Eq)]
pub enum MessageFault {
    Refused(Reason),
    OutOfMemory,
}

impl From<OutOfMemory> for MessageFault {
    ghost from_gives = { λ _ fault. fault ≡ faults.OutOfMemory };

    fn from(_: OutOfMemory) -> Self {
        MessageFault::OutOfMemory
    }
}
