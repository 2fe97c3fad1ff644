//! Why bytes are no message.

use wire_base::Reason;

/// Why bytes are no message: a rule that is broken at this offset, or want of memory.
#[derive(Clone, Copy, Debug, PartialEq, Eq)]
pub enum BodyFault {
    Refused(usize, Reason),
    OutOfMemory,
}
