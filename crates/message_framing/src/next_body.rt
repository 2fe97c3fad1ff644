//! What a reader answers.

use wire_base::{Blob, Place, Reason};

/// What a reader of messages answers.
#[derive(Debug, Drop)]
pub enum NextBody {
    /// The next body, and the place of its first byte.
    Body(Place, Blob),
    /// The bytes that are left are less than a framed message, and may begin one.
    Short,
    /// A rule is broken at this place. The reader answers so for good, whatever it is fed.
    Refused(Place, Reason),
    OutOfMemory,
}
