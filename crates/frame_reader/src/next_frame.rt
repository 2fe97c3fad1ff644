//! What a reader answers.

use wire_base::{Frame, Place, Reason};

/// What a reader of frames answers.
#[derive(Debug, Drop)]
pub enum NextFrame {
    /// The next frame, and the place of its first byte.
    Frame(Place, Frame),
    /// The bytes that are left are less than a frame: too few bytes to tell.
    Short,
    /// A token at this place breaks a rule. The reader answers so for good, whatever it is fed.
    Refused(Place, Reason),
    OutOfMemory,
}
