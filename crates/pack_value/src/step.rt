use wire_base::{Datum, Place, Reason};

/// What decoding the front of some bytes answers.
#[derive(Debug, Drop)]
pub enum Step {
    /// A value, and how many bytes spell it.
    Got(Datum, usize),
    /// The bytes end before their value does.
    Short,
    /// The place of the refused token's first byte.
    Refused(Place, Reason),
    OutOfMemory,
}
