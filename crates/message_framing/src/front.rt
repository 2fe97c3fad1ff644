use wire_base::Reason;

/// What stands at the front of bytes that are framed messages.
#[derive(Clone, Copy, Debug, PartialEq, Eq)]
pub enum Front {
    /// A body whose first byte stands at this offset, and its size.
    Whole(usize, usize),
    /// Too few bytes to tell.
    Short,
    /// A rule is broken at this offset.
    Broken(usize, Reason),
}
