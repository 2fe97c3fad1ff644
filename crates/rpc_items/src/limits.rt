//! Limits that both ends keep.

/// At most so many requests, tokens and handles each are made by one end.
pub const MOST_DRAWN: u64 = 4_294_967_295;

/// A text that is an id has at most so many bytes.
pub const LONGEST_ID: usize = 1024;
