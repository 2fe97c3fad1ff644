//! A limit that both directions keep.

/// The greatest length of a text, of bytes, of an array and of a map.
pub const MAX_LEN: u32 = 16_777_216;
