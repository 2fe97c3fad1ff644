//! Limits that readers and writers keep.

/// An id of version 2 or 3, a window and a count are below 2^63.
pub const COUNT_LIMIT: u64 = 0x8000_0000_0000_0000;

/// A payload of version 2 or 3 has at most so many bytes.
pub const MAX_PAYLOAD: u32 = 0x10_0000;

/// A payload of version 1 has at most so many bytes.
pub const MAX_PLAIN_PAYLOAD: u32 = 0xffff;

/// No frame of version 2 or 3 is longer, in whatever widths: a payload and five heads of at most 17 bytes.
pub const FRAME_BOUND: u32 = MAX_PAYLOAD + 5 * 17;

/// An id of version 1 is below 2^32.
pub const PLAIN_ID_LIMIT: u64 = 0x1_0000_0000;

/// The first byte of what is decoded stands at this place at most.
pub const MAX_PLACE: u64 = 0x8000_0000_0000_0000;

/// At most so many bytes are fed from one stream.
pub const MAX_FED: u64 = 0x4000_0000_0000_0000;

/// Arrays and maps stand in one another at most so deep.
pub const MAX_NESTING: u32 = 127;

/// A message's body has at most so many bytes.
pub const MAX_BODY: u32 = 16_777_216;
