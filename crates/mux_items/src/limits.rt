//! How much an end sends, keeps and takes. Sizes are numbers of bytes.

use wire_base::MAX_FED;

/// A nonce has so many bytes.
pub const NONCE_SIZE: usize = 16;

/// The longest name of a channel that is offered.
pub const LONGEST_NAME: usize = 1024;

/// The greatest own window of a channel; the least is 1.
pub const GREATEST_WINDOW: u32 = 16_777_216;

/// The most that the own windows of kept channels are together.
pub const MOST_WINDOWS: u64 = 268_435_456;

/// The most channels that an end keeps.
pub const MOST_CHANNELS: usize = 1024;

/// The most channels that an end offers.
pub const MOST_OFFERS: u64 = 2_147_483_647;

/// The most bytes that are written on a channel, or fed to an end.
pub const MOST_BYTES: u64 = MAX_FED;

/// The most bytes of one content frame.
pub const PIECE_SIZE: usize = 20_480;

/// The window of an offer or an acceptance that names none.
pub const ABSENT_WINDOW: u64 = 102_400;
