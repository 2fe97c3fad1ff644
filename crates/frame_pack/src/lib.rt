//! Frames of versions 2 and 3, which are arrays of MessagePack tokens.
#![tactic(auto)]

mod codec;
mod fits;
mod numbers;
mod payload;
mod reading;
mod writing;

pub use codec::PackCodec;
