//! Frames of version 1, whose fields have fixed widths.
#![tactic(auto)]

mod codec;
mod fits;
mod reading;
mod writing;

pub use codec::V1Codec;
