//! The codec of a version that is known only as the program runs.
#![tactic(auto)]

mod codec;

pub use codec::AnyCodec;
