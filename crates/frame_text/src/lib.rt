//! How frames are spelled.
#![tactic(auto)]

mod codec;
mod front_laws;

pub use codec::FrameCodec;
pub use front_laws::{
    front_has_text, front_is_spelled, front_is_steady, front_refuses_the_first, front_stands_within,
};
