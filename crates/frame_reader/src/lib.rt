//! The frames of a stream that comes in pieces.
#![tactic(auto)]

mod laws;
mod next_frame;
mod reader;

pub use laws::{frames_are_spelled, pieces_are_one_stream, stream_has_one_answer};
pub use next_frame::NextFrame;
pub use reader::FrameReader;
