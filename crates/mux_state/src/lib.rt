//! What one channel of one end is at a moment, and what an end keeps of all its channels: every rule of channels is a
//! rule of these.
#![tactic(auto)]

mod due;
mod laws;

pub use due::Due;
pub use laws::{
    a_book_is_sound, a_channel_sends, a_channel_steps, a_state_tells, an_end_is_its_book,
    frames_go_one_by_one,
};
