//! What stands in a captured stream, as a text.
#![tactic(auto)]

mod greeting;
mod laws;
mod lines;
mod view;

pub use laws::view_has_the_frames;
pub use view::{ViewEnd, view_text};
