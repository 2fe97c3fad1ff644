//! Values as JSON, both ways.
#![tactic(auto)]

mod fault;
mod laws;
mod reader;
mod writer;

pub use fault::{JsonFault, JsonWrite};
pub use laws::{norms_are_normal, readings_are_one, shown_is_read, written_is_read};
pub use reader::read;
pub use writer::{show, write};
