//! Sequences that come in pages: those that this end answered, by their tokens, and those that are results of its own
//! requests.
#![tactic(auto)]

mod consumer;
mod followed;
mod left;
mod pages;
mod producer;
mod sequence;

pub use consumer::Consumer;
pub use pages::{is_last_page, page_value, sequence_value, token_of};
pub use producer::Producer;
