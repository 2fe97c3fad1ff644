//! Whether a sequence can be answered: each of its pages has to be one that can be written in every response.
#![tactic(auto)]

mod laws;
mod limits;

pub use laws::{sequences_are_refused_in_order, tested_pages_fit};
pub use limits::{check_pages, check_values};
