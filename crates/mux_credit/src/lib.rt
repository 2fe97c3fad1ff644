//! The credit law between two ends: definitions and laws, no code.
#![tactic(auto)]

mod laws;

pub use laws::{every_run_keeps_credit, two_ends_keep_credit};
