//! The reports of runs.
#![tactic(auto)]

mod events;
mod requests;
mod running;
mod summary;
mod words;

pub use running::report;
pub use script::{Script, ScriptFault, ScriptReason, read_script};
