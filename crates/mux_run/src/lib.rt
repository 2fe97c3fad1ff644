//! Two ends and the bytes between them: the steps that are made, the run of such steps, and what holds of every run.
#![tactic(auto)]

mod laws;
mod steps;

pub use laws::{an_ended_side_stays, every_run_is_safe, moments_are_between};
pub use mux_items::Call;
pub use steps::{Side, Step};
