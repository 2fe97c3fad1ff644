//! Two ends with connections for remote calls, and the bytes between them: the run of a list of steps.
#![tactic(auto)]

mod answers;
mod laws;
mod steps;

pub use answers::{DuoAnswer, EventList, SideEvent};
pub use endpoint_items::{Call, EndEvent, Reply};
pub use laws::{
    every_run_applies_what_was_delivered, every_run_exchanges_messages, every_run_is_a_finer_run,
    every_run_is_safe, every_run_keeps_the_rules, every_run_lets_handles_rest,
    every_step_applies_all_that_is_whole, items_are_applied_one_by_one, items_are_only_added,
    quiet_runs_deliver_all, steps_tell_of_what_they_add,
};
pub use mux_run::Side;
pub use steps::{Step, StepList};
