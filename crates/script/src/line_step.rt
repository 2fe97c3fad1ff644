//! What a line of a script asks for.

use endpoint_run::Step;

/// The step of a line, and how many bytes a `fill` writes in it.
#[derive(Debug, Drop)]
pub struct LineStep {
    pub step: Step,
    pub filled: u32,
}
