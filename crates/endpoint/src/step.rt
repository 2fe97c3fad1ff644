//! What a step of an end answers.

use endpoint_items::EndEvent;
use wire_base::Cause;

/// What a step of an end answers.
#[derive(Debug, Drop)]
pub enum EndStep {
    Event(EndEvent),
    /// No message and no frame is whole.
    Short,
    Ended(Cause),
    Stopped,
    OutOfMemory,
}
