use mux_items::MuxEvent;
use wire_base::Cause;

/// What a step of an end answers.
#[derive(Clone, Copy, Debug, PartialEq, Eq)]
pub enum MuxStep {
    /// A frame was applied.
    Event(MuxEvent),
    /// No frame is whole.
    Short,
    Ended(Cause),
    Stopped,
    OutOfMemory,
}
