//! Steps of two joined ends.

use mux_items::Call;

#[derive(Clone, Copy, Debug, PartialEq, Eq)]
pub enum Side {
    A,
    B,
}

/// A step: a call at a side, a delivery of at most so many bytes to a side, or the end of the stream into a side.
#[derive(Debug, Drop)]
pub enum Step {
    Call(Side, Call),
    Deliver(Side, u64),
    End(Side),
}
