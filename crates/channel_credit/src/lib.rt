//! One channel as one end sees it: what was written and taken, how much of it may go, and where the channel stands.
#![tactic(auto)]

mod calls;
mod channel;
mod frames;
mod incoming;
mod outgoing;
mod queue;
mod refusals;
mod take_fault;
mod views;

pub use channel::Channel;
pub use mux_state::Due;
pub use refusals::is_bad_window;
pub use take_fault::TakeFault;
