//! One end of a multiplexing stream.
#![tactic(auto)]

mod arriving;
mod book;
mod calls;
mod channel_call;
mod channels;
mod emission;
mod end;
mod frames;
mod heeding;
mod known;
mod party;
mod step;

pub use end::MuxEnd;
pub use mux_items::{ChannelKey, ChannelView, MuxEvent, Phase, Tally};
pub use party::{precedes, same_key};
pub use step::MuxStep;
