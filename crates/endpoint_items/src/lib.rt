//! What an end with connections for remote calls is told and does, as a list of items, and what follows from such a list.
#![tactic(auto)]

mod call;
mod event;
mod laws;
mod reply;

pub use call::Call;
pub use event::EndEvent;
pub use laws::{
    attached_channels_are_open, calls_and_messages_keep_the_rules, connections_grow,
    messages_are_taken_in_order, messages_lie_in_what_was_read, nothing_that_follows_is_refused,
    outcomes_are_kept, requests_are_answered_once, what_is_read_is_joined,
    what_is_said_can_be_written, what_is_said_is_written,
};
pub use reply::Reply;
