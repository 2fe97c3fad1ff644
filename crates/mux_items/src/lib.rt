//! What one end of a multiplexing stream is told and does, as a list of items, and what follows from such a list.
#![tactic(auto)]

mod call;
mod channel;
mod laws;
mod limits;
mod party;

pub use call::Call;
pub use channel::{ChannelKey, ChannelView, MuxEvent, Phase, Tally};
pub use laws::{
    channels_are_apart, counts_are_bounded, credit_is_told, frames_come_in_order,
    offers_draw_new_channels, reads_answer_what_was_taken, sent_is_emitted, taken_is_content,
    window_is_kept,
};
pub use limits::{
    ABSENT_WINDOW, GREATEST_WINDOW, LONGEST_NAME, MOST_BYTES, MOST_CHANNELS, MOST_OFFERS,
    MOST_WINDOWS, NONCE_SIZE, PIECE_SIZE,
};
pub use party::Party;
