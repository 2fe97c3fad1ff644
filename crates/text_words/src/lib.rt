//! The words of scripts and reports: how each is written, and what each is read as.
#![tactic(auto)]

mod channel_name;
mod json_texts;
mod laws;
mod push;
mod read;

pub use channel_name::{ChannelName, other_side};
pub use json_texts::{arguments, array, json, json_id, string};
pub use laws::words_are_read_as_written;
pub use push::{
    push_bytes, push_channel, push_decimal, push_hex, push_line_feed, push_owner, push_side,
    push_text,
};
pub use read::{
    byte, bytes, channel, count, encoding, expect, framing, limited_number, method, name, nonce,
    number, owner, side, signed, words,
};
