//! What an end with connections answers to a call.

use mux_items::ChannelKey;
use rpc_end::Outcome;
use wire_base::{Blob, Datum, Refusal};

/// What a call answers.
#[derive(Debug, Drop)]
pub enum Reply {
    Done,
    /// The channel that was offered.
    Made(ChannelKey),
    /// The bytes that were read.
    Bytes(Blob),
    /// The number of the request that was said.
    Number(u64),
    /// The next report on a request, where one was left.
    Report(Option<Datum>),
    /// What became of a request.
    Known(Outcome),
    /// Nothing is known of it yet.
    NotYet,
    Refused(Refusal),
    OutOfMemory,
}
