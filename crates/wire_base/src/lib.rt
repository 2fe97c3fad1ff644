//! Types of values, messages' texts and frames, token heads, and the sources and sinks of bytes.
#![tactic(auto)]

mod blob;
mod datum;
mod fault;
mod frame;
mod heads;
mod in_memory;
mod laws;
mod limits;
mod out_of_memory;
mod place;
mod reading;
mod reason;
mod refusal;
mod shortest;
mod standard;
mod state;
mod streams;
mod text;
mod token;
mod tokens;
mod values;
mod whole;

pub use blob::Blob;
pub use datum::{Datum, DatumList, Node, PairList};
pub use fault::CallFault;
pub use frame::{Code, Frame, FrameStep, Origin, Payload, Version};
pub use heads::head;
pub use in_memory::{Calls, MemSink, MemSource};
pub use laws::{heads_stay, shortest_heads_are_heads};
pub use limits::{
    COUNT_LIMIT, FRAME_BOUND, MAX_BODY, MAX_FED, MAX_NESTING, MAX_PAYLOAD, MAX_PLACE,
    MAX_PLAIN_PAYLOAD, PLAIN_ID_LIMIT,
};
pub use out_of_memory::OutOfMemory;
pub use place::Place;
pub use reading::{DecodeError, Fault};
pub use reason::Reason;
pub use refusal::Refusal;
pub use shortest::{
    push_array_head, push_bin_head, push_map_head, push_str_head, push_unsigned, push_whole,
};
pub use standard::{StdSink, StdSource};
pub use state::{Cause, EndState};
pub use streams::{Failed, Link, Sink, Source};
pub use text::{Id, Text, TextFault};
pub use token::{HeadStep, TokenHead};
pub use tokens::{
    array_head, array_of, bin_head, bin_of, breaks, count, number, open_array, str_head,
};
pub use values::{holds_bytes, nests_within};
pub use whole::Whole;
