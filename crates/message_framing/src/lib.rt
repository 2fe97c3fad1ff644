//! Bodies of messages in a stream of bytes, by either of two framings.
#![tactic(auto)]

mod field;
mod framing;
mod front;
mod header;
mod laws;
mod next_body;
mod reader;
mod reading;
mod wrapping;

pub use framing::Framing;
pub use front::Front;
pub use laws::{
    fronts_stay, header_fronts_are_known, headers_are_parts, messages_are_apart,
    pieces_are_one_stream, stream_has_one_answer, wrapped_is_read,
};
pub use next_body::NextBody;
pub use reader::MessageReader;
pub use wrapping::wrap;
