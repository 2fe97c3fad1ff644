//! Bodies of messages: a message to bytes in an encoding, and back.
#![tactic(auto)]

mod encoding;
mod fault;
mod laws;
mod reader;
mod writer;

pub use encoding::Encoding;
pub use fault::BodyFault;
pub use laws::{
    encodings_are_fair, readings_are_found, spellings_are_found, written_bodies_are_read,
};
pub use reader::read;
pub use rpc_items::{Message, Params};
pub use writer::{append, write};
