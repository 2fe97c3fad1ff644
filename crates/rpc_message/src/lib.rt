//! Messages to values and back.
#![tactic(auto)]

mod fault;
mod members;
mod reader;
mod writer;

pub use fault::MessageFault;
pub use members::{id_if, id_in};
pub use reader::of_datum;
pub use rpc_items::{Message, Params};
pub use writer::to_datum;
