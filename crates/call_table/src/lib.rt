//! The requests of one connection: its own with what became of them and what was reported on them, and the peer's that
//! wait for an answer.
#![tactic(auto)]

mod answers;
mod entry;
mod reports;
mod table;

pub use answers::{Heard, Look, Settled};
pub use rpc_items::{Expect, Outcome};
pub use table::CallTable;
