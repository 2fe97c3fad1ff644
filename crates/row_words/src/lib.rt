//! The words in which tables tell of calls and of what comes of them: what each is read as, and as what each thing is told.
//! Only tests use them, so no function has clauses, and what a test proves of its rows isn't drawn through them.
//!
//! `values` reads values, ids and handles; `arguments` reads a call. `value_text` tells values, and `answers` tells
//! what an end answers and what comes to it.
#![tactic(auto)]

mod answers;
mod arguments;
mod value_text;
mod values;

pub use answers::{of_cause, of_event, of_life, of_outcome, of_state};
pub use arguments::call_of;
pub use value_text::of_value;
pub use values::{handle_of, id_of, value, whole};
