//! Scripts: a version of the multiplexing protocol, the nonces of two joined ends and their steps, as lines of text.
#![tactic(auto)]

mod fault;
mod head;
mod laws;
mod line_step;
mod lines;
mod reading;
mod reason;
mod rest;
mod step_word;
mod steps;

pub use fault::ScriptFault;
pub use laws::{
    bad_rests_are_of_no_step, bad_words_are_of_no_step, script_refuses_the_first,
    scripts_are_their_texts,
};
pub use reading::{Script, read_script};
pub use reason::ScriptReason;
