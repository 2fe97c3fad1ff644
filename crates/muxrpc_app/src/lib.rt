//! What the program does, over the words, the input and the output that it is given.
#![tactic(auto)]

mod command;
mod input;
mod output;
mod replay;
mod run;
mod standard_error;
mod status;
mod view;
mod words;

pub use command::run_command;
pub use input::InputFault;
pub use run::run_plain;
pub use standard_error::{status_line, tell};
pub use status::Status;
pub use words::Command;
