//! What methods with their parameters ask for, and which methods and values callers may not use.
#![tactic(auto)]

mod arguments;
mod called;
mod meanings;
mod names;
mod reserved;

pub use meanings::meaning_of;
pub use names::{
    ABORT_PAGES, CANCEL_REQUEST, INVOKE_PROXY, NEXT_PAGE, PROGRESS, RELEASE_OBJECT,
    names_are_those_of_the_rules,
};
pub use reserved::{is_reserved, is_reserved_value};
pub use rpc_items::{Meaning, Params};
