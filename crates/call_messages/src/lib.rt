//! Messages that calls of a connection say, and what their arguments ask for.
#![tactic(auto)]

mod arguments;
mod messages;
mod objects;

pub use arguments::{has_needy, has_progress, has_reserved, in_order};
pub use messages::{
    abort, cancellation, notification, object_response, proxy_name, release, report, request,
    response, turn,
};
