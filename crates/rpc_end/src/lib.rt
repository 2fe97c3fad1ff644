//! One end of a connection for remote calls: its own requests, the peer's, and what is said.
#![tactic(auto)]

mod arriving;
mod calls;
mod end;
mod heeding;
mod preparing;
mod saying;
mod step;
mod terms;

pub use call_table::Look;
pub use end::RpcEnd;
pub use message_body::Encoding;
pub use message_framing::Framing;
pub use rpc_items::{
    Answer, Arg, ArgList, Arguments, Expect, HandleKey, Lifetime, Message, Outcome, Params,
    RpcEvent, Target,
};
pub use step::RpcStep;
pub use terms::Terms;
