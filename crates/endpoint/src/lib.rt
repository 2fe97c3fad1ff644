//! An end of a multiplexing stream with connections for remote calls on its channels.
#![tactic(auto)]

mod arriving;
mod attached;
mod attaching;
mod call;
mod endpoint;
mod following;
mod messages;
mod mux_calls;
mod rpc_calls;
mod step;

pub use endpoint::Endpoint;
pub use endpoint_items::{Call, EndEvent, Reply};
pub use mux_end::{ChannelKey, ChannelView, MuxEvent, Phase, Tally};
pub use mux_items::{Call as MuxCall, NONCE_SIZE};
pub use rpc_end::{
    Answer, Arg, ArgList, Arguments, Encoding, Expect, Framing, HandleKey, Lifetime, Look, Outcome,
    Params, RpcEvent, Target, Terms,
};
pub use step::EndStep;
