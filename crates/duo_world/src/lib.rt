//! Two ends and the bytes between them.
#![tactic(auto)]

mod duo;
mod ends;

pub use duo::Duo;
pub use endpoint::{
    Answer, Arg, ArgList, Arguments, ChannelKey, ChannelView, Encoding, Endpoint, Expect, Framing,
    HandleKey, Lifetime, Look, MuxCall, MuxEvent, NONCE_SIZE, Outcome, Params, Phase, RpcEvent,
    Tally, Target, Terms,
};
pub use endpoint_run::{
    Call, DuoAnswer, EndEvent, EventList, Reply, Side, SideEvent, Step, StepList,
};
