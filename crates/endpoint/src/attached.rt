use mux_items::ChannelKey;
use rpc_end::RpcEnd;

/// A connection with its channel.
#[derive(Drop)]
pub struct Attached {
    pub key: ChannelKey,
    pub end: RpcEnd,
}
