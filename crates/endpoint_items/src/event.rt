//! What an end with connections tells of what it applied.

use mux_items::{ChannelKey, MuxEvent};
use rpc_end::RpcEvent;
use wire_base::Cause;

/// What the handshake, a frame or a message was to an end that goes on.
#[derive(Debug, Drop)]
pub enum EndEvent {
    /// The handshake or a frame of the peer was applied.
    Mux(MuxEvent),
    /// A message on a channel was applied.
    Rpc(ChannelKey, RpcEvent),
    /// A message on a channel was refused: its connection has ended, and the channel is terminated.
    RpcEnded(ChannelKey, Cause),
}
