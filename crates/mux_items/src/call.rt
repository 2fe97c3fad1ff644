use crate::channel::ChannelKey;
use wire_base::{Blob, Text};

/// A call of one end. Windows and maxima are numbers of bytes.
#[derive(Debug, Drop)]
pub enum Call {
    Offer(Text, u32),
    Accept(ChannelKey, u32),
    Write(ChannelKey, Blob),
    Read(ChannelKey, u32),
    Complete(ChannelKey),
    Terminate(ChannelKey),
}
