//! A call on a channel.

/// A call on a channel that answers nothing more than that it was accepted, and asks for no other channel.
#[derive(Clone, Copy, Drop)]
pub enum ChannelCall<'a> {
    Write(&'a [u8]),
    Complete,
    Terminate,
}
