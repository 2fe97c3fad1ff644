use message_body::Encoding;
use message_framing::Framing;

/// How a connection writes and reads its messages.
#[derive(Clone, Copy, Debug, PartialEq, Eq)]
pub struct Terms {
    pub framing: Framing,
    pub encoding: Encoding,
}
