//! Where in a stream a byte stands.

/// A number of bytes from the first byte of a stream, the handshake included.
#[derive(Clone, Copy, Debug, PartialEq, Eq)]
pub struct Place(pub u64);
