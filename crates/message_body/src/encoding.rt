//! How messages are written as bytes.

/// How a message is written as bytes.
#[derive(Clone, Copy, Debug, PartialEq, Eq)]
pub enum Encoding {
    Json,
    Pack,
}
