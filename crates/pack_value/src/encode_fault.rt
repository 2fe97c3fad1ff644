use thiserror::Error;

/// Why a value isn't encoded.
#[derive(Clone, Copy, Debug, PartialEq, Eq, Error)]
pub enum EncodeFault {
    #[error("arrays and maps nest more than 127 deep")]
    TooDeep,
    #[error("a text, bytes or a list is longer than 16,777,216")]
    TooLong,
    #[error("memory ran out")]
    OutOfMemory,
}
