use thiserror::Error;

/// Why bytes give no value.
#[derive(Clone, Copy, Debug, PartialEq, Eq, Error)]
pub enum JsonFault {
    #[error("the bytes are not JSON")]
    NotJson,
    #[error("a number is no whole number of 64 bits")]
    Float,
    #[error("memory ran out")]
    OutOfMemory,
}

/// Why a value isn't written.
#[derive(Clone, Copy, Debug, PartialEq, Eq, Error)]
pub enum JsonWrite {
    #[error("arrays and maps nest more than 127 deep")]
    TooDeep,
    #[error("JSON has no bytes")]
    BytesInJson,
    #[error("memory ran out")]
    OutOfMemory,
}
