//! Heads of MessagePack tokens.

use crate::reason::Reason;
use crate::whole::Whole;

/// What a token's head says. A length is that of what follows the head: bytes, elements or pairs.
#[derive(Clone, Copy, Debug, PartialEq, Eq)]
pub enum TokenHead {
    Nil,
    Flag(bool),
    Whole(Whole),
    Str(u32),
    Bin(u32),
    Array(u32),
    Map(u32),
}

/// What reading a head answers: the head and its own length, a refusal by the first byte, or that it isn't whole.
#[derive(Clone, Copy, Debug, PartialEq, Eq)]
pub enum HeadStep {
    Got(TokenHead, usize),
    Refused(Reason),
    Short,
}
