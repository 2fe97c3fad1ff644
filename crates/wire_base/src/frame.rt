//! Frames of a multiplexing stream.

ghost use Rattle.std.specs.Prelude.{◌≡◌};
ghost use Rattle.wire_base.specs.ControlCode.{code_number, code_of};

use crate::blob::Blob;
use crate::place::Place;
use crate::reason::Reason;
use crate::text::Text;

/// The version of the multiplexing protocol.
#[derive(Clone, Copy, Debug, PartialEq, Eq)]
pub enum Version {
    One,
    Two,
    Three,
}

/// The control code of a frame, in the order of its numbers 0 to 5.
#[derive(Clone, Copy, Debug, PartialEq, Eq)]
pub enum Code {
    Offer,
    OfferAccepted,
    Content,
    ContentWritingCompleted,
    ChannelTerminated,
    ContentProcessed,
}

impl Code {
    /// The number that stands for it in a frame.
    pub fn number(self) -> u8
        ensures { result ≡ code_number self }
    {
        match self {
            Code::Offer => 0,
            Code::OfferAccepted => 1,
            Code::Content => 2,
            Code::ContentWritingCompleted => 3,
            Code::ChannelTerminated => 4,
            Code::ContentProcessed => 5,
        }
    }

    /// The code that a number stands for, if any.
    pub fn from_number(number: u8) -> Option<Code>
        ensures { result ≡ code_of number }
    {
        match number {
            0 => Some(Code::Offer),
            1 => Some(Code::OfferAccepted),
            2 => Some(Code::Content),
            3 => Some(Code::ContentWritingCompleted),
            4 => Some(Code::ChannelTerminated),
            5 => Some(Code::ContentProcessed),
            _ => None,
        }
    }
}

/// Who offered the frame's channel: the frame's sender, its receiver, or in versions 1 and 2 who the id's parity says.
#[derive(Clone, Copy, Debug, PartialEq, Eq)]
pub enum Origin {
    Sender,
    Receiver,
    ByParity,
}

/// What a frame carries. A window or count is a number of bytes.
#[derive(Debug, Drop)]
pub enum Payload {
    Offer(Text, Option<u64>),
    Accepted(Option<u64>),
    Content(Blob),
    Nothing,
    Processed(u64),
}

/// A frame. Its channel is named by the id and the origin.
#[derive(Debug, Drop)]
pub struct Frame {
    pub code: Code,
    pub id: u64,
    pub origin: Origin,
    pub payload: Payload,
}

/// What decoding the front of some bytes answers: the frame and its length, that it isn't whole, or its refusal.
#[derive(Debug, Drop)]
pub enum FrameStep {
    Got(Frame, usize),
    Short,
    Refused(Place, Reason),
    OutOfMemory,
}
