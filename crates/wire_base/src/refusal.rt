//! Why a local call is refused.

ghost use Rattle.std.specs.Prelude.{◌≡◌};
ghost use Rattle.wire_base.specs.Numbers.{refusal_number, refusal_name};

use crate::state::Cause;

/// Why a local call is refused.
#[derive(Clone, Copy, Debug, PartialEq, Eq)]
pub enum Refusal {
    /// 30: the channel is Closing or Closed.
    NotOpen,
    /// 31: writing was completed here.
    WritingDone,
    /// 34: the peer's offer isn't accepted here.
    NotAccepted,
    /// 35: it was accepted here.
    AlreadyAccepted,
    /// 37: accepting an own offer.
    WrongSide,
    /// 38: own windows of kept channels and this one together are above 268,435,456.
    WindowsSpent,
    /// 39: the bytes written on the channel and these are above 2^62.
    BytesSpent,
    /// 40: the channel isn't kept.
    NoChannel,
    /// 42: the end has ended, by this cause.
    Ended(Cause),
    /// 43: 1,024 channels are kept.
    TooManyChannels,
    /// 44: an earlier call of this end ran out of memory.
    Stopped,
    /// 45: 2,147,483,647 own offers were made.
    TooManyOffers,
    /// 46: the name has more than 1,024 bytes.
    NameTooLong,
    /// 47: the window isn't 1 to 16,777,216.
    BadWindow,
    /// 48: version 1 or 2, and the peer's handshake isn't applied.
    NotReady,
    /// 49: the channel has a connection for remote calls.
    Attached,
    /// 70: no such request.
    NoRequest,
    /// 71: it was cancelled here.
    AlreadyCancelled,
    /// 73: the request has no progress argument.
    NoToken,
    /// 74: that request's result is no live sequence.
    NoEnumerable,
    /// 75: its last `next` is unanswered.
    NextOutstanding,
    /// 76: never made or adopted.
    NoHandle,
    /// 77: the handle has ended.
    Released,
    /// 78: a value with bytes, and JSON encoding.
    BytesInJson,
    /// 79: the message is nested deeper than 127.
    TooDeep,
    /// 80: the body has more than 16,777,216 bytes.
    BodyTooLong,
    /// 81: no connection for remote calls was attached to the channel.
    NotAttached,
    /// 82: the method begins with `$/`.
    ReservedMethod,
    /// 83: a notification with progress or an object of call lifetime.
    NeedsRequest,
    /// 85: 4,294,967,295 requests were drawn.
    TooManyRequests,
    /// 86: 4,294,967,295 handles were drawn.
    TooManyHandles,
    /// 87: 4,294,967,295 sequences were drawn.
    TooManySequences,
    /// 88: a plain value that is a map with the member `__jsonrpc_marshaled`.
    ReservedMember,
    /// 89: a page of 0.
    BadPage,
}

impl Refusal {
    /// The number that reports print.
    #[tactic(auto, unfolding(crate::specs::Numbers::refusal_number))]
    pub fn number(&self) -> u32
        ensures { result ≡ refusal_number self.now }
    {
        match self {
            Refusal::NotOpen => 30,
            Refusal::WritingDone => 31,
            Refusal::NotAccepted => 34,
            Refusal::AlreadyAccepted => 35,
            Refusal::WrongSide => 37,
            Refusal::WindowsSpent => 38,
            Refusal::BytesSpent => 39,
            Refusal::NoChannel => 40,
            Refusal::Ended(_) => 42,
            Refusal::TooManyChannels => 43,
            Refusal::Stopped => 44,
            Refusal::TooManyOffers => 45,
            Refusal::NameTooLong => 46,
            Refusal::BadWindow => 47,
            Refusal::NotReady => 48,
            Refusal::Attached => 49,
            Refusal::NoRequest => 70,
            Refusal::AlreadyCancelled => 71,
            Refusal::NoToken => 73,
            Refusal::NoEnumerable => 74,
            Refusal::NextOutstanding => 75,
            Refusal::NoHandle => 76,
            Refusal::Released => 77,
            Refusal::BytesInJson => 78,
            Refusal::TooDeep => 79,
            Refusal::BodyTooLong => 80,
            Refusal::NotAttached => 81,
            Refusal::ReservedMethod => 82,
            Refusal::NeedsRequest => 83,
            Refusal::TooManyRequests => 85,
            Refusal::TooManyHandles => 86,
            Refusal::TooManySequences => 87,
            Refusal::ReservedMember => 88,
            Refusal::BadPage => 89,
        }
    }

    /// The name that reports print.
    #[tactic(auto, unfolding(crate::specs::Numbers::refusal_name))]
    pub fn name(&self) -> &'static str
        ensures { result.now ≡ refusal_name self.now }
    {
        match self {
            Refusal::NotOpen => "NotOpen",
            Refusal::WritingDone => "WritingDone",
            Refusal::NotAccepted => "NotAccepted",
            Refusal::AlreadyAccepted => "AlreadyAccepted",
            Refusal::WrongSide => "WrongSide",
            Refusal::WindowsSpent => "WindowsSpent",
            Refusal::BytesSpent => "BytesSpent",
            Refusal::NoChannel => "NoChannel",
            Refusal::Ended(_) => "Ended",
            Refusal::TooManyChannels => "TooManyChannels",
            Refusal::Stopped => "Stopped",
            Refusal::TooManyOffers => "TooManyOffers",
            Refusal::NameTooLong => "NameTooLong",
            Refusal::BadWindow => "BadWindow",
            Refusal::NotReady => "NotReady",
            Refusal::Attached => "Attached",
            Refusal::NoRequest => "NoRequest",
            Refusal::AlreadyCancelled => "AlreadyCancelled",
            Refusal::NoToken => "NoToken",
            Refusal::NoEnumerable => "NoEnumerable",
            Refusal::NextOutstanding => "NextOutstanding",
            Refusal::NoHandle => "NoHandle",
            Refusal::Released => "Released",
            Refusal::BytesInJson => "BytesInJson",
            Refusal::TooDeep => "TooDeep",
            Refusal::BodyTooLong => "BodyTooLong",
            Refusal::NotAttached => "NotAttached",
            Refusal::ReservedMethod => "ReservedMethod",
            Refusal::NeedsRequest => "NeedsRequest",
            Refusal::TooManyRequests => "TooManyRequests",
            Refusal::TooManyHandles => "TooManyHandles",
            Refusal::TooManySequences => "TooManySequences",
            Refusal::ReservedMember => "ReservedMember",
            Refusal::BadPage => "BadPage",
        }
    }
}
