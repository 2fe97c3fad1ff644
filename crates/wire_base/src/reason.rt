//! Why received bytes are refused.

ghost use Rattle.std.specs.Prelude.{◌≡◌};
ghost use Rattle.wire_base.specs.Numbers.{reason_number, reason_name};

/// Why received bytes are refused.
#[derive(Clone, Copy, Debug, PartialEq, Eq)]
pub enum Reason {
    /// 1: a MessagePack token begins with c1.
    Unused,
    /// 2: a MessagePack token begins with ca or cb, or a JSON body holds a number that is no whole one of 64 bits.
    Float,
    /// 3: a MessagePack token begins with c7, c8, c9 or d4 to d8.
    Ext,
    /// 4: a str in a message body isn't UTF-8.
    BadUtf8,
    /// 5: an array or map would be the 128th that is nested.
    TooDeep,
    /// 6: a map's key isn't a str.
    KeyNotText,
    /// 7: a length in a message body is above 16,777,216.
    TooLong,
    /// 8: the JSON body has no reading.
    NotJson,
    /// 9: a MessagePack body ends inside its value or goes on after it.
    NotOneValue,
    /// 10: the control code isn't a whole number 0 to 5, or is 5 in version 1.
    BadCode,
    /// 11: the frame is no array, its count is wrong, or its payload isn't bin.
    BadShape,
    /// 12: the channel id isn't a whole number in its range.
    BadId,
    /// 13: the channel source isn't 1 or -1.
    BadSource,
    /// 14: the payload's length is above 1,048,576.
    PayloadTooLong,
    /// 15: the payload of an offer isn't an array of a str, or of a str and a window.
    BadOffer,
    /// 16: the payload of an acceptance isn't an empty array or an array of a window.
    BadAcceptance,
    /// 17: the payload of an acknowledgement isn't an array of one count.
    BadProcessed,
    /// 18: the name's bytes aren't UTF-8.
    BadName,
    /// 20: one of the first four bytes of a version 1 handshake differs.
    BadMagic,
    /// 21: the major number of a version 2 handshake isn't 2.
    BadVersion,
    /// 22: the peer's nonce equals the own.
    SameNonce,
    /// 23: another token of a version 2 handshake is wrong.
    BadShape2,
    /// 32: unread bytes and this payload are above the own window.
    WindowExceeded,
    /// 33: acknowledged bytes, this frame's included, are above the emitted ones.
    OverAcknowledged,
    /// 34: content or completion on a channel that isn't accepted.
    NotAccepted,
    /// 35: a second acceptance.
    AlreadyAccepted,
    /// 36: content or completion after the peer's completion.
    ContentAfterCompletion,
    /// 37: an offer with the receiver's parity or source -1, or an acceptance from the side that offered.
    WrongSide,
    /// 40: a frame other than an offer on a channel that was never offered.
    NoChannel,
    /// 41: an offer with an id that the peer offered before.
    IdInUse,
    /// 50: a header line has no colon, a bad name or a byte that no header has.
    BadHeader,
    /// 51: a header block without Content-Length.
    NoLength,
    /// 52: a length above 16,777,216.
    LengthTooBig,
    /// 53: a length that isn't 1 to 8 digits, is 0 or negative, or comes twice.
    BadLength,
    /// 54: a charset other than UTF-8.
    BadCharset,
    /// 55: 4,096 bytes of a header block that don't hold its end.
    HeaderTooLong,
    /// 60: the body is neither a map nor an array.
    NotObject,
    /// 61: the member jsonrpc isn't the text 2.0.
    NotVersion2,
    /// 62: an id that isn't allowed in a message.
    BadId62,
    /// 63: the method isn't a text.
    BadMethod,
    /// 64: the params aren't an array, a map or nil.
    BadParams,
    /// 65: a response has both or none of result and error.
    BothOrNeither,
    /// 66: the error isn't a map with a whole code and a text message.
    BadError,
    /// 67: the body is an array.
    Batch,
    /// 72: a request with an id that the peer used for a request still unanswered.
    DuplicateRequest,
}

impl Reason {
    /// The number that reports and status lines print.
    #[tactic(auto, unfolding(crate::specs::Numbers::reason_number))]
    pub fn number(&self) -> u32
        ensures { result ≡ reason_number self.now }
    {
        match self {
            Reason::Unused => 1,
            Reason::Float => 2,
            Reason::Ext => 3,
            Reason::BadUtf8 => 4,
            Reason::TooDeep => 5,
            Reason::KeyNotText => 6,
            Reason::TooLong => 7,
            Reason::NotJson => 8,
            Reason::NotOneValue => 9,
            Reason::BadCode => 10,
            Reason::BadShape => 11,
            Reason::BadId => 12,
            Reason::BadSource => 13,
            Reason::PayloadTooLong => 14,
            Reason::BadOffer => 15,
            Reason::BadAcceptance => 16,
            Reason::BadProcessed => 17,
            Reason::BadName => 18,
            Reason::BadMagic => 20,
            Reason::BadVersion => 21,
            Reason::SameNonce => 22,
            Reason::BadShape2 => 23,
            Reason::WindowExceeded => 32,
            Reason::OverAcknowledged => 33,
            Reason::NotAccepted => 34,
            Reason::AlreadyAccepted => 35,
            Reason::ContentAfterCompletion => 36,
            Reason::WrongSide => 37,
            Reason::NoChannel => 40,
            Reason::IdInUse => 41,
            Reason::BadHeader => 50,
            Reason::NoLength => 51,
            Reason::LengthTooBig => 52,
            Reason::BadLength => 53,
            Reason::BadCharset => 54,
            Reason::HeaderTooLong => 55,
            Reason::NotObject => 60,
            Reason::NotVersion2 => 61,
            Reason::BadId62 => 62,
            Reason::BadMethod => 63,
            Reason::BadParams => 64,
            Reason::BothOrNeither => 65,
            Reason::BadError => 66,
            Reason::Batch => 67,
            Reason::DuplicateRequest => 72,
        }
    }

    /// The name that reports and status lines print.
    #[tactic(auto, unfolding(crate::specs::Numbers::reason_name))]
    pub fn name(&self) -> &'static str
        ensures { result.now ≡ reason_name self.now }
    {
        match self {
            Reason::Unused => "Unused",
            Reason::Float => "Float",
            Reason::Ext => "Ext",
            Reason::BadUtf8 => "BadUtf8",
            Reason::TooDeep => "TooDeep",
            Reason::KeyNotText => "KeyNotText",
            Reason::TooLong => "TooLong",
            Reason::NotJson => "NotJson",
            Reason::NotOneValue => "NotOneValue",
            Reason::BadCode => "BadCode",
            Reason::BadShape => "BadShape",
            Reason::BadId => "BadId",
            Reason::BadSource => "BadSource",
            Reason::PayloadTooLong => "PayloadTooLong",
            Reason::BadOffer => "BadOffer",
            Reason::BadAcceptance => "BadAcceptance",
            Reason::BadProcessed => "BadProcessed",
            Reason::BadName => "BadName",
            Reason::BadMagic => "BadMagic",
            Reason::BadVersion => "BadVersion",
            Reason::SameNonce => "SameNonce",
            Reason::BadShape2 => "BadShape",
            Reason::WindowExceeded => "WindowExceeded",
            Reason::OverAcknowledged => "OverAcknowledged",
            Reason::NotAccepted => "NotAccepted",
            Reason::AlreadyAccepted => "AlreadyAccepted",
            Reason::ContentAfterCompletion => "ContentAfterCompletion",
            Reason::WrongSide => "WrongSide",
            Reason::NoChannel => "NoChannel",
            Reason::IdInUse => "IdInUse",
            Reason::BadHeader => "BadHeader",
            Reason::NoLength => "NoLength",
            Reason::LengthTooBig => "LengthTooBig",
            Reason::BadLength => "BadLength",
            Reason::BadCharset => "BadCharset",
            Reason::HeaderTooLong => "HeaderTooLong",
            Reason::NotObject => "NotObject",
            Reason::NotVersion2 => "NotVersion2",
            Reason::BadId62 => "BadId",
            Reason::BadMethod => "BadMethod",
            Reason::BadParams => "BadParams",
            Reason::BothOrNeither => "BothOrNeither",
            Reason::BadError => "BadError",
            Reason::Batch => "Batch",
            Reason::DuplicateRequest => "DuplicateRequest",
        }
    }
}
