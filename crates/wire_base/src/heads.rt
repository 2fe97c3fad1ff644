//! Reading the head of a MessagePack token.

ghost use Rattle.std.specs.Prelude.{◌≡◌, ◌<◌, ◌≤◌, length, take, nat_lt, Some, None, if◌then◌else◌};
ghost use Rattle.std.specs.Int.{w8, w16, w32, w64, from_be_bytes, cast_signed};
ghost use Rattle.wire_base.specs.Head.{IsWithin, IsWithinTail, head_of, read_kind, lettered};

use crate::reason::Reason;
use crate::token::{HeadStep, TokenHead};
use crate::whole::Whole;

fn u8_at(bytes: &[u8]) -> Option<u8>
    ensures { result ≡ (if nat_lt (length bytes.now) 1 then None else Some (from_be_bytes w8 (take 1 bytes.now))) }
{
    if bytes.is_empty() {
        return None;
    }
    Some(u8::from_be_bytes([bytes[0]]))
}

fn u16_at(bytes: &[u8]) -> Option<u16>
    ensures { result ≡ (if nat_lt (length bytes.now) 2 then None else Some (from_be_bytes w16 (take 2 bytes.now))) }
{
    if bytes.len() < 2 {
        return None;
    }
    Some(u16::from_be_bytes([bytes[0], bytes[1]]))
}

fn u32_at(bytes: &[u8]) -> Option<u32>
    ensures { result ≡ (if nat_lt (length bytes.now) 4 then None else Some (from_be_bytes w32 (take 4 bytes.now))) }
{
    if bytes.len() < 4 {
        return None;
    }
    Some(u32::from_be_bytes([bytes[0], bytes[1], bytes[2], bytes[3]]))
}

fn u64_at(bytes: &[u8]) -> Option<u64>
    ensures { result ≡ (if nat_lt (length bytes.now) 8 then None else Some (from_be_bytes w64 (take 8 bytes.now))) }
{
    if bytes.len() < 8 {
        return None;
    }
    Some(u64::from_be_bytes([
        bytes[0], bytes[1], bytes[2], bytes[3], bytes[4], bytes[5], bytes[6], bytes[7],
    ]))
}

// A first byte from c0 to df.
#[tactic(auto, unfolding(crate::specs::Head::lettered))]
fn lettered_head(first: u8, rest: &[u8]) -> HeadStep
    requires low { 0xc0 ≤ first }
    requires high { first < 0xe0 }
    ensures exact { result ≡ read_kind (lettered first) rest.now }
    ensures within { IsWithinTail result rest.now }
{
    match first {
        0xc0 => HeadStep::Got(TokenHead::Nil, 1),
        0xc1 => HeadStep::Refused(Reason::Unused),
        0xc2 => HeadStep::Got(TokenHead::Flag(false), 1),
        0xc3 => HeadStep::Got(TokenHead::Flag(true), 1),
        0xc4 => match u8_at(rest) {
            Some(n) => HeadStep::Got(TokenHead::Bin(n as u32), 2),
            None => HeadStep::Short,
        },
        0xc5 => match u16_at(rest) {
            Some(n) => HeadStep::Got(TokenHead::Bin(n as u32), 3),
            None => HeadStep::Short,
        },
        0xc6 => match u32_at(rest) {
            Some(n) => HeadStep::Got(TokenHead::Bin(n), 5),
            None => HeadStep::Short,
        },
        0xc7..=0xc9 => HeadStep::Refused(Reason::Ext),
        0xca | 0xcb => HeadStep::Refused(Reason::Float),
        0xcc => match u8_at(rest) {
            Some(n) => HeadStep::Got(TokenHead::Whole(Whole::from_u64(n as u64)), 2),
            None => HeadStep::Short,
        },
        0xcd => match u16_at(rest) {
            Some(n) => HeadStep::Got(TokenHead::Whole(Whole::from_u64(n as u64)), 3),
            None => HeadStep::Short,
        },
        0xce => match u32_at(rest) {
            Some(n) => HeadStep::Got(TokenHead::Whole(Whole::from_u64(n as u64)), 5),
            None => HeadStep::Short,
        },
        0xcf => match u64_at(rest) {
            Some(n) => HeadStep::Got(TokenHead::Whole(Whole::from_u64(n)), 9),
            None => HeadStep::Short,
        },
        0xd0 => match u8_at(rest) {
            Some(n) => HeadStep::Got(TokenHead::Whole(Whole::from_i64(n.cast_signed() as i64)), 2),
            None => HeadStep::Short,
        },
        0xd1 => match u16_at(rest) {
            Some(n) => HeadStep::Got(TokenHead::Whole(Whole::from_i64(n.cast_signed() as i64)), 3),
            None => HeadStep::Short,
        },
        0xd2 => match u32_at(rest) {
            Some(n) => HeadStep::Got(TokenHead::Whole(Whole::from_i64(n.cast_signed() as i64)), 5),
            None => HeadStep::Short,
        },
        0xd3 => match u64_at(rest) {
            Some(n) => HeadStep::Got(TokenHead::Whole(Whole::from_i64(n.cast_signed())), 9),
            None => HeadStep::Short,
        },
        0xd4..=0xd8 => HeadStep::Refused(Reason::Ext),
        0xd9 => match u8_at(rest) {
            Some(n) => HeadStep::Got(TokenHead::Str(n as u32), 2),
            None => HeadStep::Short,
        },
        0xda => match u16_at(rest) {
            Some(n) => HeadStep::Got(TokenHead::Str(n as u32), 3),
            None => HeadStep::Short,
        },
        0xdb => match u32_at(rest) {
            Some(n) => HeadStep::Got(TokenHead::Str(n), 5),
            None => HeadStep::Short,
        },
        0xdc => match u16_at(rest) {
            Some(n) => HeadStep::Got(TokenHead::Array(n as u32), 3),
            None => HeadStep::Short,
        },
        0xdd => match u32_at(rest) {
            Some(n) => HeadStep::Got(TokenHead::Array(n), 5),
            None => HeadStep::Short,
        },
        0xde => match u16_at(rest) {
            Some(n) => HeadStep::Got(TokenHead::Map(n as u32), 3),
            None => HeadStep::Short,
        },
        _ => match u32_at(rest) {
            Some(n) => HeadStep::Got(TokenHead::Map(n), 5),
            None => HeadStep::Short,
        },
    }
}

/// The head of the MessagePack token at the front. It takes no memory.
pub fn head(bytes: &[u8]) -> HeadStep
    ensures exact { result ≡ head_of bytes.now }
    ensures within { IsWithin result bytes.now }
{
    let [first, rest @ ..] = bytes else {
        return HeadStep::Short;
    };
    let first = *first;
    if first < 0x80 {
        HeadStep::Got(TokenHead::Whole(Whole::from_u64(first as u64)), 1)
    } else if first < 0x90 {
        HeadStep::Got(TokenHead::Map((first - 0x80) as u32), 1)
    } else if first < 0xa0 {
        HeadStep::Got(TokenHead::Array((first - 0x90) as u32), 1)
    } else if first < 0xc0 {
        HeadStep::Got(TokenHead::Str((first - 0xa0) as u32), 1)
    } else if first < 0xe0 {
        lettered_head(first, rest)
    } else {
        HeadStep::Got(TokenHead::Whole(Whole::from_i64(first as i64 - 256)), 1)
    }
}
