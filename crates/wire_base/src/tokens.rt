//! Tokens of one sort, read.

ghost use Rattle.wire_base.specs.Tokens.{Says, a_bin, a_number, a_str, an_array, count_in, head_at, is_array, is_bin, is_number, is_str, last_in, number_in, only, token_at};
ghost use Rattle.std.specs.Prelude.{◌≡◌, ◌+◌, ◌<◌, ◌^◌, length, Some};
ghost use Rattle.wire_base.specs.Head.{kind_of};

use crate::heads::head;
use crate::limits::COUNT_LIMIT;
use crate::reading::Fault;
use crate::reason::Reason;
use crate::token::{HeadStep, TokenHead};

#[tactic(auto, unfolding(crate::specs::Head::lettered))]
fn begins_number(first: u8) -> bool
    ensures { result ≡ is_number (kind_of first) }
{
    matches!(first, 0x00..=0x7f | 0xcc..=0xd3 | 0xe0..=0xff)
}

#[tactic(auto, unfolding(crate::specs::Head::lettered))]
fn begins_str(first: u8) -> bool
    ensures { result ≡ is_str (kind_of first) }
{
    matches!(first, 0xa0..=0xbf | 0xd9..=0xdb)
}

#[tactic(auto, unfolding(crate::specs::Head::lettered))]
fn begins_bin(first: u8) -> bool
    ensures { result ≡ is_bin (kind_of first) }
{
    matches!(first, 0xc4..=0xc6)
}

#[tactic(auto, unfolding(crate::specs::Head::lettered))]
fn begins_array(first: u8) -> bool
    ensures { result ≡ is_array (kind_of first) }
{
    matches!(first, 0x90..=0x9f | 0xdc | 0xdd)
}

/// The fault of a token at the front of these bytes that breaks a rule.
pub fn breaks(bytes: &[u8], reason: Reason) -> Fault
    ensures { result ≡ Fault.Breaks (length bytes.now) reason }
{
    Fault::Breaks(bytes.len(), reason)
}

fn number_said(token: TokenHead) -> Option<i128>
    ensures { result ≡ number_in token }
{
    match token {
        TokenHead::Whole(whole) => Some(whole.get()),
        _ => None,
    }
}

/// A whole number of any width, and the bytes after it.
#[tactic(auto, unfolding(crate::specs::Tokens::head_at))]
pub fn number(reason: Reason, bytes: &[u8]) -> Result<(i128, &[u8]), Fault>
    ensures { Says (λ x. (x.0, x.1.now)) result (head_at a_number reason bytes.now) }
{
    match head(bytes) {
        HeadStep::Got(token, n) => match number_said(token) {
            Some(number) => Ok((number, &bytes[n..])),
            None => Err(breaks(bytes, reason)),
        },
        HeadStep::Refused(refused) => Err(breaks(bytes, refused)),
        HeadStep::Short => match bytes {
            [first, ..] if !begins_number(*first) => Err(breaks(bytes, reason)),
            _ => Err(Fault::Ends),
        },
    }
}

/// The head of a str, which says how many bytes follow it, and the bytes after the head.
#[tactic(auto, unfolding(crate::specs::Tokens::head_at))]
pub fn str_head(reason: Reason, bytes: &[u8]) -> Result<(u32, &[u8]), Fault>
    ensures { Says (λ x. (x.0, x.1.now)) result (head_at a_str reason bytes.now) }
{
    match head(bytes) {
        HeadStep::Got(TokenHead::Str(len), n) => Ok((len, &bytes[n..])),
        HeadStep::Got(_, _) => Err(breaks(bytes, reason)),
        HeadStep::Refused(refused) => Err(breaks(bytes, refused)),
        HeadStep::Short => match bytes {
            [first, ..] if !begins_str(*first) => Err(breaks(bytes, reason)),
            _ => Err(Fault::Ends),
        },
    }
}

/// The head of a bin, which says how many bytes follow it, and the bytes after the head.
#[tactic(auto, unfolding(crate::specs::Tokens::head_at))]
pub fn bin_head(reason: Reason, bytes: &[u8]) -> Result<(u32, &[u8]), Fault>
    ensures { Says (λ x. (x.0, x.1.now)) result (head_at a_bin reason bytes.now) }
{
    match head(bytes) {
        HeadStep::Got(TokenHead::Bin(len), n) => Ok((len, &bytes[n..])),
        HeadStep::Got(_, _) => Err(breaks(bytes, reason)),
        HeadStep::Refused(refused) => Err(breaks(bytes, refused)),
        HeadStep::Short => match bytes {
            [first, ..] if !begins_bin(*first) => Err(breaks(bytes, reason)),
            _ => Err(Fault::Ends),
        },
    }
}

/// The head of an array, which says how many elements follow it, and the bytes after the head.
#[tactic(auto, unfolding(crate::specs::Tokens::head_at))]
pub fn array_head(reason: Reason, bytes: &[u8]) -> Result<(u32, &[u8]), Fault>
    ensures { Says (λ x. (x.0, x.1.now)) result (head_at an_array reason bytes.now) }
{
    match head(bytes) {
        HeadStep::Got(TokenHead::Array(count), n) => Ok((count, &bytes[n..])),
        HeadStep::Got(_, _) => Err(breaks(bytes, reason)),
        HeadStep::Refused(refused) => Err(breaks(bytes, refused)),
        HeadStep::Short => match bytes {
            [first, ..] if !begins_array(*first) => Err(breaks(bytes, reason)),
            _ => Err(Fault::Ends),
        },
    }
}

/// An array whose last element may be left out, and whether it has that one.
#[tactic(auto, unfolding(crate::specs::Tokens::token_at))]
pub fn open_array(least: u32, reason: Reason, bytes: &[u8]) -> Result<(bool, &[u8]), Fault>
    requires { least < 8 }
    ensures { Says (λ x. (x.0, x.1.now)) result (token_at an_array (last_in least) reason bytes.now) }
{
    let (count, rest) = array_head(reason, bytes)?;
    if count == least {
        Ok((false, rest))
    } else if count == least + 1 {
        Ok((true, rest))
    } else {
        Err(breaks(bytes, reason))
    }
}

/// The head of an array of so many elements, and the bytes after it.
#[tactic(auto, unfolding(crate::specs::Tokens::token_at))]
pub fn array_of(elements: u32, reason: Reason, bytes: &[u8]) -> Result<(u32, &[u8]), Fault>
    ensures { Says (λ x. (x.0, x.1.now)) result (token_at an_array (only elements) reason bytes.now) }
{
    let (count, rest) = array_head(reason, bytes)?;
    if count == elements {
        Ok((count, rest))
    } else {
        Err(breaks(bytes, reason))
    }
}

/// The head of a bin of so many bytes, and the bytes after it.
#[tactic(auto, unfolding(crate::specs::Tokens::token_at))]
pub fn bin_of(size: u32, reason: Reason, bytes: &[u8]) -> Result<(u32, &[u8]), Fault>
    ensures { Says (λ x. (x.0, x.1.now)) result (token_at a_bin (only size) reason bytes.now) }
{
    let (len, rest) = bin_head(reason, bytes)?;
    if len == size {
        Ok((len, rest))
    } else {
        Err(breaks(bytes, reason))
    }
}

/// A window or a count, which is a whole number from 0 to 2^63 - 1, and the bytes after it.
#[tactic(auto, unfolding(crate::specs::Tokens::token_at))]
pub fn count(reason: Reason, bytes: &[u8]) -> Result<(u64, &[u8]), Fault>
    ensures { Says (λ x. (x.0, x.1.now)) result (token_at a_number count_in reason bytes.now) }
{
    let (number, rest) = number(reason, bytes)?;
    if 0 <= number && number < COUNT_LIMIT as i128 {
        Ok((number as u64, rest))
    } else {
        Err(breaks(bytes, reason))
    }
}
