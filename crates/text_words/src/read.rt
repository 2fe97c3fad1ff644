//! Words of a line, and what each is read as. A word that isn't of its form is read as nothing.

ghost use Rattle.std.specs.Prelude.{◌≡◌, map, IfOk, Some, None};
ghost use Rattle.std.specs.Option.{option_map};
ghost use Rattle.std.specs.List.{list_any};
ghost use Rattle.text_words.specs.Reading.{words_of, side_in, number_in, number_up_to, channel_in, name_in, bytes_in, byte_in, nonce_in, count_in, has_other_front, front_in, is_capital, framing_in, encoding_in, expect_in, owner_in, method_in, signed_in};
ghost use Rattle.text_words.specs.Written.{signed_value};

use crate::channel_name::ChannelName;
use hex::FromHexError;
use message_body::Encoding;
use message_framing::Framing;
use mux_items::NONCE_SIZE;
use mux_run::Side;
use rpc_items::Expect;
use std::alloc::Global;
use wire_base::{Blob, OutOfMemory, Text};

/// What stands between the spaces of a line.
pub fn words(alloc: Global, line: &str) -> Result<Vec<&str>, OutOfMemory>
    ensures { IfOk result (λ v. map (λ w. w.now) v.items ≡ words_of line.now) }
{
    Ok(line.split(' ').collect(alloc)?)
}

#[tactic(auto, unfolding(crate::specs::Reading::side_in))]
pub fn side(word: &str) -> Option<Side>
    ensures { result ≡ side_in word.now }
{
    match word {
        "A" => Some(Side::A),
        "B" => Some(Side::B),
        _ => None,
    }
}

#[tactic(auto, using(crate::proofs::Numbers::numbers))]
pub fn number(word: &str) -> Option<u32>
    ensures { result ≡ number_in word.now }
{
    if begins_no_number(word) {
        None
    } else {
        word.parse::<u32>().ok()
    }
}

/// Whether a sign stands in front, or a zero that isn't all.
fn begins_no_number(word: &str) -> bool
    ensures { result ≡ has_other_front word.now }
{
    match word.as_bytes().first() {
        Some(b'+') => true,
        Some(b'0') => word.len() > 1,
        _ => false,
    }
}

/// A number that is at most the limit.
#[tactic(auto, unfolding(crate::specs::Reading::number_up_to))]
pub fn limited_number(limit: u32, word: &str) -> Option<u32>
    ensures { result ≡ number_up_to limit word.now }
{
    let number = number(word)?;
    if number <= limit { Some(number) } else { None }
}

#[tactic(auto, unfolding(crate::specs::Reading::name_in))]
pub fn name(alloc: Global, word: &str) -> Result<Option<Text>, OutOfMemory>
    ensures { IfOk result (λ o. o ≡ name_in word.now) }
{
    match word {
        "-" => Ok(Some(Text::from_str(alloc, "")?)),
        "" => Ok(None),
        _ => Ok(Some(Text::from_str(alloc, word)?)),
    }
}

/// The side that the first letter names, and what follows it.
fn front(word: &str) -> Option<(Side, &str)>
    ensures { option_map (λ f. (f.0, f.1.now)) result ≡ front_in word.now }
{
    match word.strip_prefix('A') {
        Some(digits) => Some((Side::A, digits)),
        None => Some((Side::B, word.strip_prefix('B')?)),
    }
}

#[tactic(auto, unfolding(crate::specs::Reading::channel_in))]
pub fn channel(word: &str) -> Option<ChannelName>
    ensures { result ≡ channel_in word.now }
{
    let (offering, digits) = front(word)?;
    let id = u64::from(number(digits)?);
    Some(ChannelName { offering, id })
}

#[tactic(auto, using(crate::proofs::HexWords::hex_words))]
pub fn bytes(alloc: Global, word: &str) -> Result<Option<Blob>, OutOfMemory>
    ensures { IfOk result (λ o. o ≡ bytes_in word.now) }
{
    if word == "-" {
        return Ok(Some(Blob::from_bytes(alloc, &[])?));
    }
    if word.is_empty() || has_capital(word) {
        return Ok(None);
    }
    match hex::decode(alloc, word.as_bytes()) {
        Ok(bytes) => Ok(Some(Blob::from_bytes(alloc, bytes.as_slice())?)),
        Err(FromHexError::OutOfMemory) => Err(OutOfMemory),
        Err(_) => Ok(None),
    }
}

fn has_capital(word: &str) -> bool
    ensures { result ≡ list_any is_capital word.now }
{
    word.as_bytes().iter().any(|byte| byte.is_ascii_uppercase())
}

/// One byte, in two digits.
#[tactic(auto, unfolding(crate::specs::Reading::byte_in))]
pub fn byte(alloc: Global, word: &str) -> Result<Option<u8>, OutOfMemory>
    ensures { IfOk result (λ o. o ≡ byte_in word.now) }
{
    let Some(bytes) = bytes(alloc, word)? else {
        return Ok(None);
    };
    match bytes.as_bytes() {
        [byte] => Ok(Some(*byte)),
        _ => Ok(None),
    }
}

/// A nonce, whose bytes have two digits each.
#[tactic(auto, unfolding(crate::specs::Reading::nonce_in))]
pub fn nonce(alloc: Global, word: &str) -> Result<Option<[u8; NONCE_SIZE]>, OutOfMemory>
    ensures { IfOk result (λ o. o ≡ nonce_in word.now) }
{
    let Some(bytes) = bytes(alloc, word)? else {
        return Ok(None);
    };
    Ok(<[u8; NONCE_SIZE]>::try_from(bytes.as_bytes()).ok())
}

/// A number, or `all`, which is read as the greatest count.
#[tactic(auto, unfolding(crate::specs::Reading::count_in))]
pub fn count(word: &str) -> Option<u64>
    ensures { result ≡ count_in word.now }
{
    match word {
        "all" => Some(u64::MAX),
        _ => number(word).map(|n| u64::from(n)),
    }
}

/// How the messages of a connection are framed.
#[tactic(auto, unfolding(crate::specs::Reading::framing_in))]
pub fn framing(word: &str) -> Option<Framing>
    ensures { result ≡ framing_in word.now }
{
    match word {
        "header" => Some(Framing::Header),
        "length" => Some(Framing::Length),
        _ => None,
    }
}

/// How their bodies are written.
#[tactic(auto, unfolding(crate::specs::Reading::encoding_in))]
pub fn encoding(word: &str) -> Option<Encoding>
    ensures { result ≡ encoding_in word.now }
{
    match word {
        "json" => Some(Encoding::Json),
        "pack" => Some(Encoding::Pack),
        _ => None,
    }
}

/// What is made of the result of a request.
#[tactic(auto, unfolding(crate::specs::Reading::expect_in))]
pub fn expect(word: &str) -> Option<Expect>
    ensures { result ≡ expect_in word.now }
{
    match word {
        "plain" => Some(Expect::Plain),
        "sequence" => Some(Expect::Sequence),
        _ => None,
    }
}

/// Whether a handle is one of this end, by whose it is.
#[tactic(auto, unfolding(crate::specs::Reading::owner_in))]
pub fn owner(word: &str) -> Option<bool>
    ensures { result ≡ owner_in word.now }
{
    match word {
        "own" => Some(true),
        "peer" => Some(false),
        _ => None,
    }
}

/// Any word but the empty one.
#[tactic(auto, unfolding(crate::specs::Reading::method_in))]
pub fn method(alloc: Global, word: &str) -> Result<Option<Text>, OutOfMemory>
    ensures { IfOk result (λ o. o ≡ method_in word.now) }
{
    if word.is_empty() {
        return Ok(None);
    }
    Ok(Some(Text::from_str(alloc, word)?))
}

/// A number, behind a minus where it has that sign. The sign of 0 says nothing.
#[tactic(auto, unfolding(crate::specs::Reading::signed_in))]
pub fn signed(word: &str) -> Option<i64>
    ensures { result ≡ option_map signed_value (signed_in word.now) }
{
    match word.strip_prefix('-') {
        Some(digits) => Some(-i64::from(number(digits)?)),
        None => Some(i64::from(number(word)?)),
    }
}
