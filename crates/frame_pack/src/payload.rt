//! Payloads. Inside one a token that runs past its end breaks a rule.

ghost use Rattle.frame_text.specs.Reading.{Gives, Says, a_number, a_str, accepted_at, an_array, carried, count_in, ended, inner_at, last_in, name_at, offer_at, only, optional_at, processed_at};
ghost use Rattle.std.specs.Prelude.{◌<◌, Ok, Some};
ghost use Rattle.wire_base.specs.declared.reason.Reason.TheVariants.{BadOffer, BadAcceptance, BadProcessed};

use std::alloc::Global;
use wire_base::{
    Blob, Code, DecodeError, Fault, HeadStep, Payload, Reason, Text, TextFault, array_of, breaks,
    count, head, open_array, str_head,
};

#[tactic(auto, unfolding(wire_base::specs::Tokens::inner_at))]
fn inner_array(least: u32, reason: Reason, bytes: &[u8]) -> Result<(bool, &[u8]), Fault>
    requires { least < 8 }
    ensures { Says (λ x. (x.0, x.1.now)) result (inner_at an_array (last_in least) reason bytes.now) }
{
    match open_array(least, reason, bytes) {
        Err(Fault::Ends) => Err(breaks(bytes, reason)),
        read => read,
    }
}

#[tactic(auto, unfolding(wire_base::specs::Tokens::inner_at))]
fn inner_array_of(elements: u32, reason: Reason, bytes: &[u8]) -> Result<(u32, &[u8]), Fault>
    ensures { Says (λ x. (x.0, x.1.now)) result (inner_at an_array (only elements) reason bytes.now) }
{
    match array_of(elements, reason, bytes) {
        Err(Fault::Ends) => Err(breaks(bytes, reason)),
        read => read,
    }
}

#[tactic(auto, unfolding(wire_base::specs::Tokens::inner_at))]
fn inner_count(reason: Reason, bytes: &[u8]) -> Result<(u64, &[u8]), Fault>
    ensures { Says (λ x. (x.0, x.1.now)) result (inner_at a_number count_in reason bytes.now) }
{
    match count(reason, bytes) {
        Err(Fault::Ends) => Err(breaks(bytes, reason)),
        read => read,
    }
}

#[tactic(auto, unfolding(wire_base::specs::Tokens::inner_at, wire_base::specs::Tokens::token_at))]
fn inner_str(reason: Reason, bytes: &[u8]) -> Result<(u32, &[u8]), Fault>
    ensures { Says (λ x. (x.0, x.1.now)) result (inner_at a_str (λ n. Some n) reason bytes.now) }
{
    match str_head(reason, bytes) {
        Err(Fault::Ends) => Err(breaks(bytes, reason)),
        read => read,
    }
}

#[tactic(auto, unfolding(frame_text::specs::Reading::name_at))]
fn name(alloc: Global, bytes: &[u8]) -> Result<(Text, &[u8]), DecodeError>
    ensures { Gives (λ x. (x.0, x.1.now)) result (name_at bytes.now) }
{
    let (len, rest) = inner_str(Reason::BadOffer, bytes)?;
    let len = len as usize;
    if rest.len() < len {
        return Err(breaks(bytes, Reason::BadOffer).into());
    }
    let (front, rest) = rest.split_at(len);
    match Text::from_utf8(alloc, front) {
        Ok(name) => Ok((name, rest)),
        Err(TextFault::BadUtf8) => Err(breaks(bytes, Reason::BadName).into()),
        Err(TextFault::OutOfMemory) => Err(DecodeError::Memory),
    }
}

#[tactic(auto, unfolding(frame_text::specs::Reading::optional_at))]
fn optional_count(
    present: bool,
    reason: Reason,
    bytes: &[u8],
) -> Result<(Option<u64>, &[u8]), Fault>
    ensures { Says (λ x. (x.0, x.1.now)) result (optional_at present reason bytes.now) }
{
    if !present {
        return Ok((None, bytes));
    }
    let (count, rest) = inner_count(reason, bytes)?;
    Ok((Some(count), rest))
}

#[tactic(auto, unfolding(frame_text::specs::Reading::offer_at))]
fn offer(alloc: Global, bytes: &[u8]) -> Result<(Payload, &[u8]), DecodeError>
    ensures { Gives (λ x. (x.0, x.1.now)) result (offer_at bytes.now) }
{
    let (has_window, rest) = inner_array(1, Reason::BadOffer, bytes)?;
    let (name, rest) = name(alloc, rest)?;
    let (window, rest) = optional_count(has_window, Reason::BadOffer, rest)?;
    Ok((Payload::Offer(name, window), rest))
}

#[tactic(auto, unfolding(frame_text::specs::Reading::accepted_at))]
fn accepted(bytes: &[u8]) -> Result<(Payload, &[u8]), Fault>
    ensures { Says (λ x. (x.0, x.1.now)) result (accepted_at bytes.now) }
{
    let (has_window, rest) = inner_array(0, Reason::BadAcceptance, bytes)?;
    let (window, rest) = optional_count(has_window, Reason::BadAcceptance, rest)?;
    Ok((Payload::Accepted(window), rest))
}

#[tactic(auto, unfolding(frame_text::specs::Reading::processed_at))]
fn processed(bytes: &[u8]) -> Result<(Payload, &[u8]), Fault>
    ensures { Says (λ x. (x.0, x.1.now)) result (processed_at bytes.now) }
{
    let (_, rest) = inner_array_of(1, Reason::BadProcessed, bytes)?;
    let (count, rest) = inner_count(Reason::BadProcessed, rest)?;
    Ok((Payload::Processed(count), rest))
}

/// A payload, after which nothing may stand.
fn ended(reason: Reason, payload: Payload, rest: &[u8]) -> Result<Payload, Fault>
    ensures { Says (λ p. p) result (ended reason (Ok (payload, rest.now))) }
{
    if rest.is_empty() {
        return Ok(payload);
    }
    match head(rest) {
        HeadStep::Refused(refused) => Err(breaks(rest, refused)),
        _ => Err(breaks(rest, reason)),
    }
}

/// What a frame of this code carries, by the bytes of its payload.
#[tactic(auto, unfolding(frame_text::specs::Reading::carried))]
pub fn carried(alloc: Global, code: Code, bytes: &[u8]) -> Result<Payload, DecodeError>
    ensures { Gives (λ p. p) result (carried code bytes.now) }
{
    match code {
        Code::Offer => {
            let (payload, rest) = offer(alloc, bytes)?;
            Ok(ended(Reason::BadOffer, payload, rest)?)
        }
        Code::OfferAccepted => {
            let (payload, rest) = accepted(bytes)?;
            Ok(ended(Reason::BadAcceptance, payload, rest)?)
        }
        Code::Content => Ok(Payload::Content(Blob::from_bytes(alloc, bytes)?)),
        Code::ContentWritingCompleted | Code::ChannelTerminated => Ok(Payload::Nothing),
        Code::ContentProcessed => {
            let (payload, rest) = processed(bytes)?;
            Ok(ended(Reason::BadProcessed, payload, rest)?)
        }
    }
}
