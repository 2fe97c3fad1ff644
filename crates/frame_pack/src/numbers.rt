//! The numbers that a frame of version 2 or 3 begins with.

ghost use Rattle.frame_text.specs.Reading.{Says, a_number, code_in, id_in, origin_in, token_at};
ghost use Rattle.std.specs.Prelude.{◌≡◌};
ghost use Rattle.wire_base.specs.declared.reason.Reason.TheVariants.{BadCode, BadId, BadSource};

use wire_base::{COUNT_LIMIT, Code, Fault, Origin, Reason, breaks, number};

fn code_said(number: i128) -> Option<Code>
    ensures { result ≡ code_in number }
{
    if 0 <= number && number < 256 {
        Code::from_number(number as u8)
    } else {
        None
    }
}

#[tactic(auto, unfolding(wire_base::specs::Tokens::token_at))]
pub fn code(bytes: &[u8]) -> Result<(Code, &[u8]), Fault>
    ensures { Says (λ x. (x.0, x.1.now)) result (token_at a_number code_in BadCode bytes.now) }
{
    let (number, rest) = number(Reason::BadCode, bytes)?;
    match code_said(number) {
        Some(code) => Ok((code, rest)),
        None => Err(breaks(bytes, Reason::BadCode)),
    }
}

#[tactic(auto, unfolding(wire_base::specs::Tokens::token_at))]
pub fn id(bytes: &[u8]) -> Result<(u64, &[u8]), Fault>
    ensures { Says (λ x. (x.0, x.1.now)) result (token_at a_number id_in BadId bytes.now) }
{
    let (number, rest) = number(Reason::BadId, bytes)?;
    if 0 < number && number < COUNT_LIMIT as i128 {
        Ok((number as u64, rest))
    } else {
        Err(breaks(bytes, Reason::BadId))
    }
}

#[tactic(auto, unfolding(wire_base::specs::Tokens::token_at))]
pub fn source(bytes: &[u8]) -> Result<(Origin, &[u8]), Fault>
    ensures { Says (λ x. (x.0, x.1.now)) result (token_at a_number origin_in BadSource bytes.now) }
{
    let (number, rest) = number(Reason::BadSource, bytes)?;
    match number {
        1 => Ok((Origin::Sender, rest)),
        -1 => Ok((Origin::Receiver, rest)),
        _ => Err(breaks(bytes, Reason::BadSource)),
    }
}
