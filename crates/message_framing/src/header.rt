//! Header parts.

ghost use Rattle.std.specs.Prelude.{◌≡◌, ◌≤◌, ◌∷◌, ◌+◌, [], length, IfSome, MatchOption, option_map};
ghost use Rattle.message_framing.specs.Lines.{is_end, lines_of, header_lines};
ghost use Rattle.message_framing.specs.Header.{with_number, with_line, say, length_at, header_of};

use crate::field::{field, has_other_charset, is_same, number};
use wire_base::{MAX_BODY, Reason};

const CONTENT_LENGTH: &[u8] = b"Content-Length";

const CONTENT_TYPE: &[u8] = b"Content-Type";

/// The offset of a line's first byte, and the rule that the line breaks.
pub type Broken = (usize, Reason);

/// A header part.
#[derive(Clone, Copy, Debug)]
pub struct Header {
    /// How many bytes it has.
    pub size: usize,
    /// How many bytes the content part has, or the first line that breaks a rule.
    pub length: Result<u32, Broken>,
}

fn is_end(bytes: &[u8]) -> bool
    ensures { result ≡ is_end bytes.now }
{
    matches!(bytes, [b'\r', b'\n', ..])
}

/// A line without its end, and what follows.
#[tactic(auto, using(crate::proofs::LineLemmas::firsts))]
fn first_line(bytes: &[u8]) -> Option<(&[u8], &[u8])>
    ensures { MatchOption result (lines_of bytes.now ≡ [])
        (λ f. (lines_of bytes.now ≡ f.0.now ∷ lines_of f.1.now) × (length bytes.now ≡ length f.0.now + 2 + length f.1.now)) }
{
    for (i, _) in bytes.iter().enumerate() {
        if is_end(&bytes[i..]) {
            return Some((&bytes[..i], &bytes[i + 2..]));
        }
    }
    None
}

/// The length, with one that may stand before it.
fn with_number(found: Option<u32>, number: Option<u32>) -> Result<Option<u32>, Reason>
    ensures { result ≡ with_number found number }
{
    match number {
        None => Err(Reason::BadLength),
        Some(n) if n > MAX_BODY => Err(Reason::LengthTooBig),
        Some(0) => Err(Reason::BadLength),
        Some(_) if found.is_some() => Err(Reason::BadLength),
        Some(n) => Ok(Some(n)),
    }
}

/// The length after one more line.
fn with_line(found: Option<u32>, line: &[u8]) -> Result<Option<u32>, Reason>
    ensures { result ≡ with_line found line.now }
{
    let Some((name, value)) = field(line) else {
        return Err(Reason::BadHeader);
    };
    if is_same(name, CONTENT_LENGTH) {
        with_number(found, number(value))
    } else if is_same(name, CONTENT_TYPE) && has_other_charset(value) {
        Err(Reason::BadCharset)
    } else {
        Ok(found)
    }
}

/// What the lines say with the one at this offset.
fn say(at: usize, said: Result<Option<u32>, Broken>, line: &[u8]) -> Result<Option<u32>, Broken>
    ensures { result ≡ say at said line.now }
{
    match with_line(said?, line) {
        Ok(found) => Ok(found),
        Err(reason) => Err((at, reason)),
    }
}

/// What the lines say, where an empty one follows at this offset.
fn length_at(at: usize, said: Result<Option<u32>, Broken>) -> Result<u32, Broken>
    ensures { result ≡ length_at at said }
{
    match said? {
        Some(length) => Ok(length),
        None => Err((at, Reason::NoLength)),
    }
}

/// The header part at the front, if the bytes hold its end.
#[tactic(auto, using(crate::proofs::LineLemmas::headers))]
pub fn header_part(bytes: &[u8]) -> Option<Header>
    ensures header { result ≡ option_map header_of (header_lines bytes.now) }
    ensures within { IfSome result (λ h. h.size ≤ length bytes.now) }
{
    let mut said = Ok(None);
    let mut rest = bytes;
    while let Some((line, after)) = first_line(rest) {
        let at = bytes.len() - rest.len();
        if line.is_empty() {
            return Some(Header {
                size: at + 2,
                length: length_at(at, said),
            });
        }
        said = say(at, said, line);
        rest = after;
    }
    None
}
