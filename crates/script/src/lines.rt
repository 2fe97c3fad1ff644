//! The lines of a text, one after another.

ghost use Rattle.std.specs.Prelude.{◌≡◌, ◌==◌, ◌∷◌, ◌<◌, [], length, MatchOption, IfSome, position};
ghost use Rattle.script.specs.Given.{Gives, line_seen};
ghost use Rattle.script.specs.Lines.{lines_of};
ghost use Rattle.script.specs.Steps.{text_in};
ghost use Rattle.text_words.specs.Bytes.{line_feed_byte};

use crate::fault::LineFault;
use crate::reason::ScriptReason;
use std::str;

/// A line without its line feed, whether one ends it, and what follows.
#[derive(Clone, Copy, Debug)]
pub struct Line<'a> {
    pub text: &'a [u8],
    pub has_end: bool,
    pub rest: &'a [u8],
}

/// The first line.
pub fn next_line(bytes: &[u8]) -> Option<Line<'_>>
    ensures line { MatchOption result (lines_of bytes.now ≡ [])
        (λ l. lines_of bytes.now ≡ record { text = l.text.now; has_end = l.has_end } ∷ lines_of l.rest.now) }
    ensures shorter { IfSome result (λ l. length l.rest.now < length bytes.now) }
{
    if bytes.is_empty() {
        return None;
    }
    match line_end(bytes) {
        Some(end) => Some(Line {
            text: &bytes[..end],
            has_end: true,
            rest: &bytes[end + 1..],
        }),
        None => Some(Line {
            text: bytes,
            has_end: false,
            rest: &bytes[bytes.len()..],
        }),
    }
}

fn line_end(bytes: &[u8]) -> Option<usize>
    ensures { result ≡ position (λ b. b == line_feed_byte) bytes.now }
{
    bytes.iter().position(|byte| *byte == b'\n')
}

/// The text of a whole line.
#[tactic(auto, using(crate::proofs::TextLemmas::texts))]
pub fn text<'a>(line: &Line<'a>) -> Result<&'a str, LineFault>
    ensures { Gives (λ t. t.now) result (text_in (line_seen line.now)) }
{
    let Ok(text) = str::from_utf8(line.text) else {
        return Err(LineFault::Refused(ScriptReason::NotUtf8));
    };
    if line.has_end {
        Ok(text)
    } else {
        Err(LineFault::Refused(ScriptReason::NoLineEnd))
    }
}
