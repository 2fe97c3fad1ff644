//! The lines of a script's head.

ghost use Rattle.std.specs.Prelude.{◌≡◌, map, IfOk};
ghost use Rattle.std.specs.Option.{ok_or};
ghost use Rattle.script.specs.Given.{Gives, line_seen};
ghost use Rattle.text_words.specs.Written.{side_word};
ghost use Rattle.script.specs.Steps.{on_ok, text_in, format_in, version_in, nonce_of, nonce_line_in};

use crate::fault::LineFault;
use crate::lines::{Line, text};
use crate::reason::ScriptReason;
use mux_items::NONCE_SIZE;
use mux_run::Side;
use std::alloc::Global;
use wire_base::{OutOfMemory, Version};

const BAD_HEAD: LineFault = LineFault::Refused(ScriptReason::BadHead);

/// The first line, which names the format.
#[tactic(auto, unfolding(crate::specs::Steps::format_in))]
pub fn format(line: &Line) -> Result<(), LineFault>
    ensures { Gives (λ _. tt) result (on_ok (text_in (line_seen line.now)) format_in) }
{
    match text(line)? {
        "script 1" => Ok(()),
        _ => Err(BAD_HEAD),
    }
}

/// The version that the second line names.
#[tactic(auto, unfolding(crate::specs::Steps::version_in))]
pub fn version(line: &Line) -> Result<Version, LineFault>
    ensures { Gives (λ v. v) result (on_ok (text_in (line_seen line.now)) version_in) }
{
    match text(line)? {
        "version 1" => Ok(Version::One),
        "version 2" => Ok(Version::Two),
        "version 3" => Ok(Version::Three),
        _ => Err(BAD_HEAD),
    }
}

/// The nonce of `side`, which its line names.
#[tactic(auto, unfolding(crate::specs::Steps::nonce_line_in))]
pub fn nonce(alloc: Global, side: Side, line: &Line) -> Result<[u8; NONCE_SIZE], LineFault>
    ensures { Gives (λ n. n) result (on_ok (text_in (line_seen line.now)) (nonce_line_in side)) }
{
    let text = text(line)?;
    let words = text_words::words(alloc, text)?;
    nonce_of(alloc, side, words.as_slice())?.ok_or(BAD_HEAD)
}

/// The nonce of `side` from the words of its line.
#[tactic(auto, unfolding(crate::specs::Steps::nonce_of))]
fn nonce_of(
    alloc: Global,
    side: Side,
    words: &[&str],
) -> Result<Option<[u8; NONCE_SIZE]>, OutOfMemory>
    ensures { IfOk result (λ o. o ≡ nonce_of side (map (λ w. w.now) words.now)) }
{
    let [first, letter, digits] = words else {
        return Ok(None);
    };
    if *first == "nonce" && *letter == letter_of(side) {
        text_words::nonce(alloc, digits)
    } else {
        Ok(None)
    }
}

fn letter_of(side: Side) -> &'static str
    ensures { result.now ≡ side_word side }
{
    match side {
        Side::A => "A",
        Side::B => "B",
    }
}
