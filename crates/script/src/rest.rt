//! What stands behind the words of a step, as the rest of its line.

ghost use Rattle.std.specs.Prelude.{◌≡◌, map, IfOk, string_bytes};
ghost use Rattle.std.specs.List.{join_with_byte};
ghost use Rattle.script.specs.Given.{Gives, GivesRest};
ghost use Rattle.script.specs.Rests.{text_behind, read_rest, json, arguments, string, array};
ghost use Rattle.script.specs.Table.{arguments_said, array_said, json_said, string_said};
ghost use Rattle.text_words.specs.Bytes.{space};

use crate::fault::LineFault;
use crate::reason::ScriptReason;
use rpc_end::Arguments;
use std::alloc::Global;
use wire_base::{Datum, DatumList, OutOfMemory, Text};

const BAD_JSON: LineFault = LineFault::Refused(ScriptReason::BadJson);

/// The words as they stood in their line.
#[tactic(auto, using(crate::proofs::RestTexts::joined))]
fn joined(alloc: Global, words: &[&str]) -> Result<String, OutOfMemory>
    ensures { IfOk result (λ text. string_bytes text ≡ join_with_byte space (map (λ w. w.now) words.now)) }
{
    Ok(words.join(alloc, " ")?)
}

/// The text that has to be there.
fn text(alloc: Global, words: &[&str]) -> Result<String, LineFault>
    ensures { Gives string_bytes result (text_behind (map (λ w. w.now) words.now)) }
{
    match words {
        [] => Err(LineFault::Refused(ScriptReason::BadWord)),
        [_, ..] => Ok(joined(alloc, words)?),
    }
}

/// The value that the rest of a line is as JSON.
pub fn json(alloc: Global, words: &[&str]) -> Result<Datum, LineFault>
    ensures { GivesRest json_said result (read_rest json (map (λ w. w.now) words.now)) }
{
    let text = text(alloc, words)?;
    text_words::json(alloc, text.as_str())?.ok_or(BAD_JSON)
}

/// The text that it is as a JSON string.
pub fn string(alloc: Global, words: &[&str]) -> Result<Text, LineFault>
    ensures { GivesRest string_said result (read_rest string (map (λ w. w.now) words.now)) }
{
    let text = text(alloc, words)?;
    text_words::string(alloc, text.as_str())?.ok_or(BAD_JSON)
}

/// The values of the JSON array that it is.
pub fn array(alloc: Global, words: &[&str]) -> Result<DatumList, LineFault>
    ensures { GivesRest array_said result (read_rest array (map (λ w. w.now) words.now)) }
{
    let text = text(alloc, words)?;
    text_words::array(alloc, text.as_str())?.ok_or(BAD_JSON)
}

/// The arguments that it is.
pub fn arguments(alloc: Global, words: &[&str]) -> Result<Arguments, LineFault>
    ensures { GivesRest arguments_said result (read_rest arguments (map (λ w. w.now) words.now)) }
{
    let text = text(alloc, words)?;
    text_words::arguments(alloc, text.as_str())?.ok_or(BAD_JSON)
}
