//! The words of requests, each appended to a text. Values are written as JSON.

ghost use Rattle.std.specs.Prelude.{◌≡◌, ◌++◌, codes, OnOk};
ghost use Rattle.wire_base.specs.Tree.{whole, words};
ghost use Rattle.json_value.specs.Json.{shown};
ghost use Rattle.transcript.specs.Words.{id_text, outcome_text, progress_text, target_text};

use json_value::show;
use rpc_items::{Outcome, Target};
use std::alloc::Global;
use text_words::{push_decimal, push_text};
use wire_base::{Datum, Id, Node, OutOfMemory, Text, Whole};

fn push_whole(alloc: Global, out: &mut Vec<u8>, number: i64) -> Result<(), OutOfMemory>
    ensures { OnOk result (out.new.items ≡ out.old.items ++ shown (whole number)) }
{
    let value = Datum {
        node: Node::Whole(Whole::from_i64(number)),
    };
    show(alloc, &value, out)
}

fn push_words(alloc: Global, out: &mut Vec<u8>, text: &Text) -> Result<(), OutOfMemory>
    ensures { OnOk result (out.new.items ≡ out.old.items ++ shown (words text.now)) }
{
    let value = Datum {
        node: Node::Words(text.copy(alloc)?),
    };
    show(alloc, &value, out)
}

/// Appends the id of a request.
pub(crate) fn push_id(alloc: Global, out: &mut Vec<u8>, id: &Id) -> Result<(), OutOfMemory>
    ensures { OnOk result (out.new.items ≡ out.old.items ++ id_text id.now) }
{
    match id {
        Id::Number(number) => push_whole(alloc, out, *number),
        Id::Name(name) => push_words(alloc, out, name),
    }
}

/// Appends the object that a request calls, where it calls one of its own.
pub(crate) fn push_target(out: &mut Vec<u8>, target: Target) -> Result<(), OutOfMemory>
    ensures { OnOk result (out.new.items ≡ out.old.items ++ target_text target) }
{
    match target {
        Target::Root => Ok(()),
        Target::Object(object, _) => {
            push_text(out, "object ")?;
            push_decimal(out, object)?;
            push_text(out, " ")
        }
    }
}

fn push_failure(
    alloc: Global,
    out: &mut Vec<u8>,
    code: i64,
    message: &Text,
) -> Result<(), OutOfMemory>
    ensures { OnOk result (out.new.items ≡ out.old.items ++ (codes "failed " ++ shown (whole code) ++ codes " " ++ shown (words message.now))) }
{
    push_text(out, "failed ")?;
    push_whole(alloc, out, code)?;
    push_text(out, " ")?;
    push_words(alloc, out, message)
}

/// Appends what became of a request.
pub(crate) fn push_outcome(
    alloc: Global,
    out: &mut Vec<u8>,
    outcome: &Outcome,
) -> Result<(), OutOfMemory>
    ensures { OnOk result (out.new.items ≡ out.old.items ++ outcome_text outcome.now) }
{
    match outcome {
        Outcome::Replied(value) => {
            push_text(out, "replied ")?;
            show(alloc, value, out)
        }
        Outcome::Failed(code, message, _) => push_failure(alloc, out, *code, message),
        Outcome::Lost => push_text(out, "lost"),
        Outcome::Starved => push_text(out, "starved"),
    }
}

/// Appends the next report of progress, where one was left.
pub(crate) fn push_progress(
    alloc: Global,
    out: &mut Vec<u8>,
    value: &Option<Datum>,
) -> Result<(), OutOfMemory>
    ensures { OnOk result (out.new.items ≡ out.old.items ++ progress_text value.now) }
{
    match value {
        Some(value) => {
            push_text(out, "report ")?;
            show(alloc, value, out)
        }
        None => push_text(out, "report none"),
    }
}
