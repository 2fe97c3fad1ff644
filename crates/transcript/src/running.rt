//! Running a script and reporting its run.

ghost use Rattle.std.specs.Prelude.{◌≡◌, ◌≤◌, ◌++◌, [], length, drop, false, codes, OnOk, OnErr, IfOk};
ghost use Rattle.std.specs.Fmt.{decimal};
ghost use Rattle.std.specs.List.{flat_map};
ghost use Rattle.mux_run.specs.Run.{terms_of};
ghost use Rattle.endpoint_run.specs.Answers.{run, side_of};
ghost use Rattle.endpoint_run.specs.Run.{start};
ghost use Rattle.endpoint_run.specs.declared.answers.DuoAnswer.{DuoAnswer};
ghost use Rattle.duo_world.specs.Holding.{StandsForRun};
ghost use Rattle.duo_world.specs.Stepping.{IsStepped};
ghost use Rattle.transcript.specs.Words.{event_line, emitted_line};
ghost use Rattle.transcript.specs.Ran.{HasRun};
ghost use Rattle.transcript.specs.Report.{answer_lines, step_lines, steps_lines, opening_lines, closing_lines, report_text};

use crate::events::push_event_line;
use crate::summary::push_summary;
use crate::words::{push_emitted_line, push_reply};
use duo_world::Duo;
use endpoint_run::{DuoAnswer, Side, SideEvent, Step};
use script::Script;
use std::alloc::Global;
use text_words::{other_side, push_decimal, push_line_feed, push_text};
use wire_base::OutOfMemory;

/// The side that a step is made at.
fn side_of(step: &Step) -> Side
    ensures { result ≡ side_of step.now }
{
    match step {
        Step::Call(side, _) => *side,
        Step::Deliver(side, _) => *side,
        Step::End(side) => *side,
    }
}

fn push_events(
    alloc: Global,
    out: &mut Vec<u8>,
    side: Side,
    events: &[SideEvent],
) -> Result<(), OutOfMemory>
    ensures { OnOk result (out.new.items ≡ out.old.items ++ flat_map (event_line side) events.now) }
{
    for event in events {
        push_event_line(alloc, out, side, event)?;
    }
    Ok(())
}

/// Appends what a step answered, and the lines of its events.
fn push_answer(
    alloc: Global,
    out: &mut Vec<u8>,
    side: Side,
    answer: &DuoAnswer,
) -> Result<(), OutOfMemory>
    ensures { OnOk result (out.new.items ≡ out.old.items ++ answer_lines side answer.now) }
{
    match answer {
        DuoAnswer::Replied(reply, events) => {
            push_reply(alloc, out, side, reply)?;
            push_line_feed(out)?;
            push_events(alloc, out, side, events.as_slice())
        }
        DuoAnswer::Delivered(count, events) => {
            push_text(out, "delivered ")?;
            push_decimal(out, *count)?;
            push_line_feed(out)?;
            push_events(alloc, out, side, events.as_slice())
        }
        DuoAnswer::Ended => {
            push_text(out, "ended")?;
            push_line_feed(out)
        }
        DuoAnswer::OutOfMemory => Ok(()),
    }
}

/// The bytes behind the first so many.
fn behind(bytes: &[u8], count: usize) -> &[u8]
    requires { count ≤ length bytes.now }
    ensures { result.now ≡ drop count bytes.now }
{
    &bytes[count..]
}

/// Appends the lines of a step at a side, by what it answered and what the side emitted in it.
fn push_told(
    alloc: Global,
    out: &mut Vec<u8>,
    number: u64,
    side: Side,
    answer: &DuoAnswer,
    emitted: &[u8],
) -> Result<(), OutOfMemory>
    ensures { OnOk result (out.new.items ≡ out.old.items ++ (decimal number ++ codes " " ++ answer_lines side answer.now ++ emitted_line side emitted.now)) }
{
    push_decimal(out, number)?;
    push_text(out, " ")?;
    push_answer(alloc, out, side, answer)?;
    push_emitted_line(alloc, out, side, emitted)
}

/// Makes a step, and appends its lines: what it answered, its events, and what its side emitted.
fn push_step(
    alloc: Global,
    out: &mut Vec<u8>,
    duo: &mut Duo,
    number: u64,
    step: Step,
) -> Result<(), OutOfMemory>
    requires { duo.old.failed ≡ false }
    ensures text { OnOk result (out.new.items ≡ out.old.items ++ step_lines duo.old.terms number step (run duo.old.terms duo.old.steps)) }
    ensures made { OnOk result ((reply : DuoAnswer) × IsStepped duo.old duo.new step reply) }
{
    let side = side_of(&step);
    let other = other_side(side);
    let before = duo.in_flight(other).len();
    let answer = duo.step(step);
    if let DuoAnswer::OutOfMemory = answer {
        return Err(OutOfMemory);
    }
    push_told(
        alloc,
        out,
        number,
        side,
        &answer,
        behind(duo.in_flight(other), before),
    )?;
    Ok(())
}

/// Makes all steps, from the first on, and appends their lines.
fn push_steps(
    alloc: Global,
    out: &mut Vec<u8>,
    duo: &mut Duo,
    steps: Vec<Step>,
) -> Result<(), OutOfMemory>
    requires fresh { duo.old.steps ≡ [] }
    requires works { duo.old.failed ≡ false }
    requires stands { StandsForRun duo.old }
    ensures text { OnOk result (out.new.items ≡ out.old.items ++ steps_lines duo.old.terms 1 start steps.items) }
    ensures made { OnOk result (HasRun duo.old.terms steps.items duo.new) }
{
    let mut number = 0;
    for step in steps {
        number += 1;
        push_step(alloc, out, duo, number, step)?;
    }
    Ok(())
}

/// Appends the lines before the first step, with what both ends emitted at their start.
fn push_opening(alloc: Global, out: &mut Vec<u8>, duo: &Duo) -> Result<(), OutOfMemory>
    requires fresh { duo.now.steps ≡ [] }
    requires stands { StandsForRun duo.now }
    ensures { OnOk result (out.new.items ≡ out.old.items ++ opening_lines duo.now.terms) }
{
    push_text(out, "report 1\n0 start\n")?;
    push_emitted_line(alloc, out, Side::A, duo.in_flight(Side::B))?;
    push_emitted_line(alloc, out, Side::B, duo.in_flight(Side::A))?;
    Ok(())
}

/// Appends the lines behind the last step: how both sides stand.
fn push_closing(alloc: Global, out: &mut Vec<u8>, duo: &Duo) -> Result<(), OutOfMemory>
    requires { StandsForRun duo.now }
    ensures { OnOk result (out.new.items ≡ out.old.items ++ closing_lines duo.now.terms (run duo.now.terms duo.now.steps)) }
{
    push_text(out, "state\n")?;
    push_summary(alloc, out, Side::A, duo.end(Side::A))?;
    push_summary(alloc, out, Side::B, duo.end(Side::B))?;
    push_text(out, "end\n")?;
    Ok(())
}

fn push_report(alloc: Global, out: &mut Vec<u8>, script: Script) -> Result<Duo, OutOfMemory>
    ensures text { OnOk result (out.new.items ≡ out.old.items ++ report_text (terms_of script.version script.nonces) script.steps) }
    ensures ran { IfOk result (HasRun (terms_of script.version script.nonces) script.steps) }
{
    let mut duo = Duo::start(alloc, script.version, script.nonces)?;
    push_opening(alloc, out, &duo)?;
    push_steps(alloc, out, &mut duo, script.steps.into_vec())?;
    push_closing(alloc, out, &duo)?;
    Ok(duo)
}

/// Runs a script in a world of its own, and appends the report of its run.
///
/// The world that ran it is answered: its terms and its steps are the script's. Where memory runs out nothing is appended.
pub fn report(alloc: Global, script: Script, out: &mut Vec<u8>) -> Result<Duo, OutOfMemory>
    ensures text { OnOk result (out.new.items ≡ out.old.items ++ report_text (terms_of script.version script.nonces) script.steps) }
    ensures ran { IfOk result (HasRun (terms_of script.version script.nonces) script.steps) }
    ensures err { OnErr result (out.new.items ≡ out.old.items) }
{
    let mut text = Vec::new(alloc);
    let duo = push_report(alloc, &mut text, script)?;
    out.extend_from_slice(&text)?;
    Ok(duo)
}
