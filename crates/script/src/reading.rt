//! Scripts from their bytes.

ghost use Rattle.std.specs.Prelude.{◌≡◌, ◌+◌, ◌<◌, ◌≤◌, List, [], true, IfOk, OnOk};
ghost use Rattle.mux_run.specs.Run.{Terms, terms_of};
ghost use Rattle.script.specs.Found.{script_in, version_from, nonces_from, nonce_b_from, steps_from, reads, IsScriptOf};
ghost use Rattle.script.specs.Given.{Gives, Answers, line_seen, script_seen};
ghost use Rattle.script.specs.Limits.{most_steps, most_filled};
ghost use Rattle.script.specs.Lines.{lines_of};
ghost use Rattle.script.specs.Spelling.{StepLine, AreTerms, AreScripted, script_text, steps_of, has_nonces};
ghost use Rattle.script.specs.Steps.{filling, step_after};

use crate::fault::{LineFault, ScriptFault};
use crate::line_step::LineStep;
use crate::lines::{Line, next_line, text};
use crate::reason::ScriptReason;
use crate::{head, steps};
use endpoint_run::StepList;
use mux_items::NONCE_SIZE;
use mux_run::Side;
use std::alloc::Global;
use wire_base::Version;

/// The most steps that a script has.
const MOST_STEPS: usize = 100_000;

/// The most bytes that all lines with `fill` write together.
const MOST_FILLED: u32 = 67_108_864;

/// The number of the first line that is a step, where the head has no nonces.
const FIRST_STEP_LINE: u64 = 3;

/// The number of the first line that is a step behind two nonces.
const FIRST_STEP_LINE_BEHIND_NONCES: u64 = 5;

/// A script: the version, the nonces of A and of B, and the steps. In version 3, which has no nonces, the bytes of both
/// are 00.
#[derive(Debug, Drop)]
pub struct Script {
    pub version: Version,
    pub nonces: [[u8; NONCE_SIZE]; 2],
    pub steps: StepList,
}

/// The script that the bytes are, or the first line that breaks it, counted from 1, and why.
pub fn read_script(alloc: Global, bytes: &[u8]) -> Result<Script, ScriptFault>
    ensures exact { Answers script_seen result (script_in bytes.now) }

    // What is read is the text of a script that is written so.
    ensures text { IfOk result (λ s. IsScriptOf bytes.now (terms_of s.version s.nonces) s.steps) }

    // What is written so is read, unless memory runs out.
    ensures only { (terms : Terms) (lines : List StepLine) → AreTerms terms → AreScripted lines → bytes.now ≡ script_text terms lines
        → Answers script_seen result (reads terms (steps_of lines)) }
{
    read_lines(alloc, bytes)
}

/// The script or the first broken line.
fn read_lines(alloc: Global, bytes: &[u8]) -> Result<Script, ScriptFault>
    ensures { Answers script_seen result (script_in bytes.now) }
{
    let Some(line) = next_line(bytes) else {
        return Err(ScriptFault::Refused(1, ScriptReason::BadHead));
    };
    match head::format(&line) {
        Ok(()) => read_version(alloc, line.rest),
        Err(fault) => Err(fault.at(1)),
    }
}

/// The script whose lines from the second on these are.
fn read_version(alloc: Global, bytes: &[u8]) -> Result<Script, ScriptFault>
    ensures { Answers script_seen result (version_from (lines_of bytes.now)) }
{
    let Some(line) = next_line(bytes) else {
        return Err(ScriptFault::Refused(2, ScriptReason::BadHead));
    };
    match head::version(&line) {
        Ok(Version::Three) => read_steps(
            alloc,
            Version::Three,
            [[0; NONCE_SIZE]; 2],
            FIRST_STEP_LINE,
            line.rest,
        ),
        Ok(version) => read_nonce_a(alloc, version, line.rest),
        Err(fault) => Err(fault.at(2)),
    }
}

/// The script of a version that has nonces, from the line of A's on.
fn read_nonce_a(alloc: Global, version: Version, bytes: &[u8]) -> Result<Script, ScriptFault>
    requires { has_nonces version ≡ true }
    ensures { Answers script_seen result (nonces_from version (lines_of bytes.now)) }
{
    let Some(line) = next_line(bytes) else {
        return Err(ScriptFault::Refused(3, ScriptReason::BadHead));
    };
    match head::nonce(alloc, Side::A, &line) {
        Ok(nonce) => read_nonce_b(alloc, version, nonce, line.rest),
        Err(fault) => Err(fault.at(3)),
    }
}

/// The script whose first nonce this is, from the line of B's on.
fn read_nonce_b(
    alloc: Global,
    version: Version,
    nonce_a: [u8; NONCE_SIZE],
    bytes: &[u8],
) -> Result<Script, ScriptFault>
    ensures { Answers script_seen result (nonce_b_from version nonce_a (lines_of bytes.now)) }
{
    let Some(line) = next_line(bytes) else {
        return Err(ScriptFault::Refused(4, ScriptReason::BadHead));
    };
    match head::nonce(alloc, Side::B, &line) {
        Ok(nonce_b) => read_steps(
            alloc,
            version,
            [nonce_a, nonce_b],
            FIRST_STEP_LINE_BEHIND_NONCES,
            line.rest,
        ),
        Err(fault) => Err(fault.at(4)),
    }
}

/// The script whose head was read and whose steps are these lines, from the one with this number on.
fn read_steps(
    alloc: Global,
    version: Version,
    nonces: [[u8; NONCE_SIZE]; 2],
    first: u64,
    bytes: &[u8],
) -> Result<Script, ScriptFault>
    requires { first ≤ 5 }
    ensures { Answers script_seen result (steps_from (terms_of version nonces) [] 0 first (lines_of bytes.now)) }
{
    let mut steps = StepList::new(alloc);
    let mut filled = 0;
    let mut number = first;
    let mut rest = bytes;
    while let Some(line) = next_line(rest) {
        let line_step = match step_after(alloc, steps.len(), filled, &line) {
            Ok(line_step) => line_step,
            Err(fault) => return Err(fault.at(number)),
        };
        filled += line_step.filled;
        steps.push(line_step.step)?;
        number += 1;
        rest = line.rest;
    }
    Ok(Script {
        version,
        nonces,
        steps,
    })
}

/// The step of a line behind so many steps, which filled in so many bytes.
#[tactic(auto, unfolding(crate::specs::Steps::step_after))]
fn step_after(alloc: Global, steps: usize, filled: u32, line: &Line) -> Result<LineStep, LineFault>
    ensures exact { Gives (λ l. l) result (step_after steps filled (line_seen line.now)) }
    ensures few { OnOk result (steps < most_steps) }
    ensures within { IfOk result (λ l. filled + l.filled ≤ most_filled) }
{
    let text = text(line)?;
    if steps >= MOST_STEPS {
        return Err(LineFault::Refused(ScriptReason::TooManySteps));
    }
    let words = text_words::words(alloc, text)?;
    let line_step = steps::step(alloc, words.as_slice())?;
    filling(filled, line_step)
}

/// The step of a line behind lines that filled in so many bytes, if that isn't too much together.
#[tactic(auto, unfolding(crate::specs::Steps::filling))]
fn filling(filled: u32, line_step: LineStep) -> Result<LineStep, LineFault>
    ensures exact { Gives (λ l. l) result (filling filled line_step) }
    ensures within { IfOk result (λ l. filled + l.filled ≤ most_filled) }
{
    if filled <= MOST_FILLED && line_step.filled <= MOST_FILLED - filled {
        Ok(line_step)
    } else {
        Err(LineFault::Refused(ScriptReason::BadWord))
    }
}
