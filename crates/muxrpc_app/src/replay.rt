//! The command `replay`.

ghost use Rattle.std.specs.Prelude.{◌≡◌, IfOk};
ghost use Rattle.mux_run.specs.Run.{terms_of};
ghost use Rattle.duo_world.specs.Stepping.{RunHolds};
ghost use Rattle.transcript.specs.Report.{report_text};
ghost use Rattle.muxrpc_app.specs.Outcome.{Replayed};

use crate::input::{input_status, read_input};
use crate::output::write_output;
use crate::status::Status;
use std::alloc::Global;
use transcript::{Script, ScriptFault, read_script, report};
use wire_base::{Failed, OutOfMemory, Sink, Source};

/// The report of the run of a script.
fn report_of(alloc: Global, script: Script) -> Result<Vec<u8>, OutOfMemory>
    ensures text { IfOk result (λ text. text.items ≡ report_text (terms_of script.version script.nonces) script.steps) }
    ensures holds { IfOk result (λ _. RunHolds (terms_of script.version script.nonces) script.steps) }
{
    let mut text = Vec::new(alloc);
    report(alloc, script, &mut text)?;
    Ok(text)
}

/// Reads a script, runs it and writes the report of its run.
pub(crate) fn replay<S: Source, K: Sink>(alloc: Global, input: &mut S, output: &mut K) -> Status
    ensures outcome { Replayed
        (record { held = S.held input.old; faults = S.faults input.old; ended = S.ended input.old })
        (record { held = S.held input.new; faults = S.faults input.new; ended = S.ended input.new })
        (record { given = K.given output.old; faults = K.faults output.old; flushed = K.flushed output.old })
        (record { given = K.given output.new; faults = K.faults output.new; flushed = K.flushed output.new })
        result }
{
    let bytes = match read_input(alloc, input) {
        Ok(bytes) => bytes,
        Err(fault) => return input_status(fault),
    };
    let script = match read_script(alloc, &bytes) {
        Ok(script) => script,
        Err(ScriptFault::Refused(line, reason)) => return Status::ScriptRefused(
            line,
            reason.number(),
        ),
        Err(ScriptFault::OutOfMemory) => return Status::OutOfMemory,
    };
    let text = match report_of(alloc, script) {
        Ok(text) => text,
        Err(OutOfMemory) => return Status::OutOfMemory,
    };
    match write_output(output, &text) {
        Ok(()) => Status::Done,
        Err(Failed) => Status::WriteFault,
    }
}
