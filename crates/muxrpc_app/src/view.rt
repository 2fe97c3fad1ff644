//! The command `view`.

ghost use Rattle.std.specs.Prelude.{◌≡◌, ◌≤◌, length, IfOk};
ghost use Rattle.stream_view.specs.Answers.{refusal_of};
ghost use Rattle.stream_view.specs.View.{view_text, view_refusal};
ghost use Rattle.muxrpc_app.specs.Outcome.{Viewed, view_status};

use crate::input::{input_status, read_input};
use crate::output::write_output;
use crate::status::Status;
use std::alloc::Global;
use stream_view::{ViewEnd, view_text};
use wire_base::{Failed, MAX_FED, OutOfMemory, Place, Reason, Sink, Source, Version};

/// The view of a capture, and where it is refused.
fn view_of(
    alloc: Global,
    version: Version,
    bytes: &[u8],
) -> Result<(Vec<u8>, Option<(Place, Reason)>), OutOfMemory>
    requires { length bytes.now ≤ MAX_FED }
    ensures text { IfOk result (λ x. x.0.items ≡ view_text version bytes.now) }
    ensures refusal { IfOk result (λ x. refusal_of x.1 ≡ view_refusal version bytes.now) }
{
    let mut text = Vec::new(alloc);
    match view_text(alloc, version, bytes, &mut text) {
        ViewEnd::Whole => Ok((text, None)),
        ViewEnd::Refused(place, reason) => Ok((text, Some((place, reason)))),
        ViewEnd::OutOfMemory => Err(OutOfMemory),
    }
}

/// The status of a capture that is refused there, or nowhere.
fn view_status(refusal: Option<(Place, Reason)>) -> Status
    ensures { result ≡ view_status (refusal_of refusal) }
{
    match refusal {
        Some((place, reason)) => Status::StreamRefused(place, reason),
        None => Status::Done,
    }
}

/// Reads a capture and writes its view.
pub(crate) fn view<S: Source, K: Sink>(
    alloc: Global,
    version: Version,
    input: &mut S,
    output: &mut K,
) -> Status
    ensures outcome { Viewed version
        (record { held = S.held input.old; faults = S.faults input.old; ended = S.ended input.old })
        (record { held = S.held input.new; faults = S.faults input.new; ended = S.ended input.new })
        (record { given = K.given output.old; faults = K.faults output.old; flushed = K.flushed output.old })
        (record { given = K.given output.new; faults = K.faults output.new; flushed = K.flushed output.new })
        result }
{
    let bytes = match read_input(alloc, input) {
        Ok(bytes) => bytes,
        Err(fault) => return input_status(fault),
    };
    let (text, refusal) = match view_of(alloc, version, &bytes) {
        Ok(view) => view,
        Err(OutOfMemory) => return Status::OutOfMemory,
    };
    match write_output(output, &text) {
        Ok(()) => view_status(refusal),
        Err(Failed) => Status::WriteFault,
    }
}
