//! Reading an input to its end.

ghost use Rattle.std.specs.Prelude.{◌≡◌, ◌≤◌, length, IfOk, IfErr, OnOk, true};
ghost use Rattle.muxrpc_app.specs.Streams.{WasRead, HoldsNothing, InputFails, most_input};
ghost use Rattle.muxrpc_app.specs.Outcome.{input_status};

use crate::status::Status;
use std::alloc::Global;
use wire_base::{Failed, Source};

/// The most bytes of an input.
const MOST_INPUT: usize = 67_108_864;

/// The most bytes of one read.
const PIECE: usize = 65_536;

/// Why an input wasn't read to its end.
#[derive(Clone, Copy, Debug, PartialEq, Eq)]
pub enum InputFault {
    Failed,
    TooLong,
    OutOfMemory,
}

/// All bytes of a source, read to its end, or to one byte past the limit.
pub(crate) fn read_input<S: Source>(alloc: Global, source: &mut S) -> Result<Vec<u8>, InputFault>
    ensures bytes { IfOk result (λ v. WasRead (S.held source.old) (S.held source.new) v.items) }
    ensures within { IfOk result (λ v. length v.items ≤ most_input) }
    ensures ended { OnOk result (S.ended source.new ≡ true) }
    ensures at_end { OnOk result (HoldsNothing (S.held source.new)) }
    ensures fails { IfErr result (InputFails
        (record { held = S.held source.old; faults = S.faults source.old; ended = S.ended source.old })
        (record { held = S.held source.new; faults = S.faults source.new; ended = S.ended source.new })) }
    ensures later { S.faults source.old ≤ S.faults source.new }
{
    let mut bytes = Vec::new(alloc);
    let mut piece = [0u8; PIECE];
    'reading: loop {
        let room = (MOST_INPUT + 1 - bytes.len()).min(PIECE);
        let count = match source.read(&mut piece[..room]) {
            Ok(0) => return Ok(bytes),
            Ok(count) => count,
            Err(Failed) => return Err(InputFault::Failed),
        };
        if bytes.extend_from_slice(&piece[..count]).is_err() {
            return Err(InputFault::OutOfMemory);
        }
        if bytes.len() > MOST_INPUT {
            return Err(InputFault::TooLong);
        }
    }
}

/// The status of an input that wasn't read to its end.
pub(crate) fn input_status(fault: InputFault) -> Status
    ensures { result ≡ input_status fault }
{
    match fault {
        InputFault::Failed => Status::ReadFault,
        InputFault::TooLong => Status::TooLong,
        InputFault::OutOfMemory => Status::OutOfMemory,
    }
}
