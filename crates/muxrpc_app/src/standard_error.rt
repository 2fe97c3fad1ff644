//! The lines that the program writes to standard error.

ghost use Rattle.std.specs.Prelude.{◌≡◌, ◌≤◌, ◌++◌, OnOk, OnErr};
ghost use Rattle.std.specs.List.{flat_map};
ghost use Rattle.std.specs.Io.KnownBytes.{append_known};
ghost use Rattle.wire_base.specs.Causes.{Rose};
ghost use Rattle.muxrpc_app.specs.StatusText.{status_text, status_code};
ghost use Rattle.muxrpc_app.specs.Streams.{WroteFront};
ghost use Rattle.muxrpc_app.specs.Outcome.{Tells};

use crate::output::write_bytes;
use crate::status::Status;
use itoa::Buffer;
use wire_base::{Calls, Failed, MemSink, OutOfMemory, Sink};

/// What each line begins with.
const PROGRAM: &str = "muxrpc: ";

/// Writes texts, one after the other. After a failure a front of them is written.
fn write_texts<K: Sink>(sink: &mut K, texts: &[&str]) -> Result<(), Failed>
    ensures written { OnOk result (K.given sink.new ≡ append_known (K.given sink.old) (flat_map (λ t. t.now) texts.now)) }
    ensures front { OnErr result (WroteFront (K.given sink.old) (K.given sink.new) (flat_map (λ t. t.now) texts.now)) }
    ensures cause { OnErr result (Rose (K.faults sink.old) (K.faults sink.new)) }
    ensures later { K.faults sink.old ≤ K.faults sink.new }
{
    for text in texts {
        write_bytes(sink, text.as_bytes())?;
    }
    Ok(())
}

/// Writes the line of a status, its line feed included: nothing for `Done`. It takes no memory.
fn write_line<K: Sink>(sink: &mut K, status: &Status) -> Result<(), Failed>
    ensures written { OnOk result (K.given sink.new ≡ append_known (K.given sink.old) (status_text status.now)) }
    ensures front { OnErr result (WroteFront (K.given sink.old) (K.given sink.new) (status_text status.now)) }
    ensures cause { OnErr result (Rose (K.faults sink.old) (K.faults sink.new)) }
    ensures later { K.faults sink.old ≤ K.faults sink.new }
{
    let mut place = Buffer::new();
    let mut number = Buffer::new();
    match status {
        Status::Done => Ok(()),
        Status::Usage => write_texts(sink, &[PROGRAM, "usage", "\n"]),
        Status::ScriptRefused(line, reason) => write_texts(
            sink,
            &[
                PROGRAM,
                "line ",
                place.format(*line),
                ": ",
                number.format(*reason),
                "\n",
            ],
        ),
        Status::StreamRefused(at, reason) => write_texts(
            sink,
            &[
                PROGRAM,
                "refused at ",
                place.format(at.0),
                ": ",
                number.format(reason.number()),
                " ",
                reason.name(),
                "\n",
            ],
        ),
        Status::ReadFault => write_texts(sink, &[PROGRAM, "read fault", "\n"]),
        Status::WriteFault => write_texts(sink, &[PROGRAM, "write fault", "\n"]),
        Status::LinkFault => write_texts(sink, &[PROGRAM, "link fault", "\n"]),
        Status::OutOfMemory => write_texts(sink, &[PROGRAM, "out of memory", "\n"]),
        Status::TooLong => write_texts(sink, &[PROGRAM, "too long", "\n"]),
        Status::LinkEnded => write_texts(sink, &[PROGRAM, "link ended", "\n"]),
    }
}

/// Appends the line that the program writes to standard error, its line feed included: nothing for `Done`.
pub fn status_line(status: &Status, out: &mut Vec<u8>) -> Result<(), OutOfMemory>
    ensures ok { OnOk result (out.new.items ≡ out.old.items ++ status_text status.now) }
    ensures err { OnErr result (out.new.items ≡ out.old.items) }
{
    let alloc = *out.allocator();
    let mut line = MemSink::new(alloc, Calls::new(alloc));
    if write_line(&mut line, status).is_err() {
        return Err(OutOfMemory);
    }
    out.extend_from_slice(line.given())?;
    Ok(())
}

/// Writes the line of a status to `errors`, unless it is `Done`, and answers the exit status of the process.
pub fn tell<E: Sink>(status: &Status, errors: &mut E) -> u8
    ensures code { result ≡ status_code status.now }
    ensures line { Tells
        (record { given = E.given errors.old; faults = E.faults errors.old; flushed = E.flushed errors.old })
        (record { given = E.given errors.new; faults = E.faults errors.new; flushed = E.flushed errors.new })
        status.now }
{
    // Nobody is left to be told that this write failed.
    let _ = write_line(errors, status);
    status.code()
}
