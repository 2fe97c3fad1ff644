//! Writing an output.

ghost use Rattle.std.specs.Prelude.{◌≡◌, ◌≤◌, OnOk, OnErr, true};
ghost use Rattle.std.specs.Io.KnownBytes.{append_known};
ghost use Rattle.wire_base.specs.Causes.{Rose};
ghost use Rattle.muxrpc_app.specs.Streams.{WroteFront};

use wire_base::{Failed, Sink};

/// Writes all bytes. After a failure a front of them is written.
pub(crate) fn write_bytes<K: Sink>(sink: &mut K, bytes: &[u8]) -> Result<(), Failed>
    ensures written { OnOk result (K.given sink.new ≡ append_known (K.given sink.old) bytes.now) }
    ensures front { OnErr result (WroteFront (K.given sink.old) (K.given sink.new) bytes.now) }
    ensures cause { OnErr result (Rose (K.faults sink.old) (K.faults sink.new)) }
    ensures later { K.faults sink.old ≤ K.faults sink.new }
{
    let mut at = 0;
    'writing: while at < bytes.len() {
        let count = sink.write(&bytes[at..])?;
        at += count;
    }
    Ok(())
}

/// Writes all bytes, and flushes. After a failure a front of them is written.
pub(crate) fn write_output<K: Sink>(sink: &mut K, bytes: &[u8]) -> Result<(), Failed>
    ensures written { OnOk result (K.given sink.new ≡ append_known (K.given sink.old) bytes.now) }
    ensures flushed { OnOk result (K.flushed sink.new ≡ true) }
    ensures front { OnErr result (WroteFront (K.given sink.old) (K.given sink.new) bytes.now) }
    ensures cause { OnErr result (Rose (K.faults sink.old) (K.faults sink.new)) }
    ensures later { K.faults sink.old ≤ K.faults sink.new }
{
    write_bytes(sink, bytes)?;
    sink.flush()
}
