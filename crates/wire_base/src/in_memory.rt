//! A source and a sink in memory, whose calls fail where they are told to.

ghost use Rattle.std.specs.Prelude.{◌≡◌, ◌≤◌, ◌<◌, ◌++◌, ◌∷◌, [], length, drop, slice_get, false, IsTrue, IsErr, ◌↔◌, Contains, Some, OnOk, OnErr, IfOk};
ghost use Rattle.std.specs.Option.{option_copied};
ghost use Rattle.wire_base.specs.Causes.{HasCause};
ghost use Rattle.wire_base.specs.Memory.{source_held, source_calls, source_failing, source_faults, source_ended, sink_given, sink_calls, sink_failing, sink_faults, sink_flushed, one_more};
ghost use Rattle.wire_base.specs.Streams.{Moves, EndsExactly, Takes, answered_0, answered_ok};

use crate::blob::Blob;
use crate::out_of_memory::OutOfMemory;
use crate::streams::{Failed, Sink, Source};
use std::alloc::Global;
use std::marker::Model;

/// The numbers of the calls that are to fail, in any order. Each source and sink counts its own calls, from 1:
/// a source its reads, a sink its writes and flushes together.
#[derive(Drop)]
pub struct Calls {
    numbers: Vec<u64>,
}

impl Model for Calls {
    ghost use Rattle.std.specs.Prelude.{List, ℕ};

    ghost Value = { List ℕ };

    ghost view = { λ c. c.numbers.items };
}

impl Calls {
    /// No call is to fail.
    pub fn new(alloc: Global) -> Calls
        ensures { result ≡ [] }
    {
        Calls {
            numbers: Vec::new(alloc),
        }
    }

    /// How many numbers there are.
    pub fn len(&self) -> usize
        ensures { result ≡ length self.now }
    {
        self.numbers.len()
    }

    /// The number at this index, from 0.
    pub fn get(&self, i: usize) -> Option<&u64>
        ensures { option_copied result ≡ slice_get self.now i }
    {
        self.numbers.get(i)
    }

    /// Adds the number of one more call.
    pub fn push(&mut self, item: u64) -> Result<(), OutOfMemory>
        ensures ok { OnOk result (self.new ≡ self.old ++ item ∷ []) }
        ensures err { OnErr result (self.new ≡ self.old) }
    {
        self.numbers.push(item)?;
        Ok(())
    }

    fn has(&self, number: u64) -> bool
        ensures { IsTrue result ↔ Contains self.now number }
    {
        self.numbers.contains(&number)
    }
}

/// A source whose bytes lie in memory.
#[derive(Drop)]
pub struct MemSource {
    bytes: Blob,
    at: usize,
    failing: Calls,
    calls: u64,
    faults: u64,
    ended: bool,
}

impl MemSource {
    /// A source of these bytes, whose reads with these numbers fail.
    pub fn new(bytes: Blob, failing: Calls) -> MemSource
        ensures held { source_held result ≡ Some bytes }
        ensures failing { source_failing result ≡ failing }
        ensures calls { source_calls result ≡ 0 }
        ensures faults { source_faults result ≡ 0 }
        ensures ended { source_ended result ≡ false }
    {
        MemSource {
            bytes,
            at: 0,
            failing,
            calls: 0,
            faults: 0,
            ended: false,
        }
    }
}

fn rest_of(bytes: &[u8], at: usize) -> &[u8]
    ensures { result.now ≡ drop at bytes.now }
{
    if at <= bytes.len() { &bytes[at..] } else { &[] }
}

impl Source for MemSource {
    ghost held = { source_held };

    ghost faults = { source_faults };

    ghost ended = { source_ended };

    fn read(&mut self, buf: &mut [u8]) -> Result<usize, Failed>
        requires { 0 < length buf.old }
        ensures bound { IfOk result (λ n. n ≤ length buf.new) }
        ensures bytes { Moves (source_held self.old) (source_held self.new) result buf.new }
        ensures end { EndsExactly (source_held self.old) result }
        ensures ended { source_ended self.new ≡ answered_0 result }
        ensures cause { HasCause (source_faults self.old) (source_faults self.new) result }
        // It fails exactly where its number is listed, and a fault is counted there alone.
        ensures fails { IsErr result ↔ Contains (source_failing self.old) (one_more (source_calls self.old)) }
        ensures counted { OnOk result (source_faults self.new ≡ source_faults self.old) }
        ensures calls { source_calls self.new ≡ one_more (source_calls self.old) }
        ensures failing { source_failing self.new ≡ source_failing self.old }
    {
        self.calls = self.calls.saturating_add(1);
        if self.failing.has(self.calls) {
            self.faults = self.faults.saturating_add(1);
            self.ended = false;
            return Err(Failed);
        }
        let rest = rest_of(self.bytes.as_bytes(), self.at);
        let count = rest.len().min(buf.len());
        buf[..count].copy_from_slice(&rest[..count]);
        self.at += count;
        self.ended = count == 0;
        Ok(count)
    }
}

/// A sink that keeps what it is given.
#[derive(Drop)]
pub struct MemSink {
    given: Vec<u8>,
    failing: Calls,
    calls: u64,
    faults: u64,
    flushed: bool,
}

impl MemSink {
    /// A sink that was given nothing, whose writes and flushes with these numbers fail.
    pub fn new(alloc: Global, failing: Calls) -> MemSink
        ensures given { sink_given result ≡ Some [] }
        ensures failing { sink_failing result ≡ failing }
        ensures calls { sink_calls result ≡ 0 }
        ensures faults { sink_faults result ≡ 0 }
        ensures flushed { sink_flushed result ≡ false }
    {
        MemSink {
            given: Vec::new(alloc),
            failing,
            calls: 0,
            faults: 0,
            flushed: false,
        }
    }

    /// The bytes of every write that answered Ok, in order.
    pub fn given(&self) -> &[u8]
        ensures { sink_given self.now ≡ Some result.now }
    {
        self.given.as_slice()
    }
}

impl Sink for MemSink {
    ghost given = { sink_given };

    ghost faults = { sink_faults };

    ghost flushed = { sink_flushed };

    fn write(&mut self, piece: &[u8]) -> Result<usize, Failed>
        requires { 0 < length piece.now }
        ensures bound { IfOk result (λ n. n ≤ length piece.now) }
        ensures some { IfOk result (λ n. 0 < n) }
        ensures bytes { Takes (sink_given self.old) (sink_given self.new) result piece.now }
        ensures flushed { sink_flushed self.new ≡ false }
        ensures cause { HasCause (sink_faults self.old) (sink_faults self.new) result }
        // It fails where its number is listed, and otherwise only for want of memory. It never takes less than the piece.
        ensures fails { Contains (sink_failing self.old) (one_more (sink_calls self.old)) → IsErr result }
        ensures whole { IfOk result (λ n. n ≡ length piece.now) }
        ensures counted { OnOk result (sink_faults self.new ≡ sink_faults self.old) }
        ensures calls { sink_calls self.new ≡ one_more (sink_calls self.old) }
        ensures failing { sink_failing self.new ≡ sink_failing self.old }
    {
        self.calls = self.calls.saturating_add(1);
        self.flushed = false;
        if self.failing.has(self.calls) || self.given.extend_from_slice(piece).is_err() {
            self.faults = self.faults.saturating_add(1);
            return Err(Failed);
        }
        Ok(piece.len())
    }

    fn flush(&mut self) -> Result<(), Failed>
        ensures bytes { sink_given self.new ≡ sink_given self.old }
        ensures flushed { sink_flushed self.new ≡ answered_ok result }
        ensures cause { HasCause (sink_faults self.old) (sink_faults self.new) result }
        // It fails exactly where its number is listed.
        ensures fails { IsErr result ↔ Contains (sink_failing self.old) (one_more (sink_calls self.old)) }
        ensures counted { OnOk result (sink_faults self.new ≡ sink_faults self.old) }
        ensures calls { sink_calls self.new ≡ one_more (sink_calls self.old) }
        ensures failing { sink_failing self.new ≡ sink_failing self.old }
    {
        self.calls = self.calls.saturating_add(1);
        if self.failing.has(self.calls) {
            self.faults = self.faults.saturating_add(1);
            self.flushed = false;
            return Err(Failed);
        }
        self.flushed = true;
        Ok(())
    }
}
