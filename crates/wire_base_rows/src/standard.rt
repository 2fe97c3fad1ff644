//! Sources and sinks over a reader and a writer of the tests' own.

use crate::calls::{are_same, gives, takes};
use std::alloc::Global;
use std::io;
use std::io::{ErrorKind, Read, Write};
use std::process::Abort;
use std::test::Fail;
use wire_base::{StdSink, StdSource};

/// Two bytes at most a call, and nothing at its second.
struct ShortReader<'a> {
    rest: &'a [u8],
    calls: u32,
}

impl Drop for ShortReader<'_> {
    fn drop(self) {
        let ShortReader { rest: _, calls: _ } = self;
    }
}

impl Read for ShortReader<'_> {
    fn read(&mut self, buf: &mut [u8]) -> io::Result<usize> {
        self.calls = self.calls.saturating_add(1);
        if self.calls == 2 {
            return Err(io::Error::from(ErrorKind::Interrupted));
        }
        let count = buf.len().min(self.rest.len()).min(2);
        buf[..count].copy_from_slice(&self.rest[..count]);
        self.rest = &self.rest[count..];
        Ok(count)
    }
}

/// Takes two bytes at most a call, none at its second, and fails at its third and at its first flush.
#[derive(Drop)]
struct ShortWriter {
    given: Vec<u8>,
    writes: u32,
    flushes: u32,
}

impl Write for ShortWriter {
    fn write(&mut self, piece: &[u8]) -> io::Result<usize> {
        self.writes = self.writes.saturating_add(1);
        match self.writes {
            2 => Ok(0),
            3 => Err(io::Error::from(ErrorKind::Interrupted)),
            _ => {
                let count = piece.len().min(2);
                self.given.extend_from_slice(&piece[..count])?;
                Ok(count)
            }
        }
    }

    fn flush(&mut self) -> io::Result<()> {
        self.flushes = self.flushes.saturating_add(1);
        if self.flushes == 1 {
            return Err(io::Error::from(ErrorKind::Interrupted));
        }
        Ok(())
    }
}

fn is_count(rt: &impl Abort, count: u32, wanted: u32) {
    assert_eq!(rt; count, wanted);
}

fn gives_all(
    rt: &impl Abort,
    alloc: Global,
    reader: &mut ShortReader<'_>,
    rows: &str,
) -> Result<(), Fail> {
    let mut buf = *b"....";
    let mut source = StdSource::new(reader);
    gives(rt, alloc, &mut source, &mut buf, rows)
}

fn is_read(
    rt: &impl Abort,
    alloc: Global,
    reader: &mut ShortReader<'_>,
    rows: &str,
    calls: u32,
) -> Result<(), Fail> {
    gives_all(rt, alloc, reader, rows)?;
    is_count(rt, reader.calls, calls);
    Ok(())
}

fn reader(rest: &[u8]) -> ShortReader<'_> {
    ShortReader { rest, calls: 0 }
}

#[test]
fn a_source_gives_what_its_reader_gives(rt: HostRuntime) -> Result<(), Fail> {
    let rows = "
        2      | ab..
        failed | ab..
        1      | cb..
        0      | cb..";
    is_read(&rt, rt.alloc(), &mut reader(b"abc"), rows, 4)
}

fn takes_all(
    rt: &impl Abort,
    alloc: Global,
    writer: &mut ShortWriter,
    rows: &str,
) -> Result<(), Fail> {
    let mut sink = StdSink::new(writer);
    takes(rt, alloc, &mut sink, rows)
}

/// What it was given, and how many writes and flushes came to it.
fn has_taken(rt: &impl Abort, writer: &ShortWriter, given: &str, writes: u32, flushes: u32) {
    are_same(rt, writer.given.as_slice(), given);
    is_count(rt, writer.writes, writes);
    is_count(rt, writer.flushes, flushes);
}

fn is_written(
    rt: &impl Abort,
    alloc: Global,
    writer: &mut ShortWriter,
    rows: &str,
) -> Result<(), Fail> {
    takes_all(rt, alloc, writer, rows)?;
    has_taken(rt, writer, "abc", 4, 2);
    Ok(())
}

fn writer(alloc: Global) -> ShortWriter {
    ShortWriter {
        given: Vec::new(alloc),
        writes: 0,
        flushes: 0,
    }
}

#[test]
fn a_sink_writes_and_flushes_its_writer(rt: HostRuntime) -> Result<(), Fail> {
    let rows = "
        write abc | 2
        write c   | failed
        write c   | failed
        write c   | 1
        flush     | failed
        flush     | ok";
    is_written(&rt, rt.alloc(), &mut writer(rt.alloc()), rows)
}
