//! A source and a sink in memory, whose calls with some numbers fail.

use crate::calls::{are_same, gives, takes};
use crate::text_calls::blob;
use row_text::count;
use std::alloc::Global;
use std::process::Abort;
use std::test::Fail;
use wire_base::{Calls, MemSink, MemSource};

fn push_call(calls: &mut Calls, word: &str) -> Result<(), Fail> {
    calls.push(count(word))?;
    Ok(())
}

fn push_calls(calls: &mut Calls, words: &str) -> Result<(), Fail> {
    for word in words.split_whitespace() {
        push_call(calls, word)?;
    }
    Ok(())
}

fn failing(alloc: Global, words: &str) -> Result<Calls, Fail> {
    let mut calls = Calls::new(alloc);
    push_calls(&mut calls, words)?;
    Ok(calls)
}

fn source(alloc: Global, text: &str, calls: &str) -> Result<MemSource, Fail> {
    let bytes = blob(alloc, text)?;
    Ok(MemSource::new(bytes, failing(alloc, calls)?))
}

fn sink(alloc: Global, calls: &str) -> Result<MemSink, Fail> {
    Ok(MemSink::new(alloc, failing(alloc, calls)?))
}

#[test]
fn a_source_fails_at_its_second_read(rt: HostRuntime) -> Result<(), Fail> {
    let rows = "
        2      | ab
        failed | ab
        1      | cb
        0      | cb";
    let mut buf = *b"..";
    gives(
        &rt,
        rt.alloc(),
        &mut source(rt.alloc(), "abc", "2")?,
        &mut buf,
        rows,
    )
}

fn is_given(rt: &impl Abort, sink: &MemSink, wanted: &str) {
    are_same(rt, sink.given(), wanted);
}

fn takes_all(
    rt: &impl Abort,
    alloc: Global,
    sink: &mut MemSink,
    rows: &str,
    given: &str,
) -> Result<(), Fail> {
    takes(rt, alloc, sink, rows)?;
    is_given(rt, sink, given);
    Ok(())
}

#[test]
fn a_sink_fails_at_its_second_write_and_at_a_flush(rt: HostRuntime) -> Result<(), Fail> {
    let rows = "
        write ab | 2
        write cd | failed
        write e  | 1
        flush    | failed
        flush    | ok";
    takes_all(&rt, rt.alloc(), &mut sink(rt.alloc(), "2 4")?, rows, "abe")
}
