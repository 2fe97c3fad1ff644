//! Replays of scripts, and the reports that they have to write.

use crate::runs::{sink, source, texts};
use muxrpc_app::{Status, run_plain};
use std::alloc::Global;
use std::process::Abort;
use std::test::Fail;
use wire_base::{MemSink, MemSource, Text};

/// What a report has to be.
#[derive(Clone, Copy)]
pub enum Wanted<'a> {
    /// The second text behind the first.
    Text(&'a str, &'a str),
    /// Any text with this end.
    End(&'a str),
}

/// A channel is made live.
const LIVE: &str = "script 1
version 3
offer A desk 102400
deliver B all
accept B A1 102400
deliver A all
";

const LIVE_REPORT: &str = "report 1
0 start
1 channel A1
 A> 94000101c40b92a46465736bce00019000
2 delivered 17
 B offered A1
3 ok
 B> 940101ffc40691ce00019000
4 delivered 12
 A accepted A1
";

fn is_met(wanted: Wanted, given: &[u8]) -> bool {
    match wanted {
        Wanted::Text(front, back) => {
            given.strip_prefix(front.as_bytes()) == Some(back.as_bytes())
        }
        Wanted::End(back) => given.ends_with(back.as_bytes()),
    }
}

fn is_report(rt: &impl Abort, script: &str, wanted: Wanted, given: &[u8]) {
    assert!(rt; is_met(wanted, given), "report of {script}");
}

fn is_done(alloc: Global, words: &[Text], input: &mut MemSource, output: &mut MemSink) -> bool {
    run_plain(alloc, words, input, output) == Status::Done
}

fn is_replayed(rt: &impl Abort, script: &str, is_done: bool) {
    assert!(rt; is_done, "status of {script}");
}

fn writes(
    rt: &impl Abort,
    alloc: Global,
    (script, wanted): (&str, Wanted),
    words: &[Text],
    input: &mut MemSource,
) -> Result<(), Fail> {
    let mut output = sink(alloc, "-")?;
    is_replayed(rt, script, is_done(alloc, words, input, &mut output));
    is_report(rt, script, wanted, output.given());
    Ok(())
}

fn reads(
    rt: &impl Abort,
    alloc: Global,
    (script, wanted): (&str, Wanted),
    words: &[Text],
) -> Result<(), Fail> {
    let mut input = source(alloc, script.as_bytes(), "-")?;
    writes(rt, alloc, (script, wanted), words, &mut input)
}

/// The script is replayed to its end, and writes what is wanted.
pub fn replays(rt: &impl Abort, alloc: Global, script: &str, wanted: Wanted) -> Result<(), Fail> {
    let words = texts(alloc, "muxrpc replay")?;
    reads(rt, alloc, (script, wanted), words.as_slice())
}

pub fn is_reported(rt: &impl Abort, alloc: Global, script: &str, report: &str) -> Result<(), Fail> {
    replays(rt, alloc, script, Wanted::Text("", report))
}

/// Each script has the report beside it.
pub fn are_reported(
    rt: &impl Abort,
    alloc: Global,
    rows: &[(&'static str, &'static str)],
) -> Result<(), Fail> {
    for (script, report) in rows {
        is_reported(rt, alloc, script, report)?;
    }
    Ok(())
}

fn goes_on(
    rt: &impl Abort,
    alloc: Global,
    (script, report): (&str, &str),
    text: &mut String,
) -> Result<(), Fail> {
    text.push_str(LIVE)?;
    text.push_str(script)?;
    replays(rt, alloc, text.as_str(), Wanted::Text(LIVE_REPORT, report))
}

fn is_reported_on_it(rt: &impl Abort, alloc: Global, row: (&str, &str)) -> Result<(), Fail> {
    let mut text = String::new(alloc);
    goes_on(rt, alloc, row, &mut text)
}

/// Each script goes on behind the live channel A1, and so does its report.
pub fn are_reported_on_it(
    rt: &impl Abort,
    alloc: Global,
    rows: &[(&'static str, &'static str)],
) -> Result<(), Fail> {
    for (script, report) in rows {
        is_reported_on_it(rt, alloc, (script, report))?;
    }
    Ok(())
}
