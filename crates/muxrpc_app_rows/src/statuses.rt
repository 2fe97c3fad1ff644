//! Statuses, with their exit codes and lines.

use crate::runs::{Output, Run, runs, runs_on, sink};
use muxrpc_app::{Status, status_line, tell};
use std::alloc::Global;
use std::process::Abort;
use std::test::Fail;
use wire_base::{Failed, MemSink, Place, Reason, Source};

/// The words of a run, its input, its exit code and its line. A `/` ends a line of the input, and of standard error.
const RUNS: &str = "muxrpc replay < script 1/version 3/ | 0
 < script 1/version 3/ | 1 muxrpc: usage/
muxrpc < script 1/version 3/ | 1 muxrpc: usage/
muxrpc Replay < script 1/version 3/ | 1 muxrpc: usage/
muxrpc replay - < script 1/version 3/ | 1 muxrpc: usage/
muxrpc replay < script 2/ | 2 muxrpc: line 1: 90/
muxrpc replay < script 1/version 3/offer C a 8/ | 2 muxrpc: line 3: 92/
muxrpc replay < script 1/version 3/release A A1 1/ | 2 muxrpc: line 3: 92/
muxrpc replay < script 1/version 3/end A/result B A1 1 {/ | 2 muxrpc: line 4: 93/
muxrpc replay < script 1/version 3/wave A/ | 2 muxrpc: line 3: 91/
muxrpc replay < script 1/version 2/ | 2 muxrpc: line 3: 90/
muxrpc replay < script 1/version 3 | 2 muxrpc: line 2: 97/
muxrpc replay <  | 2 muxrpc: line 1: 90/";

/// The text with the ends of its lines.
fn adds_lined(text: &mut String, row: &str) -> Result<(), Fail> {
    for letter in row.chars() {
        text.push(if letter == '/' { '\n' } else { letter })?;
    }
    Ok(())
}

/// A code, and the line behind it.
fn code_and_line(words: &str) -> (u8, &str) {
    let (code, line) = words.split_once(' ').unwrap_or((words, ""));
    (code.parse::<u8>().unwrap_or(u8::MAX), line)
}

fn is_run(rt: &impl Abort, alloc: Global, row: &str) -> Result<(), Fail> {
    let (given, wanted) = row.split_once(" | ").unwrap_or((row, ""));
    let (words, input) = given.split_once(" < ").unwrap_or((given, ""));
    let (code, line) = code_and_line(wanted);
    let run = Run {
        words,
        input: input.as_bytes(),
        reads: "-",
        writes: "-",
        tells: "-",
        code,
        output: Output::IfDone,
        line,
    };
    runs(rt, alloc, &run)
}

fn is_lined_run(rt: &impl Abort, alloc: Global, row: &str, text: &mut String) -> Result<(), Fail> {
    adds_lined(text, row)?;
    is_run(rt, alloc, text.as_str())
}

fn is_row(rt: &impl Abort, alloc: Global, row: &str) -> Result<(), Fail> {
    let mut text = String::new(alloc);
    is_lined_run(rt, alloc, row, &mut text)
}

fn are_rows(rt: &impl Abort, alloc: Global, rows: &str) -> Result<(), Fail> {
    for row in rows.lines() {
        is_row(rt, alloc, row)?;
    }
    Ok(())
}

#[test]
fn words_and_scripts_are_refused(rt: HostRuntime) -> Result<(), Fail> {
    are_rows(&rt, rt.alloc(), RUNS)
}

/// A replay of the empty script ends with this code and line where these calls of the input, of the output and of standard
/// error fail.
fn fails<'a>(
    rt: &impl Abort,
    alloc: Global,
    (reads, writes, tells): (&'a str, &'a str, &'a str),
    code: u8,
    line: &'a str,
) -> Result<(), Fail> {
    let run = Run {
        words: "muxrpc replay",
        input: b"script 1\nversion 3\n",
        reads,
        writes,
        tells,
        code,
        output: Output::Any,
        line,
    };
    runs(rt, alloc, &run)
}

/// A failing call of the input, of the output, and of standard error.
#[test]
fn failures_of_the_streams_are_told(rt: HostRuntime) -> Result<(), Fail> {
    let alloc = rt.alloc();
    fails(&rt, alloc, ("1", "-", "-"), 4, "muxrpc: read fault\n")?;
    fails(&rt, alloc, ("2", "-", "-"), 4, "muxrpc: read fault\n")?;
    fails(&rt, alloc, ("-", "1", "-"), 5, "muxrpc: write fault\n")?;
    // The second call of the output is the flush.
    fails(&rt, alloc, ("-", "2", "-"), 5, "muxrpc: write fault\n")?;
    fails(&rt, alloc, ("1", "-", "2"), 4, "muxrpc: ")
}

/// A source whose bytes have no end.
#[derive(Drop)]
struct Endless;

impl Source for Endless {
    ghost use Rattle.std.specs.Prelude.{false, None};

    ghost held = { λ _. None };

    ghost faults = { λ _. 0 };

    ghost ended = { λ _. false };

    fn read(&mut self, buf: &mut [u8]) -> Result<usize, Failed> {
        Ok(buf.len())
    }
}

#[test]
fn an_input_that_is_too_long_is_refused(rt: HostRuntime) -> Result<(), Fail> {
    let run = Run {
        words: "muxrpc replay",
        input: b"",
        reads: "-",
        writes: "-",
        tells: "-",
        code: 8,
        output: Output::Text(""),
        line: "muxrpc: too long\n",
    };
    runs_on(&rt, rt.alloc(), &run, &mut Endless)
}

/// The code and the line of each status.
const STATUSES: &str = "Done | 0
Usage | 1 muxrpc: usage
ScriptRefused 3 92 | 2 muxrpc: line 3: 92
StreamRefused 20 Unused | 3 muxrpc: refused at 20: 1 Unused
ReadFault | 4 muxrpc: read fault
WriteFault | 5 muxrpc: write fault
LinkFault | 6 muxrpc: link fault
OutOfMemory | 7 muxrpc: out of memory
TooLong | 8 muxrpc: too long
LinkEnded | 9 muxrpc: link ended";

fn status_of(words: &str) -> Option<Status> {
    Some(match words {
        "Done" => Status::Done,
        "Usage" => Status::Usage,
        "ScriptRefused 3 92" => Status::ScriptRefused(3, 92),
        "StreamRefused 20 Unused" => Status::StreamRefused(Place(20), Reason::Unused),
        "ReadFault" => Status::ReadFault,
        "WriteFault" => Status::WriteFault,
        "LinkFault" => Status::LinkFault,
        "OutOfMemory" => Status::OutOfMemory,
        "TooLong" => Status::TooLong,
        "LinkEnded" => Status::LinkEnded,
        _ => return None,
    })
}

/// Whether bytes are this line with its end, or nothing where there is none.
fn is_line(given: &[u8], line: &str) -> bool {
    match given.strip_suffix(b"\n") {
        Some(given) => given == line.as_bytes(),
        None => given.is_empty() && line.is_empty(),
    }
}

fn is_told(rt: &impl Abort, row: &str, given: &[u8], line: &str) {
    assert!(rt; is_line(given, line), "line at {row}");
}

fn is_code(rt: &impl Abort, row: &str, got: u8, code: u8) {
    assert_eq!(rt; got, code, "code at {row}");
}

fn adds_line(status: &Status, text: &mut Vec<u8>) -> Result<(), Fail> {
    Ok(status_line(status, text)?)
}

/// The line of a status is appended behind what stood in a text.
fn is_appended(
    rt: &impl Abort,
    row: &str,
    status: &Status,
    line: &str,
    text: &mut Vec<u8>,
) -> Result<(), Fail> {
    text.extend_from_slice(b"> ")?;
    adds_line(status, text)?;
    let front = b"> ".as_slice();
    is_told(
        rt,
        row,
        text.as_slice().strip_prefix(front).unwrap_or(b"> "),
        line,
    );
    Ok(())
}

fn has_line(
    rt: &impl Abort,
    alloc: Global,
    row: &str,
    status: &Status,
    line: &str,
) -> Result<(), Fail> {
    let mut text = Vec::new(alloc);
    is_appended(rt, row, status, line, &mut text)
}

fn told(status: &Status, errors: &mut MemSink) -> u8 {
    tell(status, errors)
}

/// The status is told to standard error by its line, and answers its code.
fn tells(
    rt: &impl Abort,
    alloc: Global,
    row: &str,
    status: &Status,
    (code, line): (u8, &str),
) -> Result<(), Fail> {
    let mut errors = sink(alloc, "-")?;
    is_code(rt, row, told(status, &mut errors), code);
    is_told(rt, row, errors.given(), line);
    Ok(())
}

fn is_status(rt: &impl Abort, alloc: Global, row: &str) -> Result<(), Fail> {
    let (words, wanted) = row.split_once(" | ").unwrap_or((row, ""));
    let (code, line) = code_and_line(wanted);
    let status = status_of(words).expect(rt, "a status");
    has_line(rt, alloc, row, &status, line)?;
    tells(rt, alloc, row, &status, (code, line))
}

fn are_statuses(rt: &impl Abort, alloc: Global, rows: &str) -> Result<(), Fail> {
    for row in rows.lines() {
        is_status(rt, alloc, row)?;
    }
    Ok(())
}

#[test]
fn statuses_have_their_codes_and_lines(rt: HostRuntime) -> Result<(), Fail> {
    are_statuses(&rt, rt.alloc(), STATUSES)
}
