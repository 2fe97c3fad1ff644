//! Runs of the program over streams in memory, and what each has to come to.

use muxrpc_app::run_command;
use std::alloc::Global;
use std::process::Abort;
use std::test::Fail;
use wire_base::{Blob, Calls, MemSink, MemSource, Source, Text};

/// What a run has to write.
#[derive(Clone, Copy)]
pub enum Output<'a> {
    Text(&'a str),
    /// Something where the exit code is 0, and nothing where it isn't.
    IfDone,
    Any,
}

/// What the program is given, and what it has to come to.
#[derive(Clone, Copy)]
pub struct Run<'a> {
    /// The words of its command line, with blanks between them.
    pub words: &'a str,
    pub input: &'a [u8],
    /// The calls of the input, of the output and of standard error that fail: one number each, or `-` for none.
    pub reads: &'a str,
    pub writes: &'a str,
    pub tells: &'a str,
    /// The exit code.
    pub code: u8,
    pub output: Output<'a>,
    /// What standard error is given.
    pub line: &'a str,
}

fn adds_call(calls: &mut Calls, number: &str) -> Result<(), Fail> {
    if let Ok(number) = number.parse::<u64>() {
        calls.push(number)?;
    }
    Ok(())
}

fn calls(alloc: Global, number: &str) -> Result<Calls, Fail> {
    let mut calls = Calls::new(alloc);
    adds_call(&mut calls, number)?;
    Ok(calls)
}

pub fn source(alloc: Global, bytes: &[u8], failing: &str) -> Result<MemSource, Fail> {
    let calls = calls(alloc, failing)?;
    Ok(MemSource::new(Blob::from_bytes(alloc, bytes)?, calls))
}

pub fn sink(alloc: Global, failing: &str) -> Result<MemSink, Fail> {
    Ok(MemSink::new(alloc, calls(alloc, failing)?))
}

fn adds_word(alloc: Global, texts: &mut Vec<Text>, word: &str) -> Result<(), Fail> {
    if !word.is_empty() {
        texts.push(Text::from_str(alloc, word)?)?;
    }
    Ok(())
}

fn adds_words(alloc: Global, texts: &mut Vec<Text>, words: &str) -> Result<(), Fail> {
    for word in words.split(' ') {
        adds_word(alloc, texts, word)?;
    }
    Ok(())
}

pub fn texts(alloc: Global, words: &str) -> Result<Vec<Text>, Fail> {
    let mut texts = Vec::new(alloc);
    adds_words(alloc, &mut texts, words)?;
    Ok(texts)
}

fn is_code(rt: &impl Abort, run: &Run, code: u8) {
    assert_eq!(rt; code, run.code, "at {}", run.words);
}

fn is_written(run: &Run, given: &[u8]) -> bool {
    match run.output {
        Output::Text(text) => given == text.as_bytes(),
        Output::IfDone => given.is_empty() == (run.code != 0),
        Output::Any => true,
    }
}

fn is_output(rt: &impl Abort, run: &Run, given: &[u8]) {
    assert!(rt; is_written(run, given), "output at {}", run.words);
}

fn is_line(rt: &impl Abort, run: &Run, given: &[u8]) {
    assert_eq!(rt; given, run.line.as_bytes(), "at {}", run.words);
}

fn code_of<S: Source>(
    alloc: Global,
    words: &[Text],
    input: &mut S,
    output: &mut MemSink,
    errors: &mut MemSink,
) -> u8 {
    run_command(alloc, words, input, output, errors)
}

fn ends<S: Source>(
    rt: &impl Abort,
    alloc: Global,
    run: &Run,
    words: &[Text],
    input: &mut S,
    output: &mut MemSink,
    errors: &mut MemSink,
) {
    is_code(rt, run, code_of(alloc, words, input, output, errors));
    is_output(rt, run, output.given());
    is_line(rt, run, errors.given());
}

fn tells<S: Source>(
    rt: &impl Abort,
    alloc: Global,
    run: &Run,
    words: &[Text],
    input: &mut S,
    output: &mut MemSink,
) -> Result<(), Fail> {
    let mut errors = sink(alloc, run.tells)?;
    ends(rt, alloc, run, words, input, output, &mut errors);
    Ok(())
}

fn writes<S: Source>(
    rt: &impl Abort,
    alloc: Global,
    run: &Run,
    words: &[Text],
    input: &mut S,
) -> Result<(), Fail> {
    let mut output = sink(alloc, run.writes)?;
    tells(rt, alloc, run, words, input, &mut output)
}

fn reads(rt: &impl Abort, alloc: Global, run: &Run, words: &[Text]) -> Result<(), Fail> {
    let mut input = source(alloc, run.input, run.reads)?;
    writes(rt, alloc, run, words, &mut input)
}

/// The program comes to what it has to.
pub fn runs(rt: &impl Abort, alloc: Global, run: &Run) -> Result<(), Fail> {
    let words = texts(alloc, run.words)?;
    reads(rt, alloc, run, words.as_slice())
}

/// The same with another input than the run's own.
pub fn runs_on<S: Source>(
    rt: &impl Abort,
    alloc: Global,
    run: &Run,
    input: &mut S,
) -> Result<(), Fail> {
    let words = texts(alloc, run.words)?;
    writes(rt, alloc, run, words.as_slice(), input)
}
