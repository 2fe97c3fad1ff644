//! The program `muxrpc`: the words of the command line and the standard streams, handed to the call that does the work.
#![tactic(auto)]

use muxrpc_app::{Status, run_command, tell};
use std::alloc::Global;
use std::env::{self, Args};
use std::io;
use std::process::ExitCode;
use wire_base::{OutOfMemory, StdSink, StdSource, Text};

/// The words of the command line as texts.
fn texts(alloc: Global, words: Args) -> Result<Vec<Text>, OutOfMemory> {
    let mut texts = Vec::new(alloc);
    for word in words {
        texts.push(Text::from_str(alloc, word.as_str())?)?;
    }
    Ok(texts)
}

fn main(rt: HostRuntime) -> ExitCode {
    let alloc = rt.alloc();
    let mut errors = StdSink::new(rt.stderr());
    let code = match env::args(&rt) {
        Ok(words) => match texts(alloc, words) {
            Ok(words) => {
                let mut input = StdSource::new(rt.reader());
                let mut output = StdSink::new(io::writer(&rt));
                run_command(alloc, &words, &mut input, &mut output, &mut errors)
            }
            Err(OutOfMemory) => tell(&Status::OutOfMemory, &mut errors),
        },
        Err(_) => tell(&Status::Usage, &mut errors),
    };
    ExitCode::from(code)
}
