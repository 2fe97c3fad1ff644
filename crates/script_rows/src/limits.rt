//! How many steps a script has, and how many bytes it fills in, at most.

use crate::scripts::{adds, breaks};
use std::alloc::Global;
use std::process::Abort;
use std::test::Fail;

fn repeats(text: &mut String, line: &str, count: u32) -> Result<(), Fail> {
    for _ in 0..count {
        adds(text, line)?;
    }
    Ok(())
}

fn breaks_at(rt: &impl Abort, alloc: Global, text: &str, wanted: (u64, u32)) {
    breaks(rt, alloc, text.as_bytes(), wanted, "the end");
}

fn many_steps(rt: &impl Abort, alloc: Global, text: &mut String) -> Result<(), Fail> {
    adds(text, "script 1\nversion 3\n")?;
    repeats(text, "deliver A 7\n", 100_000)?;
    breaks_at(rt, alloc, text.as_str(), (0, 0));
    adds(text, "x\n")?;
    breaks_at(rt, alloc, text.as_str(), (100_003, 96));
    Ok(())
}

#[test]
fn reads_100000_steps_and_no_more(rt: HostRuntime) -> Result<(), Fail> {
    let mut text = String::new(rt.alloc());
    many_steps(&rt, rt.alloc(), &mut text)
}

/// 67 lines with 1,000,000 bytes and one with 108,864 make the most that a script fills in.
fn many_bytes(rt: &impl Abort, alloc: Global, text: &mut String) -> Result<(), Fail> {
    adds(text, "script 1\nversion 3\n")?;
    repeats(text, "fill A A1 1000000 61\n", 67)?;
    adds(text, "fill B A1 108864 61\nfill A A1 0 61\nwrite A A1 61\n")?;
    breaks_at(rt, alloc, text.as_str(), (0, 0));
    adds(text, "fill A A1 1 61\n")?;
    breaks_at(rt, alloc, text.as_str(), (73, 92));
    Ok(())
}

#[test]
fn fills_in_67108864_bytes_and_no_more(rt: HostRuntime) -> Result<(), Fail> {
    let mut text = String::new(rt.alloc());
    many_bytes(&rt, rt.alloc(), &mut text)
}
