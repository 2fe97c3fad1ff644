//! Worked captures with their views, exit codes and lines.

use crate::runs::{Output, Run, runs};
use std::alloc::Global;
use std::process::Abort;
use std::test::Fail;

/// An offer of "a" with a window of 8 (0 to 9), the content "hell" (10 to 19), and the first byte of one frame more (20).
const CAPTURE: &[u8] = b"\x94\x00\x01\x01\xc4\x04\x92\xa1a\x08\x94\x02\x01\x01\xc4\x04hell\x94";

const VIEW: &str = "view 1
0 Offer 1 sender \"a\" 8
10 Content 1 sender 68656c6c
rest 20 1
end
";

/// The same with a byte at the end that begins no token.
const BROKEN: &[u8] = b"\x94\x00\x01\x01\xc4\x04\x92\xa1a\x08\x94\x02\x01\x01\xc4\x04hell\xc1";

const BROKEN_VIEW: &str = "view 1
0 Offer 1 sender \"a\" 8
10 Content 1 sender 68656c6c
refused 20 1 Unused
end
";

fn is_viewed<'a>(
    rt: &impl Abort,
    alloc: Global,
    words: &'a str,
    input: &'a [u8],
    output: &'a str,
) -> Result<(), Fail> {
    let run = Run {
        words,
        input,
        reads: "-",
        writes: "-",
        tells: "-",
        code: 0,
        output: Output::Text(output),
        line: "",
    };
    runs(rt, alloc, &run)
}

#[test]
fn captures_have_their_views(rt: HostRuntime) -> Result<(), Fail> {
    let alloc = rt.alloc();
    is_viewed(&rt, alloc, "muxrpc view --version 3", CAPTURE, VIEW)?;
    is_viewed(&rt, alloc, "muxrpc view --version=3", CAPTURE, VIEW)?;
    let rest = "view 1\nrest 0 2\nend\n";
    is_viewed(&rt, alloc, "muxrpc view --version=1", b"\x2f\xdf", rest)?;
    is_viewed(&rt, alloc, "muxrpc view --version 1", b"", "view 1\nend\n")
}

fn is_refused<'a>(
    rt: &impl Abort,
    alloc: Global,
    (words, input): (&'a str, &'a [u8]),
    (output, line): (&'a str, &'a str),
) -> Result<(), Fail> {
    let run = Run {
        words,
        input,
        reads: "-",
        writes: "-",
        tells: "-",
        code: 3,
        output: Output::Text(output),
        line,
    };
    runs(rt, alloc, &run)
}

#[test]
fn broken_captures_are_viewed_until_they_break(rt: HostRuntime) -> Result<(), Fail> {
    let alloc = rt.alloc();
    is_refused(
        &rt,
        alloc,
        ("muxrpc view --version=3", BROKEN),
        (BROKEN_VIEW, "muxrpc: refused at 20: 1 Unused\n"),
    )?;
    is_refused(
        &rt,
        alloc,
        ("muxrpc view --version 2", b"\x92\xc1"),
        (
            "view 1\nrefused 1 1 Unused\nend\n",
            "muxrpc: refused at 1: 1 Unused\n",
        ),
    )
}

fn is_usage(rt: &impl Abort, alloc: Global, words: &str) -> Result<(), Fail> {
    let run = Run {
        words,
        input: CAPTURE,
        reads: "-",
        writes: "-",
        tells: "-",
        code: 1,
        output: Output::Text(""),
        line: "muxrpc: usage\n",
    };
    runs(rt, alloc, &run)
}

fn are_usages(rt: &impl Abort, alloc: Global, rows: &str) -> Result<(), Fail> {
    for words in rows.lines() {
        is_usage(rt, alloc, words)?;
    }
    Ok(())
}

const USAGES: &str = "muxrpc view
muxrpc view 3
muxrpc view --version
muxrpc view --version=4
muxrpc view --version=03
muxrpc view --version 0
muxrpc view --version=3 --version=3
muxrpc view --version 3 3
muxrpc replay --version=3";

#[test]
fn a_version_is_given_once(rt: HostRuntime) -> Result<(), Fail> {
    are_usages(&rt, rt.alloc(), USAGES)
}

/// A view of the broken capture ends with this code and line where these calls of its input and output fail.
fn fails<'a>(
    rt: &impl Abort,
    alloc: Global,
    (reads, writes): (&'a str, &'a str),
    code: u8,
    line: &'a str,
) -> Result<(), Fail> {
    let run = Run {
        words: "muxrpc view --version=3",
        input: BROKEN,
        reads,
        writes,
        tells: "-",
        code,
        output: Output::Any,
        line,
    };
    runs(rt, alloc, &run)
}

#[test]
fn failures_come_before_a_refusal(rt: HostRuntime) -> Result<(), Fail> {
    let alloc = rt.alloc();
    fails(&rt, alloc, ("1", "-"), 4, "muxrpc: read fault\n")?;
    fails(&rt, alloc, ("-", "1"), 5, "muxrpc: write fault\n")?;
    // The second call of the output is the flush.
    fails(&rt, alloc, ("-", "2"), 5, "muxrpc: write fault\n")
}
