//! Scripts that are refused: where they break first, and by which reason.

use crate::scripts::{adds_lines, breaks};
use std::alloc::Global;
use std::process::Abort;
use std::test::Fail;

/// The words `LINE REASON`.
fn place(words: &str) -> (u64, u32) {
    let (line, reason) = words.trim().split_once(' ').unwrap_or((words, ""));
    (
        line.parse::<u64>().unwrap_or(u64::MAX),
        reason.parse::<u32>().unwrap_or(u32::MAX),
    )
}

fn is_broken(
    rt: &impl Abort,
    alloc: Global,
    front: &str,
    row: &str,
    text: &mut String,
) -> Result<(), Fail> {
    let (lines, wanted) = row.split_once('|').unwrap_or((row, ""));
    adds_lines(text, front)?;
    adds_lines(text, lines)?;
    breaks(rt, alloc, text.as_bytes(), place(wanted), row);
    Ok(())
}

fn is_row(rt: &impl Abort, alloc: Global, front: &str, row: &str) -> Result<(), Fail> {
    let mut text = String::new(alloc);
    is_broken(rt, alloc, front, row, &mut text)
}

/// A row is what follows the front of a script, right up to the bar, and where and by which reason that breaks.
fn are_broken(rt: &impl Abort, alloc: Global, front: &str, rows: &str) -> Result<(), Fail> {
    for row in rows.lines() {
        is_row(rt, alloc, front, row)?;
    }
    Ok(())
}

const HEADS: &str = "| 1 90
script 1| 1 97
script 1/| 2 90
script 2/version 3/| 1 90
script 1 /version 3/| 1 90
/script 1/version 3/| 1 90
script 1/version 3| 2 97
script 1/version 0/| 2 90
script 1/version 4/| 2 90
script 1/version3/| 2 90
script 1/offer A a 8/| 2 90";

#[test]
fn refuses_broken_heads(rt: HostRuntime) -> Result<(), Fail> {
    are_broken(&rt, rt.alloc(), "", HEADS)
}

const NONCES: &str = "| 3 90
nonce B fffefdfcfbfaf9f8f7f6f5f4f3f2f1f0/| 3 90
nonce A 000102030405060708090a0b0c0d0e0/| 3 90
nonce A 000102030405060708090a0b0c0d0e/| 3 90
nonce A 000102030405060708090a0b0c0d0e0f10/| 3 90
nonce A 000102030405060708090A0B0C0D0E0F/| 3 90
nonce A 000102030405060708090a0b0c0d0e0g/| 3 90
nonce A -/| 3 90
nonceA 000102030405060708090a0b0c0d0e0f/| 3 90
nonce A  000102030405060708090a0b0c0d0e0f/| 3 90
nonce A 000102030405060708090a0b0c0d0e0f /| 3 90
nonce A 000102030405060708090a0b0c0d0e0f| 3 97
nonce A 000102030405060708090a0b0c0d0e0f/| 4 90
nonce A 000102030405060708090a0b0c0d0e0f/end A/| 4 90";

#[test]
fn refuses_broken_nonces(rt: HostRuntime) -> Result<(), Fail> {
    are_broken(&rt, rt.alloc(), "script 1/version 1/", NONCES)?;
    are_broken(&rt, rt.alloc(), "script 1/version 2/", NONCES)
}

const STEPS: &str = "/| 3 91
offers A a 8/| 3 91
 offer A a 8/| 3 91
deliver A all/Offer A a 8/| 4 91
nonce A 00/| 3 91
offer C a 8/| 3 92
offer B a 08/| 3 92
offer A a/| 3 92
offer A a 8 /| 3 92
offer A  8/| 3 92
offer A a 4294967296/| 3 92
offer A a +8/| 3 92
offer A a 8~/| 3 92
offer A a 8/offer A b 8/offer B b x/| 5 92
accept A 1 8/| 3 92
accept A A 8/| 3 92
accept A A01 8/| 3 92
write A A1 0A/| 3 92
write A A1 0/| 3 92
write A A1 /| 3 92
fill A A1 1000001 00/| 3 92
fill A A1 2 0/| 3 92
fill A A1 2 0000/| 3 92
fill A A1 2 -/| 3 92
fill A A1 2 0A/| 3 92
read A A1 all/| 3 92
complete A/| 3 92
complete A A1 1/| 3 92
terminate A1/| 3 92
deliver A -/| 3 92
end/| 3 92
end A B/| 3 92
deliver A all| 3 97
deliver A all/x| 4 97
offer C a 8/x| 3 92";

#[test]
fn refuses_broken_steps(rt: HostRuntime) -> Result<(), Fail> {
    are_broken(&rt, rt.alloc(), "script 1/version 3/", STEPS)
}

const CALLS: &str = r#"request/| 3 92
attach A A1 header/| 3 92
attach A A1 header yaml/| 3 92
attach A A1 Header json/| 3 92
attach A A1 header json x/| 3 92
request A A1  plain -/| 3 92
request A A1 m odd -/| 3 92
request A A1 m plain/| 3 92
request A A1 m plain /| 3 93
request A A1 m plain 5/| 3 93
request A A1 m plain - /| 3 93
request A A1 m sequence [1.5]/| 3 93
notify A A1 m/| 3 92
notify A A1 m {/| 3 93
result B A1 x 5/| 3 92
result B A1 1.5 5/| 3 92
result B A1 "a b" 5/| 3 92
result B A1 1/| 3 92
result B A1 1 /| 3 93
result B A1 1 5 5/| 3 93
result B A1 1 {"a":1e400}/| 3 93
fault B A1 1 4294967296 "t"/| 3 92
fault B A1 1 +5 "t"/| 3 92
fault B A1 1 - "t"/| 3 92
fault B A1 1 5/| 3 92
fault B A1 1 5 7/| 3 93
fault B A1 1 5 t/| 3 93
outcome A A1 01/| 3 92
outcome A A1/| 3 92
forget A A1 1 1/| 3 92
cancel A A1/| 3 92
cancel A A1 -1/| 3 92
report B A1 1 t 5/| 3 92
report B A1 1.5 1 5/| 3 92
report B A1 1 1/| 3 92
report B A1 1 1 /| 3 93
report B A1 1 1 1.5/| 3 93
reports A A1 1 1/| 3 92
sequence B A1 x 1 0 []/| 3 92
sequence B A1 1 01 0 []/| 3 92
sequence B A1 1 1 4294967296 []/| 3 92
sequence B A1 1 1 []/| 3 92
sequence B A1 1 1 0/| 3 92
sequence B A1 1 1 0 /| 3 93
sequence B A1 1 1 0 [1.5]/| 3 93
sequence B A1 1 1 0 {}/| 3 93
sequence B A1 1 1 0 "[]"/| 3 93
sequence B A1 1 1 0 -/| 3 93
sequence B A1 1 1 0 [] 1/| 3 93
next A A1/| 3 92
next A A1 1 1/| 3 92
abort A A1 -1/| 3 92
abort A A1/| 3 92
object/| 3 92
object B A1 x 1/| 3 92
object B A1 1/| 3 92
object B A1 1 4294967296/| 3 92
object B A1 1 1 1/| 3 92
invoke A A1 m plain -/| 3 92
invoke A A1 1 m odd -/| 3 92
invoke A A1 1 m plain/| 3 92
invoke A A1 1 m plain 5/| 3 93
release A/| 3 92
release A A1 mine 1/| 3 92
release A A1 1 own/| 3 92
release A A1 own -1/| 3 92
release A A1 peer 1 1/| 3 92
Request A A1 m plain -/| 3 91"#;

#[test]
fn refuses_broken_calls_of_connections(rt: HostRuntime) -> Result<(), Fail> {
    are_broken(&rt, rt.alloc(), "script 1/version 3/", CALLS)
}

fn breaks_at(rt: &impl Abort, alloc: Global, bytes: &[u8], wanted: (u64, u32)) {
    breaks(rt, alloc, bytes, wanted, "bytes");
}

#[test]
fn refuses_bytes_that_are_no_text(rt: HostRuntime) {
    let alloc = rt.alloc();
    breaks_at(&rt, alloc, b"script \xff\nversion 3\n", (1, 95));
    breaks_at(
        &rt,
        alloc,
        b"script 1\nversion 3\noffer A \xff 8\n",
        (3, 95),
    );
    breaks_at(&rt, alloc, b"script 1\nversion 3\nx \xff", (3, 95));
    breaks_at(&rt, alloc, b"script 1\nversion 2\nnonce A \xff", (3, 95));
    breaks_at(
        &rt,
        alloc,
        b"script 1\nversion 3\noffer C a 8\n\xff\n",
        (3, 92),
    );
}
