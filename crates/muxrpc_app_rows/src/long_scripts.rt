//! Scripts that are built from repeated parts, and their reports.

use crate::reports::{Wanted, is_reported, replays};
use crate::scripts::CREDIT;
use std::alloc::Global;
use std::process::Abort;
use std::test::Fail;

fn adds(text: &mut String, part: &str) -> Result<(), Fail> {
    Ok(text.push_str(part)?)
}

fn repeats(text: &mut String, part: &str, count: u32) -> Result<(), Fail> {
    for _ in 0..count {
        adds(text, part)?;
    }
    Ok(())
}

/// How many bytes B is sent behind each part of the credit script.
fn bytes_behind(part: usize) -> u32 {
    match part {
        0 | 1 => 10,
        2 => 7,
        _ => 0,
    }
}

/// The credit script with deliveries to B of one byte each.
fn credit_by_bytes(text: &mut String) -> Result<(), Fail> {
    for (i, part) in CREDIT.split("deliver B all\n").enumerate() {
        adds(text, part)?;
        repeats(text, "deliver B 1\n", bytes_behind(i))?;
    }
    Ok(())
}

const CREDIT_STATE: &str = "state
A running
A A1 live written 5 emitted 5 taken 0 handed 0
B running
B A1 live written 0 emitted 0 taken 5 handed 5
end
";

fn is_same_by_bytes(rt: &impl Abort, alloc: Global, script: &mut String) -> Result<(), Fail> {
    credit_by_bytes(script)?;
    replays(rt, alloc, script.as_str(), Wanted::End(CREDIT_STATE))
}

#[test]
fn deliveries_of_one_byte_leave_the_same_state(rt: HostRuntime) -> Result<(), Fail> {
    let mut script = String::new(rt.alloc());
    is_same_by_bytes(&rt, rt.alloc(), &mut script)
}

/// A1 has credit for one byte, A2 for all that is written. A byte that is read brings A1's other one.
const APART: &str = "script 1
version 3
offer A a 8
offer A b 8
deliver B all
accept B A1 1
accept B A2 102400
deliver A all
write A A1 6162
fill A A2 30000 7a
deliver B all
read B A1 1
deliver A all
";

const APART_FRONT: &str = "report 1
0 start
1 channel A1
 A> 94000101c40492a16108
2 channel A2
 A> 94000201c40492a16208
3 delivered 20
 B offered A1
 B offered A2
4 ok
 B> 940101ffc4029101
5 ok
 B> 940102ffc40691ce00019000
6 delivered 20
 A accepted A1
 A accepted A2
7 ok
 A> 94020101c40161
8 ok
 A> ";

const APART_BACK: &str = "
9 delivered 30021
 B content A1 1
 B content A2 20480
 B content A2 9520
10 bytes 61
 B> 940501ffc4029101
11 delivered 8
 A credit A1 1
 A> 94020101c40162
state
A running
A A1 live written 2 emitted 2 taken 0 handed 0
A A2 live written 30000 emitted 30000 taken 0 handed 0
B running
B A1 live written 0 emitted 0 taken 1 handed 1
B A2 live written 0 emitted 0 taken 30000 handed 0
end
";

/// What the report of that script is: 30,000 bytes go in a frame of 20,480 and one of 9,520.
fn apart_report(text: &mut String) -> Result<(), Fail> {
    adds(text, APART_FRONT)?;
    adds(text, "94020201c55000")?;
    repeats(text, "7a", 20_480)?;
    adds(text, "94020201c52530")?;
    repeats(text, "7a", 9520)?;
    adds(text, APART_BACK)
}

fn is_apart(rt: &impl Abort, alloc: Global, report: &mut String) -> Result<(), Fail> {
    apart_report(report)?;
    is_reported(rt, alloc, APART, report.as_str())
}

#[test]
fn a_channel_without_credit_holds_up_no_other(rt: HostRuntime) -> Result<(), Fail> {
    let mut report = String::new(rt.alloc());
    is_apart(&rt, rt.alloc(), &mut report)
}

/// A script of 1,200,031 bytes, whose only step is a write on a channel that isn't there.
fn long_script(text: &mut String) -> Result<(), Fail> {
    adds(text, "script 1\nversion 3\nwrite A A1 ")?;
    repeats(text, "61", 600_000)?;
    adds(text, "\n")
}

const LONG_REPORT: &str = "report 1
0 start
1 refused 40 NoChannel
state
A running
B running
end
";

fn is_long(rt: &impl Abort, alloc: Global, script: &mut String) -> Result<(), Fail> {
    long_script(script)?;
    is_reported(rt, alloc, script.as_str(), LONG_REPORT)
}

#[test]
fn a_script_above_1_mib_is_run(rt: HostRuntime) -> Result<(), Fail> {
    let mut script = String::new(rt.alloc());
    is_long(&rt, rt.alloc(), &mut script)
}
