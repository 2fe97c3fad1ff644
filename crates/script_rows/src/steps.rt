//! Heads and lines with what they say.

use crate::scripts::{adds, read};
use endpoint_run::Step;
use mux_items::NONCE_SIZE;
use script::Script;
use std::alloc::Global;
use std::process::Abort;
use std::test::Fail;
use wire_base::Version;

fn is_told(rt: &impl Abort, told: &str, wanted: &str, row: &str) {
    assert_eq!(rt; told, wanted, "at {row}");
}

fn shown(alloc: Global, step: Option<&Step>) -> Result<String, Fail> {
    Ok(format!(in alloc; "{step:?}")?)
}

fn is_shown(rt: &impl Abort, alloc: Global, step: Option<&Step>, row: &str) -> Result<(), Fail> {
    let (_, wanted) = row.split_once('|').unwrap_or((row, ""));
    is_told(rt, shown(alloc, step)?.as_str(), wanted.trim(), row);
    Ok(())
}

fn step_at(script: &Script, i: usize) -> Option<&Step> {
    script.steps.get(i)
}

fn are_as_many(rt: &impl Abort, script: &Script, rows: &str) {
    assert_eq!(rt; script.steps.len(), rows.lines().count());
}

fn are_shown(rt: &impl Abort, alloc: Global, script: &Script, rows: &str) -> Result<(), Fail> {
    for (i, row) in rows.lines().enumerate() {
        is_shown(rt, alloc, step_at(script, i), row)?;
    }
    are_as_many(rt, script, rows);
    Ok(())
}

fn are_steps(rt: &impl Abort, alloc: Global, text: &str, rows: &str) -> Result<(), Fail> {
    let script = read(alloc, text.as_bytes())?;
    are_shown(rt, alloc, &script, rows)
}

fn adds_row(text: &mut String, row: &str) -> Result<(), Fail> {
    let (line, _) = row.split_once('|').unwrap_or((row, ""));
    adds(text, line)?;
    adds(text, "\n")
}

/// A script of version 3 with the lines of these rows.
fn adds_rows(text: &mut String, rows: &str) -> Result<(), Fail> {
    adds(text, "script 1\nversion 3\n")?;
    for row in rows.lines() {
        adds_row(text, row)?;
    }
    Ok(())
}

fn are_rows(rt: &impl Abort, alloc: Global, rows: &str, text: &mut String) -> Result<(), Fail> {
    adds_rows(text, rows)?;
    are_steps(rt, alloc, text.as_str(), rows)
}

/// A row is a line of a script, and the step that is read from it, behind a bar.
fn are_read(rt: &impl Abort, alloc: Global, rows: &str) -> Result<(), Fail> {
    let mut text = String::new(alloc);
    are_rows(rt, alloc, rows, &mut text)
}

const STEPS: &str = r#"offer A a 8| Some(Call(A, Mux(Offer(Text { inner: "a" }, 8))))
offer B - 4294967295| Some(Call(B, Mux(Offer(Text { inner: "" }, 4294967295))))
accept B A1 4| Some(Call(B, Mux(Accept(ChannelKey { id: 1, own: false }, 4))))
write A A12 00ff| Some(Call(A, Mux(Write(ChannelKey { id: 12, own: true }, Blob { inner: [0, 255] }))))
write B B0 -| Some(Call(B, Mux(Write(ChannelKey { id: 0, own: true }, Blob { inner: [] }))))
fill A B3 3 0a| Some(Call(A, Mux(Write(ChannelKey { id: 3, own: false }, Blob { inner: [10, 10, 10] }))))
fill A A3 0 ff| Some(Call(A, Mux(Write(ChannelKey { id: 3, own: true }, Blob { inner: [] }))))
read B A1 10| Some(Call(B, Mux(Read(ChannelKey { id: 1, own: false }, 10))))
complete A B2| Some(Call(A, Mux(Complete(ChannelKey { id: 2, own: false }))))
terminate B B7| Some(Call(B, Mux(Terminate(ChannelKey { id: 7, own: true }))))
deliver B all| Some(Deliver(B, 18446744073709551615))
deliver A 0| Some(Deliver(A, 0))
end A| Some(End(A))
end B| Some(End(B))"#;

#[test]
fn reads_steps_in_their_order(rt: HostRuntime) -> Result<(), Fail> {
    are_read(&rt, rt.alloc(), STEPS)
}

const CALLS: &str =
    r#"attach A A1 header json| Some(Call(A, Attach(ChannelKey { id: 1, own: true }, Terms { framing: Header, encoding: Json })))
attach B A12 length pack| Some(Call(B, Attach(ChannelKey { id: 12, own: false }, Terms { framing: Length, encoding: Pack })))
request A A1 m plain -| Some(Call(A, Request(ChannelKey { id: 1, own: true }, Text { inner: "m" }, Absent, Plain)))
request A A1 m plain []| Some(Call(A, Request(ChannelKey { id: 1, own: true }, Text { inner: "m" }, List(ArgList { items: [] }), Plain)))
request A A1 m plain [ 1,"a  b" ]| Some(Call(A, Request(ChannelKey { id: 1, own: true }, Text { inner: "m" }, List(ArgList { items: [Plain(Datum { node: Whole(Whole { inner: 1 }) }), Plain(Datum { node: Words(Text { inner: "a  b" }) })] }), Plain)))
request A A1 m plain [{"$progress":false}]| Some(Call(A, Request(ChannelKey { id: 1, own: true }, Text { inner: "m" }, List(ArgList { items: [Plain(Datum { node: Pairs(PairList { pairs: [(Text { inner: "$progress" }, Datum { node: Flag(false) })] }) })] }), Plain)))
notify B B0 - {"k":null}| Some(Call(B, Notify(ChannelKey { id: 0, own: true }, Text { inner: "-" }, Named(PairList { pairs: [(Text { inner: "k" }, Datum { node: Nil })] }))))
result B A1 1 true| Some(Call(B, Respond(ChannelKey { id: 1, own: false }, Number(1), Value(Datum { node: Flag(true) }))))
result B A1 "a" "b c"| Some(Call(B, Respond(ChannelKey { id: 1, own: false }, Name(Text { inner: "a" }), Value(Datum { node: Words(Text { inner: "b c" }) }))))
fault B A1 1 -0 "t"| Some(Call(B, Respond(ChannelKey { id: 1, own: false }, Number(1), Fault(0, Text { inner: "t" }, None))))
fault B A1 -2 -4294967295 "\u0074 u"| Some(Call(B, Respond(ChannelKey { id: 1, own: false }, Number(-2), Fault(-4294967295, Text { inner: "t u" }, None))))
request A A1 m plain [1,{"$progress":true}]| Some(Call(A, Request(ChannelKey { id: 1, own: true }, Text { inner: "m" }, List(ArgList { items: [Plain(Datum { node: Whole(Whole { inner: 1 }) }), Progress] }), Plain)))
request A A1 m sequence [{"$object":[1,"explicit"]},{"$object":[4294967296,"call"]}]| Some(Call(A, Request(ChannelKey { id: 1, own: true }, Text { inner: "m" }, List(ArgList { items: [Object(1, Explicit), Object(4294967296, Call)] }), Sequence)))
notify B A1 m [{"$handed":3},{"$handed":-1}]| Some(Call(B, Notify(ChannelKey { id: 1, own: false }, Text { inner: "m" }, List(ArgList { items: [Handed(3), Plain(Datum { node: Pairs(PairList { pairs: [(Text { inner: "$handed" }, Datum { node: Whole(Whole { inner: -1 }) })] }) })] }))))
object B A1 1 4294967295| Some(Call(B, Respond(ChannelKey { id: 1, own: false }, Number(1), Object(4294967295))))
object A A1 "x" 0| Some(Call(A, Respond(ChannelKey { id: 1, own: true }, Name(Text { inner: "x" }), Object(0))))
cancel B A1 7| Some(Call(B, Cancel(ChannelKey { id: 1, own: false }, 7)))
report B A1 1 "t" {"done": 50}| Some(Call(B, Report(ChannelKey { id: 1, own: false }, Number(1), Name(Text { inner: "t" }), Datum { node: Pairs(PairList { pairs: [(Text { inner: "done" }, Datum { node: Whole(Whole { inner: 50 }) })] }) })))
reports A A1 1| Some(Call(A, TakeReport(ChannelKey { id: 1, own: true }, 1)))
request A A1 m sequence -| Some(Call(A, Request(ChannelKey { id: 1, own: true }, Text { inner: "m" }, Absent, Sequence)))
sequence B A1 1 2 4294967295 [ 3,"a b",[]]| Some(Call(B, Respond(ChannelKey { id: 1, own: false }, Number(1), Sequence(DatumList { items: [Datum { node: Whole(Whole { inner: 3 }) }, Datum { node: Words(Text { inner: "a b" }) }, Datum { node: Items(DatumList { items: [] }) }] }, 2, 4294967295))))
sequence A B2 "x" 0 0 []| Some(Call(A, Respond(ChannelKey { id: 2, own: false }, Name(Text { inner: "x" }), Sequence(DatumList { items: [] }, 0, 0))))
next A A1 4294967295| Some(Call(A, Next(ChannelKey { id: 1, own: true }, 4294967295)))
abort B A1 7| Some(Call(B, Abort(ChannelKey { id: 1, own: false }, 7)))
invoke A A1 3 bump plain [{"$handed":2}]| Some(Call(A, Invoke(ChannelKey { id: 1, own: true }, 3, Text { inner: "bump" }, List(ArgList { items: [Handed(2)] }), Plain)))
invoke B A1 4294967295 7 sequence -| Some(Call(B, Invoke(ChannelKey { id: 1, own: false }, 4294967295, Text { inner: "7" }, Absent, Sequence)))
release A A1 own 1| Some(Call(A, Release(ChannelKey { id: 1, own: true }, HandleKey { number: 1, own: true })))
release A A1 peer 4294967295| Some(Call(A, Release(ChannelKey { id: 1, own: true }, HandleKey { number: 4294967295, own: false })))
outcome A A1 4294967295| Some(Call(A, Outcome(ChannelKey { id: 1, own: true }, 4294967295)))
forget A B7 0| Some(Call(A, Forget(ChannelKey { id: 7, own: false }, 0)))"#;

#[test]
fn reads_calls_of_connections(rt: HostRuntime) -> Result<(), Fail> {
    are_read(&rt, rt.alloc(), CALLS)
}

const NONCE_A: &[u8; NONCE_SIZE] =
    b"\x00\x01\x02\x03\x04\x05\x06\x07\x08\x09\x0a\x0b\x0c\x0d\x0e\x0f";

const NONCE_B: &[u8; NONCE_SIZE] =
    b"\xff\xfe\xfd\xfc\xfb\xfa\xf9\xf8\xf7\xf6\xf5\xf4\xf3\xf2\xf1\xf0";

const NO_NONCE: &[u8; NONCE_SIZE] = b"\0\0\0\0\0\0\0\0\0\0\0\0\0\0\0\0";

/// What the head of a script says.
#[derive(Clone, Copy)]
struct Head {
    version: Version,
    nonces: [&'static [u8; NONCE_SIZE]; 2],
}

fn is_version(rt: &impl Abort, script: &Script, version: Version) {
    assert!(rt; script.version == version);
}

fn is_nonce(rt: &impl Abort, nonce: &[u8; NONCE_SIZE], wanted: &[u8; NONCE_SIZE]) {
    assert!(rt; nonce.as_slice() == wanted.as_slice());
}

fn has_head(rt: &impl Abort, script: &Script, head: &Head) {
    is_version(rt, script, head.version);
    is_nonce(rt, &script.nonces[0], head.nonces[0]);
    is_nonce(rt, &script.nonces[1], head.nonces[1]);
}

fn is_head_of(rt: &impl Abort, alloc: Global, text: &str, head: &Head) -> Result<(), Fail> {
    let script = read(alloc, text.as_bytes())?;
    has_head(rt, &script, head);
    Ok(())
}

#[test]
fn reads_heads(rt: HostRuntime) -> Result<(), Fail> {
    let three = Head {
        version: Version::Three,
        nonces: [NO_NONCE, NO_NONCE],
    };
    is_head_of(&rt, rt.alloc(), "script 1\nversion 3\n", &three)
}

/// The first versions have nonces.
fn has_nonces(rt: &impl Abort, alloc: Global, text: &str, version: Version) -> Result<(), Fail> {
    let head = Head {
        version,
        nonces: [NONCE_A, NONCE_B],
    };
    is_head_of(rt, alloc, text, &head)
}

const ONE: &str = "script 1
version 1
nonce A 000102030405060708090a0b0c0d0e0f
nonce B fffefdfcfbfaf9f8f7f6f5f4f3f2f1f0
";

const TWO: &str = "script 1
version 2
nonce A 000102030405060708090a0b0c0d0e0f
nonce B fffefdfcfbfaf9f8f7f6f5f4f3f2f1f0
";

#[test]
fn reads_heads_with_nonces(rt: HostRuntime) -> Result<(), Fail> {
    has_nonces(&rt, rt.alloc(), ONE, Version::One)?;
    has_nonces(&rt, rt.alloc(), TWO, Version::Two)
}
