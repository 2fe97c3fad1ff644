//! Whole exchanges: what an editor says to a language server, and calls between two ends.

use crate::pieces::{comes, split};
use crate::rows::{self, a_life_in, framed, is_sent, is_told, start, take_all};
use crate::words::happens;
use row_text::{parted, size};
use rpc_end::{Encoding, Framing, RpcEnd};
use std::alloc::Global;
use std::process::Abort;
use std::test::Fail;

/// What a client of a language server says as it starts, opens a document, and asks for a completion that it then takes
/// back.
const EXCHANGE: &str = r#"
    {"jsonrpc":"2.0","id":1,"method":"initialize","params":{"processId":4711,"clientInfo":{"name":"editor","version":"1.2"},"rootUri":"file:///home/user/project","capabilities":{"textDocument":{"completion":{"completionItem":{"snippetSupport":true}}}},"trace":"off","workspaceFolders":null}} +
    {"jsonrpc":"2.0","method":"initialized","params":{}} +
    {"jsonrpc":"2.0","method":"textDocument/didOpen","params":{"textDocument":{"uri":"file:///home/user/project/main.rs","languageId":"rust","version":1,"text":"fn main() {\n    println!(\"gr\u00fc\u00df\");\n}\n"}}} +
    {"jsonrpc":"2.0","id":2,"method":"textDocument/completion","params":{"textDocument":{"uri":"file:///home/user/project/main.rs"},"position":{"line":1,"character":6},"context":{"triggerKind":1}}} +
    {"jsonrpc":"2.0","method":"$/cancelRequest","params":{"id":2}}"#;

/// What its messages are to the server.
const HEARD: &str =
    "asked 1 initialize named 6; told initialized named 0; told textDocument/didOpen named 1; asked 2 textDocument/completion named 3; cancelled 2; ";

/// The next size of a sequence, 1 to 512.
fn draw(state: &mut u64) -> usize {
    *state = state
        .wrapping_mul(6_364_136_223_846_793_005)
        .wrapping_add(1_442_695_040_888_963_407);
    1 + (*state >> 55) as usize
}

/// Tells what a server hears of a stream that comes in pieces of random sizes up to this one.
fn hears(
    alloc: Global,
    server: &mut RpcEnd,
    stream: &[u8],
    (most, seed): (usize, u64),
    told: &mut String,
) -> Result<(), Fail> {
    let mut state = seed;
    let mut rest = stream;
    for _ in 0..stream.len() {
        let (piece, after) = split(rest, draw(&mut state).min(most));
        comes(alloc, server, piece, told)?;
        rest = after;
    }
    Ok(())
}

fn is_heard_by(
    rt: &impl Abort,
    alloc: Global,
    server: &mut RpcEnd,
    stream: &[u8],
    pieces: (usize, u64),
) -> Result<(), Fail> {
    let mut told = String::new(alloc);
    hears(alloc, server, stream, pieces, &mut told)?;
    is_told(rt, told.as_str(), HEARD, "an exchange");
    Ok(())
}

fn is_heard(
    rt: &impl Abort,
    alloc: Global,
    stream: &[u8],
    pieces: (usize, u64),
) -> Result<(), Fail> {
    let mut server = start(alloc, Framing::Header, Encoding::Json);
    is_heard_by(rt, alloc, &mut server, stream, pieces)
}

fn is_heard_up_to(rt: &impl Abort, alloc: Global, stream: &[u8], most: usize) -> Result<(), Fail> {
    for seed in 0..4 {
        is_heard(rt, alloc, stream, (most, seed))?;
    }
    Ok(())
}

/// The greatest sizes of pieces.
const SIZES: &str = "1 2 3 5 10 20 50 100 200 512";

fn is_heard_in_pieces(rt: &impl Abort, alloc: Global, stream: &[u8]) -> Result<(), Fail> {
    for most in SIZES.split(' ') {
        is_heard_up_to(rt, alloc, stream, size(most) as usize)?;
    }
    Ok(())
}

#[test]
fn an_exchange_is_heard_in_random_pieces(rt: HostRuntime) -> Result<(), Fail> {
    let stream = framed(rt.alloc(), Framing::Header, EXCHANGE)?;
    is_heard_in_pieces(&rt, rt.alloc(), &stream)
}

/// The server answers each message of an exchange as it comes, and the one that was taken back with an error.
#[test]
fn a_language_server_answers(rt: HostRuntime) -> Result<(), Fail> {
    let rows = r#"
        comes {"jsonrpc":"2.0","id":1,"method":"initialize","params":{"processId":null,"rootUri":null,"capabilities":{}}} | asked 1 initialize named 3              |
        answers 1 0                                                          | ok                                      | {"id":1,"jsonrpc":"2.0","result":0}
        comes {"jsonrpc":"2.0","method":"initialized","params":{}}           | told initialized named 0                |
        comes {"jsonrpc":"2.0","method":"textDocument/didOpen","params":{"textDocument":{"uri":"file:///main.rs","languageId":"rust","version":1,"text":""}}} | told textDocument/didOpen named 1       |
        tells textDocument/publishDiagnostics diagnostics=0                  | ok                                      | {"jsonrpc":"2.0","method":"textDocument/publishDiagnostics","params":{"diagnostics":0}}
        comes {"jsonrpc":"2.0","id":2,"method":"textDocument/completion","params":{"position":{"line":1,"character":6}}} | asked 2 textDocument/completion named 1 |
        comes {"jsonrpc":"2.0","method":"$/cancelRequest","params":{"id":2}} | cancelled 2                             |
        fails 2 -32800                                                       | ok                                      | {"error":{"code":-32800,"message":"no"},"id":2,"jsonrpc":"2.0"}
        comes {"jsonrpc":"2.0","method":"$/cancelRequest","params":{"id":2}} | handled $/cancelRequest                 |
        comes {"jsonrpc":"2.0","id":3,"method":"shutdown"}                   | asked 3 shutdown absent                 |
        answers 3 0                                                          | ok                                      | {"id":3,"jsonrpc":"2.0","result":0}
        comes {"jsonrpc":"2.0","method":"exit"}                              | told exit absent                        |
        ends                                                                 | ok                                      |"#;
    a_life_in(&rt, rt.alloc(), Framing::Header, rows)
}

fn is_answered(
    rt: &impl Abort,
    alloc: Global,
    end: &mut RpcEnd,
    call: &str,
    wanted: &str,
) -> Result<(), Fail> {
    let answer = happens(alloc, end, call)?;
    is_told(rt, answer.as_str(), wanted, call);
    Ok(())
}

fn is_heard_of(
    rt: &impl Abort,
    alloc: Global,
    end: &mut RpcEnd,
    bytes: &[u8],
    wanted: &str,
) -> Result<(), Fail> {
    let mut told = String::new(alloc);
    comes(alloc, end, bytes, &mut told)?;
    is_told(rt, told.as_str().trim_end_matches("; "), wanted, "hearing");
    Ok(())
}

/// What an end has to send comes to the other one, which hears this of it.
fn passes(
    rt: &impl Abort,
    alloc: Global,
    from: &mut RpcEnd,
    to: &mut RpcEnd,
    wanted: &str,
) -> Result<(), Fail> {
    is_heard_of(rt, alloc, to, from.pending_output(), wanted)?;
    take_all(from);
    Ok(())
}

/// The call of one end, its answer, and what the other end hears of it.
fn says_to(
    rt: &impl Abort,
    alloc: Global,
    from: &mut RpcEnd,
    to: &mut RpcEnd,
    row: &str,
) -> Result<(), Fail> {
    let (call, others) = parted(row);
    let (wanted, heard) = parted(others);
    is_answered(rt, alloc, from, call, wanted)?;
    passes(rt, alloc, from, to, heard)
}

/// A row is a side, its call, what that answers, and what the other side hears of it.
fn converses_once(
    rt: &impl Abort,
    alloc: Global,
    client: &mut RpcEnd,
    server: &mut RpcEnd,
    row: &str,
) -> Result<(), Fail> {
    match row.split_once(' ') {
        Some(("client", row)) => says_to(rt, alloc, client, server, row),
        Some(("server", row)) => says_to(rt, alloc, server, client, row),
        _ => Ok(()),
    }
}

fn converse(
    rt: &impl Abort,
    alloc: Global,
    client: &mut RpcEnd,
    server: &mut RpcEnd,
    rows: &str,
) -> Result<(), Fail> {
    for row in rows.lines() {
        converses_once(rt, alloc, client, server, row.trim())?;
    }
    Ok(())
}

fn between(
    rt: &impl Abort,
    alloc: Global,
    framing: Framing,
    encoding: Encoding,
    rows: &str,
) -> Result<(), Fail> {
    let mut client = start(alloc, framing, encoding);
    let mut server = start(alloc, framing, encoding);
    converse(rt, alloc, &mut client, &mut server, rows)
}

/// Two ends live through the rows by either framing, in either encoding.
fn in_every_form(rt: &impl Abort, alloc: Global, rows: &str) -> Result<(), Fail> {
    between(rt, alloc, Framing::Header, Encoding::Json, rows)?;
    between(rt, alloc, Framing::Header, Encoding::Pack, rows)?;
    between(rt, alloc, Framing::Length, Encoding::Json, rows)?;
    between(rt, alloc, Framing::Length, Encoding::Pack, rows)
}

#[test]
fn a_call_is_answered_in_every_form(rt: HostRuntime) -> Result<(), Fail> {
    let rows = "
        client asks add 2 3 | 1  | asked 1 add list 2
        server answers 1 5  | ok | answered 1
        client outcome 1    | 5  |";
    in_every_form(&rt, rt.alloc(), rows)
}

/// One end hands out an object, and the other one calls it.
#[test]
fn an_object_is_passed_in_every_form(rt: HostRuntime) -> Result<(), Fail> {
    let rows = "
        client asks make 5           | 1  | asked 1 make list 1
        server gives 1 7             | ok | answered 1
        client invokes 1 bump call:8 | 2  | asked 2 bump list 1 of object 7 by 1
        server invokes 1 look        | 1  | asked 1 look absent of object 8 by 1
        client releases peer 1       | ok | released own 1";
    in_every_form(&rt, rt.alloc(), rows)
}

fn does(alloc: Global, end: &mut RpcEnd, call: &str) -> Result<(), Fail> {
    happens(alloc, end, call)?;
    Ok(())
}

/// All that an end says with a request and a notification are these bytes.
fn says_by(rt: &impl Abort, alloc: Global, end: &mut RpcEnd, bytes: &[u8]) -> Result<(), Fail> {
    does(alloc, end, "asks add 2 3")?;
    does(alloc, end, "tells log")?;
    is_sent(rt, end, bytes, "two calls");
    Ok(())
}

/// A request and a notification are said in these bytes.
fn says(
    rt: &impl Abort,
    alloc: Global,
    framing: Framing,
    encoding: Encoding,
    bytes: &[u8],
) -> Result<(), Fail> {
    let mut end = start(alloc, framing, encoding);
    says_by(rt, alloc, &mut end, bytes)
}

#[test]
fn calls_are_said_in_json(rt: HostRuntime) -> Result<(), Fail> {
    let by_header =
        b"Content-Length: 54\r\n\r\n{\"id\":1,\"jsonrpc\":\"2.0\",\"method\":\"add\",\"params\":[2,3]}Content-Length: 32\r\n\r\n{\"jsonrpc\":\"2.0\",\"method\":\"log\"}";
    let by_length =
        b"\0\0\0\x36{\"id\":1,\"jsonrpc\":\"2.0\",\"method\":\"add\",\"params\":[2,3]}\0\0\0\x20{\"jsonrpc\":\"2.0\",\"method\":\"log\"}";
    says(&rt, rt.alloc(), Framing::Header, Encoding::Json, by_header)?;
    says(&rt, rt.alloc(), Framing::Length, Encoding::Json, by_length)
}

#[test]
fn calls_are_said_in_messagepack(rt: HostRuntime) -> Result<(), Fail> {
    let by_header =
        b"Content-Length: 38\r\n\r\n\x84\xa7jsonrpc\xa32.0\xa2id\x01\xa6method\xa3add\xa6params\x92\x02\x03Content-Length: 24\r\n\r\n\x82\xa7jsonrpc\xa32.0\xa6method\xa3log";
    let by_length =
        b"\0\0\0\x26\x84\xa7jsonrpc\xa32.0\xa2id\x01\xa6method\xa3add\xa6params\x92\x02\x03\0\0\0\x18\x82\xa7jsonrpc\xa32.0\xa6method\xa3log";
    says(&rt, rt.alloc(), Framing::Header, Encoding::Pack, by_header)?;
    says(&rt, rt.alloc(), Framing::Length, Encoding::Pack, by_length)
}

/// A request with the id 7, in MessagePack.
const RUN: &[u8] = b"\0\0\0\x1c\x83\xa7jsonrpc\xa32.0\xa2id\x07\xa6method\xa3run";

fn hears_run(alloc: Global, end: &mut RpcEnd) -> Result<(), Fail> {
    rows::comes(alloc, end, RUN)?;
    Ok(())
}

/// An end hears the request, and all that it says with this call are these bytes.
fn answers_by(
    rt: &impl Abort,
    alloc: Global,
    end: &mut RpcEnd,
    call: &str,
    bytes: &[u8],
) -> Result<(), Fail> {
    hears_run(alloc, end)?;
    does(alloc, end, call)?;
    is_sent(rt, end, bytes, call);
    Ok(())
}

/// The request is answered by this call in these bytes.
fn answers(rt: &impl Abort, alloc: Global, call: &str, bytes: &[u8]) -> Result<(), Fail> {
    let mut end = start(alloc, Framing::Length, Encoding::Pack);
    answers_by(rt, alloc, &mut end, call, bytes)
}

#[test]
fn responses_are_said_in_messagepack(rt: HostRuntime) -> Result<(), Fail> {
    let five = b"\0\0\0\x19\x83\xa7jsonrpc\xa32.0\xa2id\x07\xa6result\x05";
    let bytes = b"\0\0\0\x1b\x83\xa7jsonrpc\xa32.0\xa2id\x07\xa6result\xc4\x01\0";
    let fault =
        b"\0\0\0\x29\x83\xa7jsonrpc\xa32.0\xa2id\x07\xa5error\x82\xa4code\xff\xa7message\xa2no";
    answers(&rt, rt.alloc(), "answers 7 5", five)?;
    answers(&rt, rt.alloc(), "answers 7 bytes", bytes)?;
    answers(&rt, rt.alloc(), "fails 7 -1", fault)
}
