//! Bodies in streams of both framings, in pieces.

use crate::rows::{a_life, hold, is_exchanged};
use std::test::Fail;

/// The last two have no charset: the part is another one, or stands before the first semicolon.
#[test]
fn bodies_stand_behind_their_headers(rt: HostRuntime) -> Result<(), Fail> {
    let rows = r#"
    streams header content-length: 2\r\nContent-Type: application/vscode-jsonrpc; charset=utf-8\r\n\r\n{} | {} at 78
    streams header Content-Length: 2\r\n\r\n{} | {} at 21
    streams header CONTENT-LENGTH:2\r\n\r\n{} | {} at 20
    streams header Content-Length: \t 00000003 \t\r\n\r\nabc | abc at 32
    streams header X: \r\nContent-Length: 1\r\n\r\n\n | \n at 26
    streams header Content-Length: 1\r\nA-Colon: a:b: c\tc\r\n\r\nx | x at 40
    streams header Content-Length: 4\r\n\r\n\r\n\r\n | \r\n\r\n at 21
    streams header Content-Type:;charset=utf8\r\nContent-Length: 1\r\n\r\nx | x at 49
    streams header Content-Type: a; b=c; CharSet=UTF-8 ;d\r\nContent-Length: 1\r\n\r\nx | x at 61
    streams header Content-Type: a;charset="utf-8"\r\nContent-Length: 1\r\n\r\nx | x at 54
    streams header content-type: a;\tcharset="Utf8"\r\nContent-Length: 1\r\n\r\nx | x at 54
    streams header Content-Type: charset=latin1; xcharset=b\r\nContent-Length: 1\r\n\r\nx | x at 63
    streams header Content-Type: charset = latin1\r\nContent-Length: 1\r\n\r\nx | x at 53
"#;
    hold(&rt, rt.alloc(), rows)
}

#[test]
fn headers_are_refused_line_by_line(rt: HostRuntime) -> Result<(), Fail> {
    let rows = r#"
    streams header Content-Length: 0\r\n\r\n | BadLength at 0
    streams header Content-Length: 00000000\r\n\r\n | BadLength at 0
    streams header Content-Length:\r\n\r\n | BadLength at 0
    streams header Content-Length: +1\r\n\r\n | BadLength at 0
    streams header Content-Length: -1\r\n\r\n | BadLength at 0
    streams header Content-Length: 1 2\r\n\r\n | BadLength at 0
    streams header Content-Length: 0x1\r\n\r\n | BadLength at 0
    streams header Content-Length: 000000001\r\n\r\n | BadLength at 0
    streams header Content-Length: 2\r\nContent-Length: 2\r\n\r\n | BadLength at 19
    streams header Content-Length: 2\r\ncontent-length: 3\r\n\r\n | BadLength at 19
    streams header Content-Length: 2\r\nContent-Length: x\r\n\r\n | BadLength at 19
    streams header Content-Length: 16777217\r\n\r\n | LengthTooBig at 0
    streams header Content-Length: 99999999\r\n\r\n | LengthTooBig at 0
    streams header Content-Length: 2\r\nContent-Length: 16777217\r\n\r\n | LengthTooBig at 19
    streams header \r\n | NoLength at 0
    streams header A: b\r\n\r\n | NoLength at 6
    streams header Content-Length-X: 2\r\nX-Content-Length: 2\r\n\r\n | NoLength at 42
    streams header Content-Length\r\n\r\n | BadHeader at 0
    streams header Content-Length: 2\r\nabc\r\n\r\n | BadHeader at 19
    streams header : 2\r\n\r\n | BadHeader at 0
    streams header Content-Length : 2\r\n\r\n | BadHeader at 0
    streams header \x20Content-Length: 2\r\n\r\n | BadHeader at 0
    streams header a\tb: 2\r\n\r\n | BadHeader at 0
    streams header A: b\x00\r\n\r\n | BadHeader at 0
    streams header A: b\x1f\r\n\r\n | BadHeader at 0
    streams header A: \x7f\r\n\r\n | BadHeader at 0
    streams header A: \xc3\xa9\r\n\r\n | BadHeader at 0
    streams header A: b\nContent-Length: 2\r\n\r\n | BadHeader at 0
    streams header A: b\rContent-Length: 2\r\n\r\n | BadHeader at 0
    streams header A: b\r\r\n\r\n | BadHeader at 0
    streams header Content-Length: 0\r\nabc\r\n\r\n | BadLength at 0
    streams header A: b\r\nContent-Type: a; charset=latin1\r\nContent-Length: 0\r\n\r\n | BadCharset at 6
    streams header Content-Type: a; charset=\r\n\r\n | BadCharset at 0
    streams header Content-Type: a; charset=utf-16\r\n\r\n | BadCharset at 0
    streams header Content-Type: a; charset="utf-8\r\n\r\n | BadCharset at 0
    streams header Content-Type: a; charset=""utf-8""\r\n\r\n | BadCharset at 0
    streams header Content-Type: a; charset= utf-8\r\n\r\n | BadCharset at 0
    streams header Content-Type: a; charset='utf-8'\r\n\r\n | BadCharset at 0
    streams header Content-Type: a; charset=utf-8; charset=utf-7\r\n\r\n | BadCharset at 0
    streams header Content-Type: a\r\nCONTENT-TYPE: b;CHARSET=C\r\n\r\n | BadCharset at 17
"#;
    hold(&rt, rt.alloc(), rows)
}

#[test]
fn a_header_has_4096_bytes_at_most(rt: HostRuntime) -> Result<(), Fail> {
    let rows = r"
    fronts 4096 4097 | x at 4096
    fronts 4097 4095 |
    fronts 4097 4096 | HeaderTooLong at 0
    fronts 4097 4097 | HeaderTooLong at 0
    fronts 4097 4098 | HeaderTooLong at 0
";
    hold(&rt, rt.alloc(), rows)
}

#[test]
fn lengths_of_four_bytes(rt: HostRuntime) -> Result<(), Fail> {
    let rows = r"
    streams length \x00\x00\x00\x02{} | {} at 4
    streams length \x00\x00\x00\x00 | BadLength at 0
    streams length \xff\xff\xff\xff | BadLength at 0
    streams length \x80\x00\x00\x00 | BadLength at 0
    streams length \x80\x00\x00\x01 | BadLength at 0
    streams length \x01\x00\x00\x01 | LengthTooBig at 0
    streams length \x7f\xff\xff\xff | LengthTooBig at 0
";
    hold(&rt, rt.alloc(), rows)
}

/// The head of the longest body is not refused.
#[test]
fn a_length_of_16_mib_is_waited_for(rt: HostRuntime) -> Result<(), Fail> {
    let rows = r"
    pieces header 5 Content-Length: 16777216\r\n\r\nx |
    pieces length 5 \x01\x00\x00\x00x |
";
    hold(&rt, rt.alloc(), rows)
}

#[test]
fn a_refusal_stays(rt: HostRuntime) -> Result<(), Fail> {
    let rows = r"
    feeds Content-Length: 1\r\n\r\nxA\r\n\r\n |
    next | x at 21
    next | BadHeader at 22
    feeds Content-Length: 1\r\n\r\nx |
    next | BadHeader at 22
    feeds Content-Length: 1\r\n\r\nx |
    next | BadHeader at 22
    feeds Content-Length: 1\r\n\r\nx |
    fed | 93
";
    a_life(&rt, rt.alloc(), rows)
}

#[test]
fn a_message_is_looked_at_before_it_is_given_up(rt: HostRuntime) -> Result<(), Fail> {
    let rows = r"
    feeds Content-Length: 1\r\n\r\nxContent-Length: 2\r\n\r\nyz |
    looks | x at 21
    looks | yz at 43
    looks |
    feeds A\r\n\r\n |
    looks | BadHeader at 45
";
    a_life(&rt, rt.alloc(), rows)
}

#[test]
fn what_is_wrapped(rt: HostRuntime) -> Result<(), Fail> {
    let rows = r"
    wraps header {} [1,2,3,4,5] | Content-Length: 2\r\n\r\n{}Content-Length: 11\r\n\r\n[1,2,3,4,5]
    wraps length {} [1,2,3,4,5] | \x00\x00\x00\x02{}\x00\x00\x00\x0b[1,2,3,4,5]
";
    hold(&rt, rt.alloc(), rows)
}

/// What a client of a language server writes as it starts, opens a document, and asks for a completion that it then
/// takes back, each at its place.
const EXCHANGE: &str =
    r#"{"jsonrpc":"2.0","id":1,"method":"initialize","params":{"processId":4711,"clientInfo":{"name":"editor","version":"1.2"},"rootUri":"file:///home/user/project","capabilities":{"textDocument":{"completion":{"completionItem":{"snippetSupport":true}}}},"trace":"off","workspaceFolders":null}} at 23
{"jsonrpc":"2.0","method":"initialized","params":{}} at 332
{"jsonrpc":"2.0","method":"textDocument/didOpen","params":{"textDocument":{"uri":"file:///home/user/project/main.rs","languageId":"rust","version":1,"text":"fn main() {\\n    println!(\\"gr\\u00fc\\u00df\\");\\n}\\n"}}} at 407
{"jsonrpc":"2.0","id":2,"method":"textDocument/completion","params":{"textDocument":{"uri":"file:///home/user/project/main.rs"},"position":{"line":1,"character":6},"context":{"triggerKind":1}}} at 642
{"jsonrpc":"2.0","method":"$/cancelRequest","params":{"id":2}} at 857"#;

#[test]
fn an_exchange_with_a_language_server(rt: HostRuntime) -> Result<(), Fail> {
    for size in [1, 7, 64] {
        is_exchanged(&rt, rt.alloc(), size, EXCHANGE)?;
    }
    Ok(())
}
