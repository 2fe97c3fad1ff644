//! What is refused of a peer's bytes, each at its place.

use crate::rows::{comes, framed, is_told, start};
use row_text::parted;
use rpc_end::{Encoding, Framing, RpcEnd};
use std::alloc::Global;
use std::process::Abort;
use std::test::Fail;

fn is_heard(
    rt: &impl Abort,
    alloc: Global,
    end: &mut RpcEnd,
    bytes: &[u8],
    wanted: &str,
) -> Result<(), Fail> {
    let told = comes(alloc, end, bytes)?;
    is_told(rt, told.as_str(), wanted, "a refusal");
    Ok(())
}

/// An end answers so to these bytes, and also to what comes after them.
fn refuses(
    rt: &impl Abort,
    alloc: Global,
    end: &mut RpcEnd,
    bytes: &[u8],
    wanted: &str,
) -> Result<(), Fail> {
    is_heard(rt, alloc, end, bytes, wanted)?;
    is_heard(rt, alloc, end, bytes, wanted)
}

fn are_refused(
    rt: &impl Abort,
    alloc: Global,
    (framing, encoding): (Framing, Encoding),
    bytes: &[u8],
    wanted: &str,
) -> Result<(), Fail> {
    let mut end = start(alloc, framing, encoding);
    refuses(rt, alloc, &mut end, bytes, wanted)
}

/// A fresh end that reads headers refuses these bytes so.
fn header(rt: &impl Abort, alloc: Global, bytes: &[u8], wanted: &str) -> Result<(), Fail> {
    are_refused(rt, alloc, (Framing::Header, Encoding::Json), bytes, wanted)
}

/// A fresh end that reads lengths and MessagePack refuses these bytes so.
fn packed(rt: &impl Abort, alloc: Global, bytes: &[u8], wanted: &str) -> Result<(), Fail> {
    are_refused(rt, alloc, (Framing::Length, Encoding::Pack), bytes, wanted)
}

#[test]
fn headers_are_refused_at_their_line(rt: HostRuntime) -> Result<(), Fail> {
    let alloc = rt.alloc();
    let long = b"A: b\r\nContent-Length: 16777217\r\n\r\n";
    let twice = b"Content-Length: 2\r\nContent-Length: 2\r\n\r\n{}";
    let latin = b"Content-Type: a; charset=latin1\r\n\r\n";
    header(&rt, alloc, b"A: b\r\nno header\r\n\r\n", "refused 50 at 6")?;
    header(&rt, alloc, b"A: b\r\n\r\n", "refused 51 at 6")?;
    header(&rt, alloc, long, "refused 52 at 6")?;
    header(&rt, alloc, b"Content-Length: 0\r\n\r\n", "refused 53 at 0")?;
    header(&rt, alloc, twice, "refused 53 at 19")?;
    header(&rt, alloc, latin, "refused 54 at 0")
}

fn push(bytes: &mut Vec<u8>, byte: u8, count: usize) -> Result<(), Fail> {
    let length = bytes.len().saturating_add(count);
    bytes.resize(length, byte)?;
    Ok(())
}

/// So many times this byte, behind a front.
fn repeated(alloc: Global, front: &[u8], byte: u8, count: usize) -> Result<Vec<u8>, Fail> {
    let mut bytes = Vec::from_slice(alloc, front)?;
    push(&mut bytes, byte, count)?;
    Ok(bytes)
}

#[test]
fn a_header_without_an_end_is_refused(rt: HostRuntime) -> Result<(), Fail> {
    let bytes = repeated(rt.alloc(), b"", b'a', 4_096)?;
    header(&rt, rt.alloc(), &bytes, "refused 55 at 0")
}

fn body_is_refused(rt: &impl Abort, alloc: Global, row: &str) -> Result<(), Fail> {
    let (body, wanted) = parted(row);
    let bytes = framed(alloc, Framing::Length, body)?;
    are_refused(rt, alloc, (Framing::Length, Encoding::Json), &bytes, wanted)
}

/// Each row is a JSON body, and what an end answers to it.
fn bodies_are_refused(rt: &impl Abort, alloc: Global, rows: &str) -> Result<(), Fail> {
    for row in rows.lines() {
        body_is_refused(rt, alloc, row)?;
    }
    Ok(())
}

#[test]
fn bodies_are_refused_at_their_first_byte(rt: HostRuntime) -> Result<(), Fail> {
    let values = r#"
        {                                               | refused 8 at 4
        {"jsonrpc":"2.0","method":"run"} 1              | refused 8 at 4
        {"jsonrpc":"2.0","method":"run","params":[1.5]} | refused 2 at 4
        [1.5]                                           | refused 2 at 4
        1                                               | refused 60 at 4
        "run"                                           | refused 60 at 4
        null                                            | refused 60 at 4
        []                                              | refused 67 at 4
        [{"jsonrpc":"2.0","method":"run"}]              | refused 67 at 4"#;
    let messages = r#"
        {}                                                           | refused 61 at 4
        {"method":"run"}                                             | refused 61 at 4
        {"jsonrpc":"1.0","method":1}                                 | refused 61 at 4
        {"jsonrpc":2,"method":"run"}                                 | refused 61 at 4
        {"id":true,"jsonrpc":"2.0","method":"run"}                   | refused 62 at 4
        {"id":null,"jsonrpc":"2.0","result":5}                       | refused 62 at 4
        {"jsonrpc":"2.0","result":5}                                 | refused 62 at 4
        {"jsonrpc":"2.0","method":1}                                 | refused 63 at 4
        {"jsonrpc":"2.0","method":"run","params":"bar"}              | refused 64 at 4
        {"id":1,"jsonrpc":"2.0"}                                     | refused 65 at 4
        {"id":1,"jsonrpc":"2.0","result":5,"error":{}}               | refused 65 at 4
        {"id":1,"jsonrpc":"2.0","error":5}                           | refused 66 at 4
        {"id":1,"jsonrpc":"2.0","error":{"message":"no"}}            | refused 66 at 4
        {"id":1,"jsonrpc":"2.0","error":{"code":"1","message":"no"}} | refused 66 at 4"#;
    bodies_are_refused(&rt, rt.alloc(), values.trim())?;
    bodies_are_refused(&rt, rt.alloc(), messages.trim())
}

/// A MessagePack body is refused where it breaks off.
#[test]
fn packed_bodies_are_refused_at_their_fault(rt: HostRuntime) -> Result<(), Fail> {
    let alloc = rt.alloc();
    packed(&rt, alloc, b"\0\0\0\x02\x91\xc1", "refused 1 at 5")?;
    packed(&rt, alloc, b"\0\0\0\x06\x91\xca\0\0\0\0", "refused 2 at 5")?;
    packed(&rt, alloc, b"\0\0\0\x04\x91\xd4\0\0", "refused 3 at 5")?;
    packed(&rt, alloc, b"\0\0\0\x03\x91\xa1\xff", "refused 4 at 5")?;
    packed(&rt, alloc, b"\0\0\0\x03\x81\x01\x02", "refused 6 at 5")?;
    packed(
        &rt,
        alloc,
        b"\0\0\0\x06\x91\xdb\x01\0\0\x01",
        "refused 7 at 5",
    )?;
    packed(&rt, alloc, b"\0\0\0\x02\x92\x01", "refused 9 at 6")?;
    packed(&rt, alloc, b"\0\0\0\x03\x91\x01\x01", "refused 9 at 6")?;
    packed(&rt, alloc, b"\0\0\0\x02\x91\x01", "refused 67 at 4")?;
    packed(&rt, alloc, b"\0\0\0\x01\xc0", "refused 60 at 4")
}

/// The 128th array in one another is refused.
#[test]
fn a_packed_body_that_is_too_deep_is_refused(rt: HostRuntime) -> Result<(), Fail> {
    let bytes = repeated(rt.alloc(), b"\0\0\0\xc8", 0x91, 200)?;
    packed(&rt, rt.alloc(), &bytes, "refused 5 at 131")
}

#[test]
fn lengths_are_refused_at_their_first_byte(rt: HostRuntime) -> Result<(), Fail> {
    let alloc = rt.alloc();
    packed(&rt, alloc, b"\x01\0\0\x01", "refused 52 at 0")?;
    packed(&rt, alloc, b"\0\0\0\0", "refused 53 at 0")?;
    packed(&rt, alloc, b"\xff\xff\xff\xff", "refused 53 at 0")
}
