//! Worked messages, in MessagePack. The first table begins with the examples of JSON-RPC 2.0.

use crate::rows::hold;
use std::test::Fail;

#[test]
fn reads_the_examples(rt: HostRuntime) -> Result<(), Fail> {
    let rows = r#"
    unpacks \x84\xa7jsonrpc\xa32.0\xa6method\xa8subtract\xa6params\x92*\x17\xa2id\x01 | request Number(1) subtract list 2
    unpacks \x84\xa7jsonrpc\xa32.0\xa6method\xa8subtract\xa6params\x82\xaasubtrahend\x17\xa7minuend*\xa2id\x03 | request Number(3) subtract named 2
    unpacks \x83\xa7jsonrpc\xa32.0\xa6result\x13\xa2id\x01 | result Number(1) Datum { node: Whole(Whole { inner: 19 }) }
    unpacks \x83\xa7jsonrpc\xa32.0\xa6method\xa6update\xa6params\x95\x01\x02\x03\x04\x05 | notification update list 5
    unpacks \x82\xa7jsonrpc\xa32.0\xa6method\xa6foobar | notification foobar absent 0
    unpacks \x83\xa7jsonrpc\xa32.0\xa5error\x82\xa4code\xd1\x80\xa7\xa7message\xb0Method not found\xa2id\xa11 | error Some(Name(Text { inner: "1" })) -32601 Method not found None
    unpacks \x83\xa7jsonrpc\xa32.0\xa5error\x82\xa4code\xd1\x80D\xa7message\xabParse error\xa2id\xc0 | error None -32700 Parse error None
    unpacks \x83\xa7jsonrpc\xa32.0\xa6method\x01\xa6params\xa3bar | 63
    unpacks \x90 | 67
    unpacks \x91\x01 | 67
    unpacks \x83\xa7jsonrpc\xa32.0\xa6method\xa1a\xa2id\xd3\x80\x00\x00\x00\x00\x00\x00\x00 | request Number(-9223372036854775808) a absent 0
    unpacks \x87\xa2id\x07\xa7jsonrpc\xa31.0\xa7jsonrpc\xa32.0\xa2id\x08\xa6method\xa1a\xa5other\xc0\xa6params\xc0 | request Number(8) a absent 0
"#;
    hold(&rt, rt.alloc(), rows)
}

/// Most bodies break two rules, of which the earlier counts.
#[test]
fn refuses_by_the_earlier_rule(rt: HostRuntime) -> Result<(), Fail> {
    let rows = r"
    unpacks \xc0 | 60
    unpacks \xa1a | 60
    unpacks \x81\xa6method\x01 | 61
    unpacks \x82\xa7jsonrpc\x02\xa2id\xc0 | 61
    unpacks \x83\xa7jsonrpc\xa32.0\xa6method\x01\xa2id\xc3 | 63
    unpacks \x84\xa7jsonrpc\xa32.0\xa6method\xc0\xa6result\x01\xa5error\xc0 | 63
    unpacks \x84\xa7jsonrpc\xa32.0\xa6method\xa1a\xa2id\xc3\xa6params\x01 | 62
    unpacks \x84\xa7jsonrpc\xa32.0\xa6method\xa1a\xa2id\xc0\xa6params\x01 | 62
    unpacks \x83\xa7jsonrpc\xa32.0\xa6method\xa1a\xa2id\xcf\x80\x00\x00\x00\x00\x00\x00\x00 | 62
    unpacks \x84\xa7jsonrpc\xa32.0\xa6method\xa1a\xa2id\x01\xa6params\xc2 | 64
    unpacks \x84\xa7jsonrpc\xa32.0\xa2id\xc3\xa6result\xc0\xa5error\x01 | 65
    unpacks \x82\xa7jsonrpc\xa32.0\xa2id\xc3 | 65
    unpacks \x83\xa7jsonrpc\xa32.0\xa2id\xc0\xa6result\xc0 | 62
    unpacks \x83\xa7jsonrpc\xa32.0\xa2id\xc3\xa5error\x01 | 62
    unpacks \x82\xa7jsonrpc\xa32.0\xa5error\x01 | 66
    unpacks \x82\xa7jsonrpc\xa32.0\xa5error\x82\xa4code\x01\xa7message\x02 | 66
";
    hold(&rt, rt.alloc(), rows)
}

#[test]
fn writes_a_request_and_a_result(rt: HostRuntime) -> Result<(), Fail> {
    let rows = r"
    packs request 1 add 2 3 | \x84\xa7jsonrpc\xa32.0\xa2id\x01\xa6method\xa3add\xa6params\x92\x02\x03
    packs result 5 | \x83\xa7jsonrpc\xa32.0\xa2id\x01\xa6result\x05
";
    hold(&rt, rt.alloc(), rows)
}

#[test]
fn reads_an_id_in_any_width(rt: HostRuntime) -> Result<(), Fail> {
    let rows = r"
    unpacks \x84\xa7jsonrpc\xa32.0\xa2id\xcf\x00\x00\x00\x00\x00\x00\x00\x01\xa6method\xa3add\xa6params\x92\x02\x03 | request Number(1) add list 2
";
    hold(&rt, rt.alloc(), rows)
}
