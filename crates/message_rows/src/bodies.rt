//! Worked bodies, in both encodings.

use crate::rows::hold;
use std::test::Fail;

/// Each behind its size.
#[test]
fn calls_and_replies_are_written(rt: HostRuntime) -> Result<(), Fail> {
    let rows = r#"
    writes json request 1 add 2 3 | 54 {"id":1,"jsonrpc":"2.0","method":"add","params":[2,3]}
    writes json result 5 | 35 {"id":1,"jsonrpc":"2.0","result":5}
    writes pack request 1 add 2 3 | 38 \x84\xa7jsonrpc\xa32.0\xa2id\x01\xa6method\xa3add\xa6params\x92\x02\x03
    writes pack result 5 | 25 \x83\xa7jsonrpc\xa32.0\xa2id\x01\xa6result\x05
"#;
    hold(&rt, rt.alloc(), rows)
}

/// The last id has nine bytes.
#[test]
fn what_is_read_is_written(rt: HostRuntime) -> Result<(), Fail> {
    let rows = r#"
    rewrites json {"id":1,"jsonrpc":"2.0","method":"add","params":[2,3]} | 54 {"id":1,"jsonrpc":"2.0","method":"add","params":[2,3]}
    rewrites json {"id":1,"jsonrpc":"2.0","result":5} | 35 {"id":1,"jsonrpc":"2.0","result":5}
    rewrites json \x20{"jsonrpc" : "2.0", "result" : 5, "other" : {}, "id" : 1}\x20 | 35 {"id":1,"jsonrpc":"2.0","result":5}
    rewrites pack \x84\xa7jsonrpc\xa32.0\xa2id\x01\xa6method\xa3add\xa6params\x92\x02\x03 | 38 \x84\xa7jsonrpc\xa32.0\xa2id\x01\xa6method\xa3add\xa6params\x92\x02\x03
    rewrites pack \x83\xa7jsonrpc\xa32.0\xa2id\x01\xa6result\x05 | 25 \x83\xa7jsonrpc\xa32.0\xa2id\x01\xa6result\x05
    rewrites pack \x84\xa7jsonrpc\xa32.0\xa2id\xcf\x00\x00\x00\x00\x00\x00\x00\x01\xa6method\xa3add\xa6params\x92\x02\x03 | 38 \x84\xa7jsonrpc\xa32.0\xa2id\x01\xa6method\xa3add\xa6params\x92\x02\x03
"#;
    hold(&rt, rt.alloc(), rows)
}

#[test]
fn broken_bodies_are_refused_where_they_break(rt: HostRuntime) -> Result<(), Fail> {
    let rows = r#"
    reads json | NotJson at 0
    reads json {"id":1 | NotJson at 0
    reads json {"id":1,"jsonrpc":"2.0","method":"add","params":[2,3.5]} | Float at 0
    reads json [] | Batch at 0
    reads json {"id":1} | NotVersion2 at 0
    reads pack | NotOneValue at 0
    reads pack \x83\xa7jsonrpc\xa32.0\xa2id\x01\xa6result | NotOneValue at 24
    reads pack \x83\xa7jsonrpc\xa32.0\xa2id\x01\xa6result\x05\xc0 | NotOneValue at 25
    reads pack \x92\x01\xca | Float at 2
    reads pack \x91\x81\x01 | KeyNotText at 2
    reads pack \x90 | Batch at 0
    reads pack \x81\xa2id\x01 | NotVersion2 at 0
"#;
    hold(&rt, rt.alloc(), rows)
}

/// The message is a level itself, so that 126 are left.
#[test]
fn bytes_are_found_before_depth(rt: HostRuntime) -> Result<(), Fail> {
    let rows = r"
    nests json 126 bytes | BytesInJson behind old
    nests json 127 bytes | BytesInJson behind old
    nests pack 126 bytes | written
    nests pack 127 bytes | TooDeep behind old
";
    hold(&rt, rt.alloc(), rows)
}

#[test]
fn nesting_ends_at_127(rt: HostRuntime) -> Result<(), Fail> {
    let rows = r"
    nests json 126 0 | written
    nests json 127 0 | TooDeep behind old
    nests pack 126 0 | written
    nests pack 127 0 | TooDeep behind old
";
    hold(&rt, rt.alloc(), rows)
}

/// A reply has 29 bytes more than its bytes in MessagePack, where 16,777,217 bytes have no spelling.
#[test]
fn bodies_end_at_their_limit(rt: HostRuntime) -> Result<(), Fail> {
    let rows = r"
    fills pack 16777187 | written
    fills pack 16777188 | BodyTooLong behind old
    fills pack 16777217 | BodyTooLong behind old
";
    hold(&rt, rt.alloc(), rows)
}
