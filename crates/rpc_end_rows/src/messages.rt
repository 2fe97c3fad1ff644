//! What the messages of a peer are to an end.

use crate::rows::{a_life, lives_apart};
use std::test::Fail;

/// A second response to a request, and one to none, change nothing.
#[test]
fn the_first_response_counts(rt: HostRuntime) -> Result<(), Fail> {
    let replied = r#"
        comes {"id":1,"jsonrpc":"2.0","result":5}                        | stray      |
        asks work                                                        | 1          | {"id":1,"jsonrpc":"2.0","method":"work"}
        asks work                                                        | 2          | {"id":2,"jsonrpc":"2.0","method":"work"}
        outcome 1                                                        | not yet    |
        comes {"id":1,"jsonrpc":"2.0","result":5}                        | answered 1 |
        comes {"id":1,"jsonrpc":"2.0","result":5}                        | stray      |
        comes {"id":1,"jsonrpc":"2.0","result":6}                        | stray      |
        comes {"id":1,"jsonrpc":"2.0","error":{"code":1,"message":"no"}} | stray      |
        comes {"id":"2","jsonrpc":"2.0","result":6}                      | stray      |
        comes {"id":3,"jsonrpc":"2.0","result":6}                        | stray      |
        comes {"jsonrpc":"2.0","error":{"code":1,"message":"no"}}        | stray      |
        outcome 1                                                        | 5          |
        outcome 2                                                        | not yet    |
        last                                                             | 2          |"#;
    let failed = r#"
        asks work                                                             | 1                | {"id":1,"jsonrpc":"2.0","method":"work"}
        comes {"id":1,"jsonrpc":"2.0","error":{"code":-3,"message":"no way"}} | answered 1       |
        comes {"id":1,"jsonrpc":"2.0","result":6}                             | stray            |
        outcome 1                                                             | failed -3 no way |"#;
    a_life(&rt, rt.alloc(), replied)?;
    a_life(&rt, rt.alloc(), failed)
}

/// The examples of the JSON-RPC 2.0 specification that are whole messages: "Examples".
#[test]
fn examples_of_the_specification(rt: HostRuntime) -> Result<(), Fail> {
    let calls = r#"
        comes {"jsonrpc": "2.0", "method": "subtract", "params": [42, 23], "id": 1} | asked 1 subtract list 2  |
        comes {"jsonrpc": "2.0", "method": "subtract", "params": [23, 42], "id": 2} | asked 2 subtract list 2  |
        comes {"jsonrpc": "2.0", "method": "subtract", "params": {"subtrahend": 23, "minuend": 42}, "id": 3} | asked 3 subtract named 2 |
        comes {"jsonrpc": "2.0", "method": "subtract", "params": {"minuend": 42, "subtrahend": 23}, "id": 4} | asked 4 subtract named 2 |
        comes {"jsonrpc": "2.0", "method": "update", "params": [1,2,3,4,5]}         | told update list 5       |
        comes {"jsonrpc": "2.0", "method": "foobar"}                                | told foobar absent       |
        comes {"jsonrpc": "2.0", "method": "foobar", "id": "1"}                     | asked "1" foobar absent  |"#;
    let responses = r#"
        comes {"jsonrpc": "2.0", "result": 19, "id": 1} | stray |
        comes {"jsonrpc": "2.0", "error": {"code": -32601, "message": "Method not found"}, "id": "1"} | stray |
        comes {"jsonrpc": "2.0", "error": {"code": -32700, "message": "Parse error"}, "id": null} | stray |"#;
    a_life(&rt, rt.alloc(), calls)?;
    a_life(&rt, rt.alloc(), responses)
}

/// Each comes to a fresh end.
#[test]
fn examples_that_are_refused(rt: HostRuntime) -> Result<(), Fail> {
    let rows = r#"
        comes {"jsonrpc": "2.0", "method": "foobar, "params": "bar", "baz] | refused 8 at 4  |
        comes {"jsonrpc": "2.0", "method": 1, "params": "bar"}             | refused 63 at 4 |
        comes []                                                           | refused 67 at 4 |
        comes [1,2,3]                                                      | refused 67 at 4 |"#;
    lives_apart(&rt, rt.alloc(), rows)
}
