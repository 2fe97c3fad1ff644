//! Worked calls, in JSON.

use crate::rows::hold;
use std::test::Fail;

/// A value, progress, an object for a call, a handle that goes back, and an object until it is released.
#[test]
fn each_object_of_a_request_gets_the_next_handle(rt: HostRuntime) -> Result<(), Fail> {
    let rows = r#"
    asks | {"id":3,"jsonrpc":"2.0","method":"add","params":[5,3,{"__jsonrpc_marshaled":1,"handle":7,"lifetime":"call"},{"__jsonrpc_marshaled":0,"handle":9},{"__jsonrpc_marshaled":1,"handle":8,"lifetime":"explicit"}]}
"#;
    hold(&rt, rt.alloc(), rows)
}

#[test]
fn a_handle_of_the_peer_is_called_by_its_number(rt: HostRuntime) -> Result<(), Fail> {
    let rows = r#"
    invokes 4 9 a/b | {"id":4,"jsonrpc":"2.0","method":"$/invokeProxy/9/a/b"}
"#;
    hold(&rt, rt.alloc(), rows)
}

#[test]
fn a_release_names_the_side_of_its_handle(rt: HostRuntime) -> Result<(), Fail> {
    let rows = r#"
    releases own 7 | {"jsonrpc":"2.0","method":"$/releaseMarshaledObject","params":{"handle":7,"ownedBySender":true}}
    releases peer 7 | {"jsonrpc":"2.0","method":"$/releaseMarshaledObject","params":{"handle":7,"ownedBySender":false}}
"#;
    hold(&rt, rt.alloc(), rows)
}

#[test]
fn an_object_is_answered_by_its_handle(rt: HostRuntime) -> Result<(), Fail> {
    let rows = r#"
    gives 1 9 | {"id":1,"jsonrpc":"2.0","result":{"__jsonrpc_marshaled":1,"handle":9,"lifetime":"explicit"}}
"#;
    hold(&rt, rt.alloc(), rows)
}
