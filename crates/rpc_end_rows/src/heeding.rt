//! What the extensions are to an end without objects and sequences.

use crate::rows::a_life;
use std::test::Fail;

#[test]
fn requests_for_extensions_are_answered_at_once(rt: HostRuntime) -> Result<(), Fail> {
    let done = r#"
        comes {"id":7,"jsonrpc":"2.0","method":"$/cancelRequest","params":{"id":1}}         | handled $/cancelRequest          | {"id":7,"jsonrpc":"2.0","result":null}
        comes {"id":8,"jsonrpc":"2.0","method":"$/progress","params":{"token":1,"value":3}} | handled $/progress               | {"id":8,"jsonrpc":"2.0","result":null}
        comes {"id":9,"jsonrpc":"2.0","method":"$/enumerator/abort","params":{"token":1}}   | handled $/enumerator/abort       | {"id":9,"jsonrpc":"2.0","result":null}
        comes {"id":10,"jsonrpc":"2.0","method":"$/releaseMarshaledObject","params":{"handle":1,"ownedBySender":false}} | handled $/releaseMarshaledObject | {"id":10,"jsonrpc":"2.0","result":null}"#;
    let refused = r#"
        comes {"id":11,"jsonrpc":"2.0","method":"$/enumerator/next","params":{"token":1}} | handled $/enumerator/next    | {"error":{"code":-32001,"message":"no sequence"},"id":11,"jsonrpc":"2.0"}
        comes {"id":12,"jsonrpc":"2.0","method":"$/invokeProxy/1/draw","params":[]}       | handled $/invokeProxy/1/draw | {"error":{"code":-32001,"message":"no object"},"id":12,"jsonrpc":"2.0"}
        comes {"id":"a","jsonrpc":"2.0","method":"$/cancelRequest","params":[]}           | handled $/cancelRequest      | {"error":{"code":-32602,"message":"bad arguments"},"id":"a","jsonrpc":"2.0"}
        comes {"id":13,"jsonrpc":"2.0","method":"$/other"}                                | handled $/other              | {"error":{"code":-32601,"message":"no method"},"id":13,"jsonrpc":"2.0"}"#;
    a_life(&rt, rt.alloc(), done)?;
    a_life(&rt, rt.alloc(), refused)
}

#[test]
fn notifications_are_not_answered(rt: HostRuntime) -> Result<(), Fail> {
    let rows = r#"
        comes {"jsonrpc":"2.0","method":"$/cancelRequest","params":{"id":1}}         | handled $/cancelRequest      |
        comes {"jsonrpc":"2.0","method":"$/progress","params":{"token":1,"value":3}} | handled $/progress           |
        comes {"jsonrpc":"2.0","method":"$/enumerator/next","params":{"token":1}}    | handled $/enumerator/next    |
        comes {"jsonrpc":"2.0","method":"$/invokeProxy/1/draw"}                      | handled $/invokeProxy/1/draw |
        comes {"jsonrpc":"2.0","method":"$/other"}                                   | handled $/other              |
        comes {"jsonrpc":"2.0","method":"other"}                                     | told other absent            |"#;
    a_life(&rt, rt.alloc(), rows)
}

/// With other arguments, named or positional, a request is answered that they are bad, and a notification has no effect.
#[test]
fn other_arguments_have_no_effect(rt: HostRuntime) -> Result<(), Fail> {
    let asked = r#"
        asks work progress 2                                                                 | 1                       | {"id":1,"jsonrpc":"2.0","method":"work","params":[1,2]}
        comes {"id":5,"jsonrpc":"2.0","method":"run"}                                        | asked 5 run absent      |
        comes {"id":6,"jsonrpc":"2.0","method":"$/cancelRequest","params":{"token":5}}       | handled $/cancelRequest | {"error":{"code":-32602,"message":"bad arguments"},"id":6,"jsonrpc":"2.0"}
        comes {"id":7,"jsonrpc":"2.0","method":"$/cancelRequest","params":[5,5]}             | handled $/cancelRequest | {"error":{"code":-32602,"message":"bad arguments"},"id":7,"jsonrpc":"2.0"}
        comes {"id":8,"jsonrpc":"2.0","method":"$/progress","params":{"token":1}}            | handled $/progress      | {"error":{"code":-32602,"message":"bad arguments"},"id":8,"jsonrpc":"2.0"}
        comes {"id":9,"jsonrpc":"2.0","method":"$/progress","params":[1]}                    | handled $/progress      | {"error":{"code":-32602,"message":"bad arguments"},"id":9,"jsonrpc":"2.0"}"#;
    let told = r#"
        asks work progress 2                                                                 | 1                       | {"id":1,"jsonrpc":"2.0","method":"work","params":[1,2]}
        comes {"id":5,"jsonrpc":"2.0","method":"run"}                                        | asked 5 run absent      |
        comes {"jsonrpc":"2.0","method":"$/cancelRequest","params":{"id":null}}              | handled $/cancelRequest |
        comes {"jsonrpc":"2.0","method":"$/cancelRequest","params":[5,5]}                    | handled $/cancelRequest |
        comes {"jsonrpc":"2.0","method":"$/progress","params":{"value":3}}                   | handled $/progress      |
        comes {"jsonrpc":"2.0","method":"$/progress","params":[1,2,3]}                       | handled $/progress      |
        takes 1                                                                              | none                    |
        answers 5 2                                                                          | ok                      | {"id":5,"jsonrpc":"2.0","result":2}"#;
    a_life(&rt, rt.alloc(), asked)?;
    a_life(&rt, rt.alloc(), told)
}

/// A cancellation is told where its request waits, and the request goes on to wait for its answer.
#[test]
fn a_cancelled_request_waits_on(rt: HostRuntime) -> Result<(), Fail> {
    let rows = r#"
        comes {"id":1,"jsonrpc":"2.0","method":"run"}                          | asked 1 run absent      |
        comes {"jsonrpc":"2.0","method":"$/cancelRequest","params":{"id":2}}   | handled $/cancelRequest |
        comes {"jsonrpc":"2.0","method":"$/cancelRequest","params":{"id":"1"}} | handled $/cancelRequest |
        comes {"jsonrpc":"2.0","method":"$/cancelRequest","params":{"id":1}}   | cancelled 1             |
        comes {"jsonrpc":"2.0","method":"$/cancelRequest","params":[1]}        | cancelled 1             |
        comes {"id":2,"jsonrpc":"2.0","method":"$/cancelRequest","params":[1]} | cancelled 1             | {"id":2,"jsonrpc":"2.0","result":null}
        answers 1 5                                                            | ok                      | {"id":1,"jsonrpc":"2.0","result":5}
        comes {"jsonrpc":"2.0","method":"$/cancelRequest","params":{"id":1}}   | handled $/cancelRequest |"#;
    a_life(&rt, rt.alloc(), rows)
}

/// A cancellation of the peer doesn't name a request of this end, which stays without an outcome.
#[test]
fn a_cancellation_completes_no_own_request(rt: HostRuntime) -> Result<(), Fail> {
    let rows = r#"
        asks work                                                            | 1                       | {"id":1,"jsonrpc":"2.0","method":"work"}
        comes {"jsonrpc":"2.0","method":"$/cancelRequest","params":{"id":1}} | handled $/cancelRequest |
        outcome 1                                                            | not yet                 |"#;
    a_life(&rt, rt.alloc(), rows)
}

/// A report is told where its request asked for reports and waits for its response.
#[test]
fn reports_are_kept(rt: HostRuntime) -> Result<(), Fail> {
    let rows = r#"
        asks work progress 2                                                                | 1                  | {"id":1,"jsonrpc":"2.0","method":"work","params":[1,2]}
        asks work 2 3                                                                       | 2                  | {"id":2,"jsonrpc":"2.0","method":"work","params":[2,3]}
        comes {"jsonrpc":"2.0","method":"$/progress","params":{"token":1,"value":5}}        | reported 1         |
        comes {"id":7,"jsonrpc":"2.0","method":"$/progress","params":{"token":1,"value":6}} | reported 1         | {"id":7,"jsonrpc":"2.0","result":null}
        comes {"jsonrpc":"2.0","method":"$/progress","params":[2,5]}                        | handled $/progress |
        comes {"jsonrpc":"2.0","method":"$/progress","params":["1",5]}                      | handled $/progress |
        comes {"jsonrpc":"2.0","method":"$/progress","params":[3,5]}                        | handled $/progress |
        takes 1                                                                             | 5                  |
        takes 2                                                                             | NoToken            |
        takes 3                                                                             | NoRequest          |
        comes {"id":1,"jsonrpc":"2.0","result":9}                                           | answered 1         |
        comes {"jsonrpc":"2.0","method":"$/progress","params":{"token":1,"value":7}}        | handled $/progress |
        ends                                                                                | ok                 |
        takes 1                                                                             | 6                  |
        takes 1                                                                             | none               |
        forgets 1                                                                           | ok                 |
        takes 1                                                                             | NoRequest          |"#;
    a_life(&rt, rt.alloc(), rows)
}
