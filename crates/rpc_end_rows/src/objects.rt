//! Objects that are passed by handle: those of an end, and those of its peer.

use crate::rows::a_life;
use std::test::Fail;

/// Those of a request or a notification get them from left to right. An object that is offered again gets another one.
#[test]
fn objects_get_handles_in_order(rt: HostRuntime) -> Result<(), Fail> {
    let rows = r#"
        last-handle                                   | 0                  |
        asks keep explicit:7 5 call:8                 | 1                  | {"id":1,"jsonrpc":"2.0","method":"keep","params":[{"__jsonrpc_marshaled":1,"handle":1,"lifetime":"explicit"},5,{"__jsonrpc_marshaled":1,"handle":2,"lifetime":"call"}]}
        tells log explicit:7                          | ok                 | {"jsonrpc":"2.0","method":"log","params":[{"__jsonrpc_marshaled":1,"handle":3,"lifetime":"explicit"}]}
        comes {"id":5,"jsonrpc":"2.0","method":"run"} | asked 5 run absent |
        gives 5 9                                     | ok                 | {"id":5,"jsonrpc":"2.0","result":{"__jsonrpc_marshaled":1,"handle":4,"lifetime":"explicit"}}
        asks keep 5                                   | 2                  | {"id":2,"jsonrpc":"2.0","method":"keep","params":[5]}
        last-handle                                   | 4                  |
        handle own 0                                  | none               |
        handle own 1                                  | lives              |
        handle own 4                                  | lives              |
        handle own 5                                  | none               |
        handle peer 1                                 | none               |
        adopted 0                                     | none               |"#;
    a_life(&rt, rt.alloc(), rows)
}

/// Each whole argument of a request is, in order or by name, that is an object, with a lifetime or without one.
#[test]
fn objects_are_adopted(rt: HostRuntime) -> Result<(), Fail> {
    let rows = r#"
        comes {"id":1,"jsonrpc":"2.0","method":"run","params":[{"__jsonrpc_marshaled":1,"handle":5}]} | asked 1 run list 1  |
        comes {"id":2,"jsonrpc":"2.0","method":"run","params":[{"__jsonrpc_marshaled":1,"handle":3,"lifetime":"explicit"},5,{"__jsonrpc_marshaled":1,"handle":4,"lifetime":"call"}]} | asked 2 run list 3  |
        comes {"id":3,"jsonrpc":"2.0","method":"run","params":{"a":{"__jsonrpc_marshaled":1,"handle":0,"lifetime":"call"},"b":{"__jsonrpc_marshaled":1,"handle":9223372036854775807}}} | asked 3 run named 2 |
        adopted 0                                                                                     | 0                   |
        adopted 1                                                                                     | 3                   |
        adopted 2                                                                                     | 4                   |
        adopted 3                                                                                     | 5                   |
        adopted 4                                                                                     | 9223372036854775807 |
        adopted 5                                                                                     | none                |
        handle peer 0                                                                                 | lives               |
        handle peer 3                                                                                 | lives               |
        handle peer 5                                                                                 | lives               |
        handle peer 9223372036854775807                                                               | lives               |
        handle peer 1                                                                                 | none                |
        handle own 5                                                                                  | none                |
        last-handle                                                                                   | 0                   |"#;
    a_life(&rt, rt.alloc(), rows)
}

/// Maps with another handle, another lifetime, another mark or none, and objects within a value.
#[test]
fn other_values_are_plain(rt: HostRuntime) -> Result<(), Fail> {
    let rows = r#"
        comes {"id":1,"jsonrpc":"2.0","method":"run","params":[{"__jsonrpc_marshaled":1,"handle":-1},{"__jsonrpc_marshaled":1,"handle":9223372036854775808},{"__jsonrpc_marshaled":1,"handle":"3"},{"__jsonrpc_marshaled":1,"handle":null},{"__jsonrpc_marshaled":1}]} | asked 1 run list 5  |
        comes {"id":2,"jsonrpc":"2.0","method":"run","params":[{"__jsonrpc_marshaled":1,"handle":1,"lifetime":"Call"},{"__jsonrpc_marshaled":1,"handle":2,"lifetime":""},{"__jsonrpc_marshaled":1,"handle":3,"lifetime":null}]} | asked 2 run list 3  |
        comes {"id":3,"jsonrpc":"2.0","method":"run","params":[{"__jsonrpc_marshaled":0,"handle":4},{"__jsonrpc_marshaled":true,"handle":5},{"__jsonrpc_marshaled":"1","handle":6},{"handle":7,"lifetime":"call"}]} | asked 3 run list 4  |
        comes {"id":4,"jsonrpc":"2.0","method":"run","params":[[{"__jsonrpc_marshaled":1,"handle":8}],{"a":{"__jsonrpc_marshaled":1,"handle":9}}]} | asked 4 run list 2  |
        comes {"id":5,"jsonrpc":"2.0","method":"run","params":{"__jsonrpc_marshaled":1,"handle":10}}                                               | asked 5 run named 2 |
        adopted 0                                                                                                                                  | none                |"#;
    a_life(&rt, rt.alloc(), rows)
}

/// Notifications and results offer objects of explicit lifetime alone. A result that comes again offers none, nor do errors
/// and the methods of the extensions.
#[test]
fn messages_that_offer_less(rt: HostRuntime) -> Result<(), Fail> {
    let told = r#"
        comes {"jsonrpc":"2.0","method":"log","params":[{"__jsonrpc_marshaled":1,"handle":1,"lifetime":"call"},{"__jsonrpc_marshaled":1,"handle":2}]} | told log list 2              |
        comes {"jsonrpc":"2.0","method":"log","params":{"a":{"__jsonrpc_marshaled":1,"handle":3,"lifetime":"explicit"}}}                              | told log named 1             |
        comes {"jsonrpc":"2.0","method":"$/other","params":[{"__jsonrpc_marshaled":1,"handle":4}]}                                                    | handled $/other              |
        comes {"id":1,"jsonrpc":"2.0","method":"$/other","params":[{"__jsonrpc_marshaled":1,"handle":5}]}                                             | handled $/other              | {"error":{"code":-32601,"message":"no method"},"id":1,"jsonrpc":"2.0"}
        comes {"id":2,"jsonrpc":"2.0","method":"$/invokeProxy/9/poke","params":[{"__jsonrpc_marshaled":1,"handle":6}]}                                | handled $/invokeProxy/9/poke | {"error":{"code":-32001,"message":"no object"},"id":2,"jsonrpc":"2.0"}
        adopted 0                                                                                                                                     | 2                            |
        adopted 1                                                                                                                                     | 3                            |
        adopted 2                                                                                                                                     | none                         |"#;
    let replied = r#"
        asks make                                                                                                    | 1          | {"id":1,"jsonrpc":"2.0","method":"make"}
        asks make                                                                                                    | 2          | {"id":2,"jsonrpc":"2.0","method":"make"}
        asks make                                                                                                    | 3          | {"id":3,"jsonrpc":"2.0","method":"make"}
        asks make                                                                                                    | 4          | {"id":4,"jsonrpc":"2.0","method":"make"}
        comes {"id":1,"jsonrpc":"2.0","result":{"__jsonrpc_marshaled":1,"handle":5}}                                 | answered 1 |
        comes {"id":1,"jsonrpc":"2.0","result":{"__jsonrpc_marshaled":1,"handle":6}}                                 | stray      |
        comes {"id":2,"jsonrpc":"2.0","result":{"__jsonrpc_marshaled":1,"handle":7,"lifetime":"call"}}               | answered 2 |
        comes {"id":3,"jsonrpc":"2.0","result":[{"__jsonrpc_marshaled":1,"handle":8}]}                               | answered 3 |
        comes {"error":{"code":1,"data":{"__jsonrpc_marshaled":1,"handle":9},"message":"no"},"id":4,"jsonrpc":"2.0"} | answered 4 |
        comes {"id":5,"jsonrpc":"2.0","result":{"__jsonrpc_marshaled":1,"handle":10}}                                | stray      |
        adopted 0                                                                                                    | 5          |
        adopted 1                                                                                                    | none       |"#;
    a_life(&rt, rt.alloc(), told)?;
    a_life(&rt, rt.alloc(), replied)
}

/// Those of call lifetime that the request carried do, whether the response is a result or an error.
#[test]
fn own_handles_end_with_a_response(rt: HostRuntime) -> Result<(), Fail> {
    let rows = r#"
        asks run call:7 explicit:8                                        | 1                                      | {"id":1,"jsonrpc":"2.0","method":"run","params":[{"__jsonrpc_marshaled":1,"handle":1,"lifetime":"call"},{"__jsonrpc_marshaled":1,"handle":2,"lifetime":"explicit"}]}
        asks run call:7                                                   | 2                                      | {"id":2,"jsonrpc":"2.0","method":"run","params":[{"__jsonrpc_marshaled":1,"handle":3,"lifetime":"call"}]}
        comes {"id":"a","jsonrpc":"2.0","method":"$/invokeProxy/1/poke"}  | asked "a" poke absent of object 7 by 1 |
        comes {"id":7,"jsonrpc":"2.0","result":0}                         | stray                                  |
        handle own 1                                                      | lives                                  |
        comes {"id":1,"jsonrpc":"2.0","result":0}                         | answered 1                             |
        handle own 1                                                      | ended                                  |
        handle own 2                                                      | lives                                  |
        handle own 3                                                      | lives                                  |
        comes {"id":"b","jsonrpc":"2.0","method":"$/invokeProxy/1/poke"}  | handled $/invokeProxy/1/poke           | {"error":{"code":-32001,"message":"no object"},"id":"b","jsonrpc":"2.0"}
        comes {"id":"c","jsonrpc":"2.0","method":"$/invokeProxy/2/poke"}  | asked "c" poke absent of object 8 by 2 |
        comes {"error":{"code":-1,"message":"no"},"id":2,"jsonrpc":"2.0"} | answered 2                             |
        handle own 3                                                      | ended                                  |
        handle own 2                                                      | lives                                  |
        answers "a" 5                                                     | ok                                     | {"id":"a","jsonrpc":"2.0","result":5}"#;
    a_life(&rt, rt.alloc(), rows)
}

/// Those of call lifetime that the request carried do. An answer that is refused ends none.
#[test]
fn peer_handles_end_with_a_response(rt: HostRuntime) -> Result<(), Fail> {
    let rows = r#"
        comes {"id":5,"jsonrpc":"2.0","method":"run","params":[{"__jsonrpc_marshaled":1,"handle":3,"lifetime":"call"},{"__jsonrpc_marshaled":1,"handle":4}]} | asked 5 run list 2   |
        comes {"id":"5","jsonrpc":"2.0","method":"run","params":[{"__jsonrpc_marshaled":1,"handle":6,"lifetime":"call"}]}                                    | asked "5" run list 1 |
        answers 5 bytes                                                                                                                                      | BytesInJson          |
        invokes 3 poke                                                                                                                                       | 1                    | {"id":1,"jsonrpc":"2.0","method":"$/invokeProxy/3/poke"}
        answers 5 0                                                                                                                                          | ok                   | {"id":5,"jsonrpc":"2.0","result":0}
        handle peer 3                                                                                                                                        | ended                |
        handle peer 4                                                                                                                                        | lives                |
        handle peer 6                                                                                                                                        | lives                |
        invokes 3 poke                                                                                                                                       | Released             |
        invokes 4 poke                                                                                                                                       | 2                    | {"id":2,"jsonrpc":"2.0","method":"$/invokeProxy/4/poke"}
        fails "5" -1                                                                                                                                         | ok                   | {"error":{"code":-1,"message":"no"},"id":"5","jsonrpc":"2.0"}
        handle peer 6                                                                                                                                        | ended                |
        handle peer 4                                                                                                                                        | lives                |"#;
    a_life(&rt, rt.alloc(), rows)
}

/// It lives as it was first offered, and after its end it is not taken again. A release of the own handle of that number
/// changes nothing of it.
#[test]
fn a_handle_is_adopted_once(rt: HostRuntime) -> Result<(), Fail> {
    let rows = r#"
        comes {"id":5,"jsonrpc":"2.0","method":"run","params":[{"__jsonrpc_marshaled":1,"handle":3},{"__jsonrpc_marshaled":1,"handle":3,"lifetime":"call"},{"__jsonrpc_marshaled":1,"handle":4,"lifetime":"call"}]} | asked 5 run list 3               |
        comes {"id":6,"jsonrpc":"2.0","method":"run","params":[{"__jsonrpc_marshaled":1,"handle":4}]}           | asked 6 run list 1               |
        answers 5 0                                                                                             | ok                               | {"id":5,"jsonrpc":"2.0","result":0}
        handle peer 3                                                                                           | lives                            |
        handle peer 4                                                                                           | ended                            |
        comes {"id":7,"jsonrpc":"2.0","method":"run","params":[{"__jsonrpc_marshaled":1,"handle":4}]}           | asked 7 run list 1               |
        handle peer 4                                                                                           | ended                            |
        invokes 4 poke                                                                                          | Released                         |
        comes {"jsonrpc":"2.0","method":"$/releaseMarshaledObject","params":{"handle":3,"ownedBySender":false}} | handled $/releaseMarshaledObject |
        handle peer 3                                                                                           | lives                            |
        comes {"jsonrpc":"2.0","method":"$/releaseMarshaledObject","params":{"handle":3,"ownedBySender":true}}  | handled $/releaseMarshaledObject |
        handle peer 3                                                                                           | ended                            |
        comes {"jsonrpc":"2.0","method":"log","params":[{"__jsonrpc_marshaled":1,"handle":3}]}                  | told log list 1                  |
        handle peer 3                                                                                           | ended                            |"#;
    a_life(&rt, rt.alloc(), rows)
}

/// By this end or by the peer, and where both do the releases cross. The next object gets the next handle.
#[test]
fn handles_are_released_once(rt: HostRuntime) -> Result<(), Fail> {
    let own = r#"
        asks keep explicit:7 explicit:8                                                                         | 1                                | {"id":1,"jsonrpc":"2.0","method":"keep","params":[{"__jsonrpc_marshaled":1,"handle":1,"lifetime":"explicit"},{"__jsonrpc_marshaled":1,"handle":2,"lifetime":"explicit"}]}
        releases own 3                                                                                          | NoHandle                         |
        releases peer 1                                                                                         | NoHandle                         |
        releases own 1                                                                                          | ok                               | {"jsonrpc":"2.0","method":"$/releaseMarshaledObject","params":{"handle":1,"ownedBySender":true}}
        releases own 1                                                                                          | Released                         |
        comes {"jsonrpc":"2.0","method":"$/releaseMarshaledObject","params":{"handle":1,"ownedBySender":false}} | handled $/releaseMarshaledObject |
        comes {"jsonrpc":"2.0","method":"$/releaseMarshaledObject","params":[2,false]}                          | released own 2                   |
        releases own 2                                                                                          | Released                         |
        comes {"jsonrpc":"2.0","method":"$/releaseMarshaledObject","params":[2,false]}                          | handled $/releaseMarshaledObject |
        handle own 1                                                                                            | ended                            |
        handle own 2                                                                                            | ended                            |
        asks keep explicit:7                                                                                    | 2                                | {"id":2,"jsonrpc":"2.0","method":"keep","params":[{"__jsonrpc_marshaled":1,"handle":3,"lifetime":"explicit"}]}
        handle own 3                                                                                            | lives                            |"#;
    let peer = r#"
        comes {"id":5,"jsonrpc":"2.0","method":"run","params":[{"__jsonrpc_marshaled":1,"handle":1},{"__jsonrpc_marshaled":1,"handle":2,"lifetime":"call"}]} | asked 5 run list 2               |
        releases peer 3                                                                                                                                      | NoHandle                         |
        releases own 1                                                                                                                                       | NoHandle                         |
        releases peer 2                                                                                                                                      | ok                               | {"jsonrpc":"2.0","method":"$/releaseMarshaledObject","params":{"handle":2,"ownedBySender":false}}
        releases peer 2                                                                                                                                      | Released                         |
        comes {"jsonrpc":"2.0","method":"$/releaseMarshaledObject","params":{"handle":2,"ownedBySender":true}}                                               | handled $/releaseMarshaledObject |
        comes {"jsonrpc":"2.0","method":"$/releaseMarshaledObject","params":{"handle":1,"ownedBySender":true}}                                               | handled $/releaseMarshaledObject |
        releases peer 1                                                                                                                                      | Released                         |
        invokes 1 poke                                                                                                                                       | Released                         |
        comes {"jsonrpc":"2.0","method":"$/releaseMarshaledObject","params":{"handle":1,"ownedBySender":true}}                                               | handled $/releaseMarshaledObject |
        handle peer 1                                                                                                                                        | ended                            |
        handle peer 2                                                                                                                                        | ended                            |"#;
    a_life(&rt, rt.alloc(), own)?;
    a_life(&rt, rt.alloc(), peer)
}

/// They name a handle and its side, in order or by name. With other arguments they have no effect, and a request is
/// answered.
#[test]
fn releases_of_the_peer(rt: HostRuntime) -> Result<(), Fail> {
    let rows = r#"
        asks keep explicit:7                                                                                           | 1                                | {"id":1,"jsonrpc":"2.0","method":"keep","params":[{"__jsonrpc_marshaled":1,"handle":1,"lifetime":"explicit"}]}
        comes {"jsonrpc":"2.0","method":"$/releaseMarshaledObject","params":{"handle":1}}                              | handled $/releaseMarshaledObject |
        comes {"jsonrpc":"2.0","method":"$/releaseMarshaledObject","params":[1]}                                       | handled $/releaseMarshaledObject |
        comes {"jsonrpc":"2.0","method":"$/releaseMarshaledObject","params":[1,null]}                                  | handled $/releaseMarshaledObject |
        comes {"jsonrpc":"2.0","method":"$/releaseMarshaledObject","params":[-1,false]}                                | handled $/releaseMarshaledObject |
        comes {"jsonrpc":"2.0","method":"$/releaseMarshaledObject","params":["1",false]}                               | handled $/releaseMarshaledObject |
        comes {"jsonrpc":"2.0","method":"$/releaseMarshaledObject","params":[1,false,0]}                               | handled $/releaseMarshaledObject |
        comes {"jsonrpc":"2.0","method":"$/releaseMarshaledObject","params":[1,true]}                                  | handled $/releaseMarshaledObject |
        comes {"jsonrpc":"2.0","method":"$/releaseMarshaledObject","params":[2,false]}                                 | handled $/releaseMarshaledObject |
        comes {"id":6,"jsonrpc":"2.0","method":"$/releaseMarshaledObject","params":[1]}                                | handled $/releaseMarshaledObject | {"error":{"code":-32602,"message":"bad arguments"},"id":6,"jsonrpc":"2.0"}
        comes {"id":7,"jsonrpc":"2.0","method":"$/releaseMarshaledObject","params":[2,false]}                          | handled $/releaseMarshaledObject | {"id":7,"jsonrpc":"2.0","result":null}
        handle own 1                                                                                                   | lives                            |
        comes {"id":8,"jsonrpc":"2.0","method":"$/releaseMarshaledObject","params":{"handle":1,"ownedBySender":false}} | released own 1                   | {"id":8,"jsonrpc":"2.0","result":null}
        comes {"id":9,"jsonrpc":"2.0","method":"$/releaseMarshaledObject","params":{"handle":1,"ownedBySender":false}} | handled $/releaseMarshaledObject | {"id":9,"jsonrpc":"2.0","result":null}
        handle own 1                                                                                                   | ended                            |"#;
    a_life(&rt, rt.alloc(), rows)
}

/// It does so by their handles, whatever their methods are called, and with objects of its own. Such a call waits as others
/// do.
#[test]
fn the_peer_calls_objects(rt: HostRuntime) -> Result<(), Fail> {
    let rows = r#"
        asks keep explicit:70                                                                                                            | 1                                     | {"id":1,"jsonrpc":"2.0","method":"keep","params":[{"__jsonrpc_marshaled":1,"handle":1,"lifetime":"explicit"}]}
        comes {"id":1,"jsonrpc":"2.0","method":"$/invokeProxy/1/poke","params":[{"__jsonrpc_marshaled":1,"handle":5,"lifetime":"call"}]} | asked 1 poke list 1 of object 70 by 1 |
        comes {"id":2,"jsonrpc":"2.0","method":"$/invokeProxy/1/a/b"}                                                                    | asked 2 a/b absent of object 70 by 1  |
        comes {"id":3,"jsonrpc":"2.0","method":"$/invokeProxy/1/$/x","params":{"a":1}}                                                   | asked 3 $/x named 1 of object 70 by 1 |
        comes {"id":4,"jsonrpc":"2.0","method":"$/invokeProxy/0000000000000000001/poke"}                                                 | asked 4 poke absent of object 70 by 1 |
        handle peer 5                                                                                                                    | lives                                 |
        answers 1 0                                                                                                                      | ok                                    | {"id":1,"jsonrpc":"2.0","result":0}
        handle peer 5                                                                                                                    | ended                                 |
        comes {"id":2,"jsonrpc":"2.0","method":"run"}                                                                                    | refused 72 at 343                     |"#;
    a_life(&rt, rt.alloc(), rows)
}

/// A number that no object has is answered so, and a name without a number is no method.
#[test]
fn names_of_no_object(rt: HostRuntime) -> Result<(), Fail> {
    let rows = r#"
        asks keep explicit:70                                                             | 1                                               | {"id":1,"jsonrpc":"2.0","method":"keep","params":[{"__jsonrpc_marshaled":1,"handle":1,"lifetime":"explicit"}]}
        comes {"id":1,"jsonrpc":"2.0","method":"$/invokeProxy/0/poke"}                    | handled $/invokeProxy/0/poke                    | {"error":{"code":-32001,"message":"no object"},"id":1,"jsonrpc":"2.0"}
        comes {"id":2,"jsonrpc":"2.0","method":"$/invokeProxy/2/poke"}                    | handled $/invokeProxy/2/poke                    | {"error":{"code":-32001,"message":"no object"},"id":2,"jsonrpc":"2.0"}
        comes {"id":3,"jsonrpc":"2.0","method":"$/invokeProxy/9999999999999999999/poke"}  | handled $/invokeProxy/9999999999999999999/poke  | {"error":{"code":-32001,"message":"no object"},"id":3,"jsonrpc":"2.0"}
        comes {"id":4,"jsonrpc":"2.0","method":"$/invokeProxy/00000000000000000001/poke"} | handled $/invokeProxy/00000000000000000001/poke | {"error":{"code":-32601,"message":"no method"},"id":4,"jsonrpc":"2.0"}
        comes {"id":5,"jsonrpc":"2.0","method":"$/invokeProxy/1"}                         | handled $/invokeProxy/1                         | {"error":{"code":-32601,"message":"no method"},"id":5,"jsonrpc":"2.0"}
        comes {"id":6,"jsonrpc":"2.0","method":"$/invokeProxy//poke"}                     | handled $/invokeProxy//poke                     | {"error":{"code":-32601,"message":"no method"},"id":6,"jsonrpc":"2.0"}
        comes {"id":7,"jsonrpc":"2.0","method":"$/invokeProxy/-1/poke"}                   | handled $/invokeProxy/-1/poke                   | {"error":{"code":-32601,"message":"no method"},"id":7,"jsonrpc":"2.0"}
        comes {"id":8,"jsonrpc":"2.0","method":"$/invokeProxy/1a/poke"}                   | handled $/invokeProxy/1a/poke                   | {"error":{"code":-32601,"message":"no method"},"id":8,"jsonrpc":"2.0"}
        comes {"id":9,"jsonrpc":"2.0","method":"$/invokeProxy/"}                          | handled $/invokeProxy/                          | {"error":{"code":-32601,"message":"no method"},"id":9,"jsonrpc":"2.0"}
        comes {"jsonrpc":"2.0","method":"$/invokeProxy/1/poke","params":[]}               | handled $/invokeProxy/1/poke                    |"#;
    a_life(&rt, rt.alloc(), rows)
}

/// They are by any method. Each call that is refused breaks the rule of its row, and most break a later one too.
#[test]
fn objects_of_the_peer_are_called(rt: HostRuntime) -> Result<(), Fail> {
    let rows = r#"
        comes {"id":5,"jsonrpc":"2.0","method":"run","params":[{"__jsonrpc_marshaled":1,"handle":3},{"__jsonrpc_marshaled":1,"handle":4,"lifetime":"call"}]} | asked 5 run list 2 |
        releases peer 4                                                                                                                                      | ok                 | {"jsonrpc":"2.0","method":"$/releaseMarshaledObject","params":{"handle":4,"ownedBySender":false}}
        invokes 2 poke reserved                                                                                                                              | NoHandle           |
        invokes 4 poke reserved                                                                                                                              | Released           |
        invokes 3 poke reserved handed:2                                                                                                                     | ReservedMember     |
        invokes 3 poke a=reserved                                                                                                                            | ReservedMember     |
        invokes 3 poke handed:4 handed:2                                                                                                                     | NoHandle           |
        invokes 3 poke handed:4 bytes                                                                                                                        | Released           |
        invokes 3 poke explicit:7 bytes deep126                                                                                                              | BytesInJson        |
        invokes 3 poke call:7 deep126                                                                                                                        | TooDeep            |
        last-handle                                                                                                                                          | 0                  |
        last                                                                                                                                                 | 0                  |
        invokes 3 poke handed:3 call:7 progress                                                                                                              | 1                  | {"id":1,"jsonrpc":"2.0","method":"$/invokeProxy/3/poke","params":[{"__jsonrpc_marshaled":0,"handle":3},{"__jsonrpc_marshaled":1,"handle":1,"lifetime":"call"},1]}
        invokes 3 $/x a=5                                                                                                                                    | 2                  | {"id":2,"jsonrpc":"2.0","method":"$/invokeProxy/3/$/x","params":{"a":5}}
        comes {"id":1,"jsonrpc":"2.0","result":5}                                                                                                            | answered 1         |
        outcome 1                                                                                                                                            | 5                  |
        handle own 1                                                                                                                                         | ended              |
        cancels 2                                                                                                                                            | ok                 | {"jsonrpc":"2.0","method":"$/cancelRequest","params":{"id":2}}"#;
    a_life(&rt, rt.alloc(), rows)
}

/// Each call that is refused breaks the rule of its row, and most break a later one too. None draws a handle.
#[test]
fn arguments_with_handles_are_refused(rt: HostRuntime) -> Result<(), Fail> {
    let rows = r#"
        comes {"id":5,"jsonrpc":"2.0","method":"run","params":[{"__jsonrpc_marshaled":1,"handle":3},{"__jsonrpc_marshaled":1,"handle":4}]} | asked 5 run list 2 |
        releases peer 4                                                                                                                    | ok                 | {"jsonrpc":"2.0","method":"$/releaseMarshaledObject","params":{"handle":4,"ownedBySender":false}}
        asks $/x handed:2 reserved                                                                                                         | ReservedMethod     |
        asks x handed:2 reserved                                                                                                           | ReservedMember     |
        asks x explicit:7 handed:4 handed:2                                                                                                | NoHandle           |
        asks x explicit:7 handed:4 bytes                                                                                                   | Released           |
        tells $/x call:7                                                                                                                   | ReservedMethod     |
        tells x reserved call:7                                                                                                            | NeedsRequest       |
        tells x explicit:7 reserved handed:2                                                                                               | ReservedMember     |
        tells x handed:0                                                                                                                   | NoHandle           |
        tells x handed:4 bytes                                                                                                             | Released           |
        tells x explicit:7 bytes                                                                                                           | BytesInJson        |
        gives 6 7                                                                                                                          | NoRequest          |
        last-handle                                                                                                                        | 0                  |
        last                                                                                                                               | 0                  |
        asks back handed:3                                                                                                                 | 1                  | {"id":1,"jsonrpc":"2.0","method":"back","params":[{"__jsonrpc_marshaled":0,"handle":3}]}
        tells back handed:3 explicit:7                                                                                                     | ok                 | {"jsonrpc":"2.0","method":"back","params":[{"__jsonrpc_marshaled":0,"handle":3},{"__jsonrpc_marshaled":1,"handle":1,"lifetime":"explicit"}]}"#;
    a_life(&rt, rt.alloc(), rows)
}

/// The end of the input ends them all, and a stopped end refuses every call of them.
#[test]
fn handles_rest_after_the_end(rt: HostRuntime) -> Result<(), Fail> {
    let ended = r#"
        asks keep explicit:7                                                                          | 1                  | {"id":1,"jsonrpc":"2.0","method":"keep","params":[{"__jsonrpc_marshaled":1,"handle":1,"lifetime":"explicit"}]}
        comes {"id":5,"jsonrpc":"2.0","method":"run","params":[{"__jsonrpc_marshaled":1,"handle":3}]} | asked 5 run list 1 |
        ends                                                                                          | ok                 |
        handle own 1                                                                                  | ended              |
        handle peer 3                                                                                 | ended              |
        last-handle                                                                                   | 1                  |
        adopted 0                                                                                     | 3                  |
        invokes 3 poke                                                                                | Ended(InputEnded)  |
        releases own 1                                                                                | Ended(InputEnded)  |
        releases own 2                                                                                | Ended(InputEnded)  |
        gives 5 7                                                                                     | Ended(InputEnded)  |"#;
    let stopped = r#"
        asks keep explicit:7                                                                          | 1                  | {"id":1,"jsonrpc":"2.0","method":"keep","params":[{"__jsonrpc_marshaled":1,"handle":1,"lifetime":"explicit"}]}
        comes {"id":5,"jsonrpc":"2.0","method":"run","params":[{"__jsonrpc_marshaled":1,"handle":3}]} | asked 5 run list 1 |
        stops                                                                                         | ok                 |
        invokes 3 poke                                                                                | Stopped            |
        invokes 4 poke                                                                                | Stopped            |
        releases own 1                                                                                | Stopped            |
        gives 5 7                                                                                     | Stopped            |"#;
    a_life(&rt, rt.alloc(), ended)?;
    a_life(&rt, rt.alloc(), stopped)
}
