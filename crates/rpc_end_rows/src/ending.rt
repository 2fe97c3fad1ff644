//! How an end ends, and what it tells then.

use crate::rows::a_life;
use std::test::Fail;

/// A refusal ends the end: the answered request keeps its outcome, and the other is lost. So it stays.
#[test]
fn a_refusal_ends_the_end(rt: HostRuntime) -> Result<(), Fail> {
    let rows = r#"
        asks work                                 | 1                                | {"id":1,"jsonrpc":"2.0","method":"work"}
        asks work                                 | 2                                | {"id":2,"jsonrpc":"2.0","method":"work"}
        comes {"id":1,"jsonrpc":"2.0","result":5} | answered 1                       |
        comes []                                  | refused 67 at 43                 |
        comes {"id":2,"jsonrpc":"2.0","result":5} | refused 67 at 43                 |
        feeds {"id":2,"jsonrpc":"2.0","result":5} | refused 67 at 43                 |
        state                                     | refused 67 at 43                 |
        has-message                               | Ok(false)                        |
        ends                                      | ok                               |
        state                                     | refused 67 at 43                 |
        outcome 1                                 | 5                                |
        outcome 2                                 | lost                             |
        outcome 3                                 | no request                       |
        asks work                                 | Ended(Refused(Place(43), Batch)) |
        last                                      | 2                                |"#;
    a_life(&rt, rt.alloc(), rows)
}

/// A reply that comes in one piece with what ends the end is applied first.
#[test]
fn a_reply_before_the_end_is_kept(rt: HostRuntime) -> Result<(), Fail> {
    let rows = r#"
        asks work                                                                            | 1                | {"id":1,"jsonrpc":"2.0","method":"work"}
        asks work                                                                            | 2                | {"id":2,"jsonrpc":"2.0","method":"work"}
        feeds {"id":1,"jsonrpc":"2.0","result":5} + [] + {"id":2,"jsonrpc":"2.0","result":6} | Running          |
        outcome 1                                                                            | not yet          |
        steps                                                                                | answered 1       |
        steps                                                                                | refused 67 at 43 |
        steps                                                                                | refused 67 at 43 |
        outcome 1                                                                            | 5                |
        outcome 2                                                                            | lost             |"#;
    a_life(&rt, rt.alloc(), rows)
}

/// A reply that was fed and not applied comes too late.
#[test]
fn the_end_of_the_input_comes_before_unapplied_messages(rt: HostRuntime) -> Result<(), Fail> {
    let rows = r#"
        asks work                                 | 1          | {"id":1,"jsonrpc":"2.0","method":"work"}
        feeds {"id":1,"jsonrpc":"2.0","result":5} | Running    |
        ends                                      | ok         |
        has-message                               | Ok(false)  |
        steps                                     | InputEnded |
        feeds []                                  | InputEnded |
        steps                                     | InputEnded |
        state                                     | InputEnded |
        outcome 1                                 | lost       |
        stops                                     | ok         |
        outcome 1                                 | lost       |"#;
    a_life(&rt, rt.alloc(), rows)
}

/// The id of a request that waits is refused for another at the body's first byte, but not that of one that was answered.
#[test]
fn an_id_that_waits_is_not_taken_again(rt: HostRuntime) -> Result<(), Fail> {
    let rows = r#"
        comes {"id":1,"jsonrpc":"2.0","method":"$/other"} | handled $/other      | {"error":{"code":-32601,"message":"no method"},"id":1,"jsonrpc":"2.0"}
        comes {"id":1,"jsonrpc":"2.0","method":"run"}     | asked 1 run absent   |
        comes {"id":"1","jsonrpc":"2.0","method":"run"}   | asked "1" run absent |
        comes {"id":1,"jsonrpc":"2.0","method":"$/other"} | refused 72 at 139    |
        comes {"id":2,"jsonrpc":"2.0","method":"run"}     | refused 72 at 139    |"#;
    let answered = r#"
        comes {"id":1,"jsonrpc":"2.0","method":"run"} | asked 1 run absent |
        answers 1 5                                   | ok                 | {"id":1,"jsonrpc":"2.0","result":5}
        comes {"id":1,"jsonrpc":"2.0","method":"run"} | asked 1 run absent |
        comes {"id":1,"jsonrpc":"2.0","method":"run"} | refused 72 at 90   |"#;
    a_life(&rt, rt.alloc(), rows)?;
    a_life(&rt, rt.alloc(), answered)
}
