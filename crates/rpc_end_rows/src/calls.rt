//! What the calls of an end answer and say.

use crate::rows::{a_life, a_life_in};
use rpc_end::Framing;
use std::test::Fail;

#[test]
fn requests_are_numbered(rt: HostRuntime) -> Result<(), Fail> {
    let rows = r#"
        last         | 0          |
        asks add 2 3 | 1          | {"id":1,"jsonrpc":"2.0","method":"add","params":[2,3]}
        last         | 1          |
        asks add     | 2          | {"id":2,"jsonrpc":"2.0","method":"add"}
        asks add a=2 | 3          | {"id":3,"jsonrpc":"2.0","method":"add","params":{"a":2}}
        last         | 3          |
        outcome 0    | no request |
        outcome 3    | not yet    |
        outcome 4    | no request |"#;
    a_life_in(&rt, rt.alloc(), Framing::Header, rows)?;
    a_life_in(&rt, rt.alloc(), Framing::Length, rows)
}

#[test]
fn notifications_are_said(rt: HostRuntime) -> Result<(), Fail> {
    let rows = r#"
        tells log 2 3 | ok | {"jsonrpc":"2.0","method":"log","params":[2,3]}
        tells log     | ok | {"jsonrpc":"2.0","method":"log"}
        tells log a=2 | ok | {"jsonrpc":"2.0","method":"log","params":{"a":2}}
        last          | 0  |"#;
    a_life(&rt, rt.alloc(), rows)
}

/// Each call breaks the rule of its row, and most break a later one too.
#[test]
fn calls_are_refused(rt: HostRuntime) -> Result<(), Fail> {
    let rows = r#"
        asks $/x reserved bytes  | ReservedMethod |
        asks $/x                 | ReservedMethod |
        asks x bytes reserved    | ReservedMember |
        asks x a=reserved        | ReservedMember |
        asks x deep126 bytes     | BytesInJson    |
        asks x deep126 2         | TooDeep        |
        tells $/x reserved bytes | ReservedMethod |
        tells $/x progress bytes | ReservedMethod |
        tells x progress reserved | NeedsRequest  |
        tells x bytes reserved   | ReservedMember |
        tells x deep126 bytes    | BytesInJson    |
        tells x deep126 2        | TooDeep        |
        last                     | 0              |
        state                    | Running        |
        asks x 2 3               | 1              | {"id":1,"jsonrpc":"2.0","method":"x","params":[2,3]}"#;
    a_life(&rt, rt.alloc(), rows)
}

/// An answer that is refused leaves its request waiting, and one that is said does not.
#[test]
fn a_request_is_answered_once(rt: HostRuntime) -> Result<(), Fail> {
    let rows = r#"
        comes {"id":7,"jsonrpc":"2.0","method":"run"}   | asked 7 run absent   |
        comes {"id":"7","jsonrpc":"2.0","method":"run"} | asked "7" run absent |
        answers 8 reserved                              | NoRequest            |
        answers 7 reserved                              | ReservedMember       |
        answers 7 bytes                                 | BytesInJson          |
        answers 7 deep127                               | TooDeep              |
        answers 7 5                                     | ok                   | {"id":7,"jsonrpc":"2.0","result":5}
        answers 7 5                                     | NoRequest            |
        fails 7 -1                                      | NoRequest            |
        fails "7" -1                                    | ok                   | {"error":{"code":-1,"message":"no"},"id":"7","jsonrpc":"2.0"}
        fails "7" -1                                    | NoRequest            |
        comes {"id":7,"jsonrpc":"2.0","method":"run"}   | asked 7 run absent   |
        answers 7 6                                     | ok                   | {"id":7,"jsonrpc":"2.0","result":6}"#;
    a_life(&rt, rt.alloc(), rows)
}

#[test]
fn known_outcomes_are_forgotten(rt: HostRuntime) -> Result<(), Fail> {
    let rows = r#"
        asks add                                  | 1          | {"id":1,"jsonrpc":"2.0","method":"add"}
        asks add                                  | 2          | {"id":2,"jsonrpc":"2.0","method":"add"}
        forgets 0                                 | NoRequest  |
        forgets 1                                 | NoRequest  |
        forgets 3                                 | NoRequest  |
        comes {"id":1,"jsonrpc":"2.0","result":5} | answered 1 |
        forgets 1                                 | ok         |
        outcome 1                                 | no request |
        forgets 1                                 | NoRequest  |
        comes {"id":1,"jsonrpc":"2.0","result":5} | stray      |
        outcome 1                                 | no request |
        ends                                      | ok         |
        outcome 2                                 | lost       |
        forgets 2                                 | ok         |
        forgets 2                                 | NoRequest  |
        last                                      | 2          |"#;
    a_life(&rt, rt.alloc(), rows)
}

#[test]
fn an_ended_end_refuses_calls_that_say_something(rt: HostRuntime) -> Result<(), Fail> {
    let rows = r#"
        comes {"id":7,"jsonrpc":"2.0","method":"run"} | asked 7 run absent |
        ends                                          | ok                 |
        asks $/x reserved bytes                       | Ended(InputEnded)  |
        tells $/x reserved bytes                      | Ended(InputEnded)  |
        answers 7 5                                   | Ended(InputEnded)  |
        answers 8 5                                   | Ended(InputEnded)  |
        fails 7 -1                                    | Ended(InputEnded)  |
        forgets 1                                     | NoRequest          |
        last                                          | 0                  |"#;
    a_life(&rt, rt.alloc(), rows)
}

#[test]
fn a_stopped_end_refuses_every_call(rt: HostRuntime) -> Result<(), Fail> {
    let rows = r#"
        asks add                                      | 1                  | {"id":1,"jsonrpc":"2.0","method":"add"}
        comes {"id":7,"jsonrpc":"2.0","method":"run"} | asked 7 run absent |
        stops                                         | ok                 |
        asks $/x                                      | Stopped            |
        tells $/x                                     | Stopped            |
        answers 7 5                                   | Stopped            |
        answers 8 5                                   | Stopped            |
        forgets 1                                     | Stopped            |
        forgets 2                                     | Stopped            |
        comes {"id":1,"jsonrpc":"2.0","result":5}     | Stopped            |
        has-message                                   | Ok(false)          |
        outcome 1                                     | starved            |
        ends                                          | ok                 |
        state                                         | Stopped            |"#;
    a_life(&rt, rt.alloc(), rows)
}

#[test]
fn a_request_is_cancelled_once(rt: HostRuntime) -> Result<(), Fail> {
    let rows = r#"
        asks work                                 | 1                | {"id":1,"jsonrpc":"2.0","method":"work"}
        cancels 2                                 | NoRequest        |
        cancels 1                                 | ok               | {"jsonrpc":"2.0","method":"$/cancelRequest","params":{"id":1}}
        cancels 1                                 | AlreadyCancelled |
        outcome 1                                 | not yet          |
        comes {"id":1,"jsonrpc":"2.0","result":5} | answered 1       |
        outcome 1                                 | 5                |
        cancels 1                                 | NoRequest        |"#;
    a_life(&rt, rt.alloc(), rows)
}

/// A report is said while the peer's request waits, by whatever token.
#[test]
fn reports_are_said(rt: HostRuntime) -> Result<(), Fail> {
    let rows = r#"
        reports 7 7 5                                 | NoRequest          |
        comes {"id":7,"jsonrpc":"2.0","method":"run"} | asked 7 run absent |
        reports 7 "a" 5                               | ok                 | {"jsonrpc":"2.0","method":"$/progress","params":{"token":"a","value":5}}
        reports 7 7 bytes                             | BytesInJson        |
        answers 7 5                                   | ok                 | {"id":7,"jsonrpc":"2.0","result":5}
        reports 7 7 5                                 | NoRequest          |
        ends                                          | ok                 |
        reports 7 7 5                                 | Ended(InputEnded)  |"#;
    a_life(&rt, rt.alloc(), rows)
}
