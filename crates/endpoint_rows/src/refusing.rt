//! Messages that are refused, and what goes on then.

use crate::rows::{LIVE, a_life};
use std::test::Fail;

/// A writes without connections on two channels, on which B has some.
const TWO: &str = "
    A offers b 100            | A2
    B hears                   | offered A2
    B accepts A2 100          | ok
    A hears                   | accepted A2
    B attaches A1 length json | ok
    B attaches A2 length json | ok
    B asks A1 work            | 1
    B asks A2 work            | 1
    A hears                   | content A1 44; content A2 44";

/// The id of a request that waits is refused for another at the body's first byte.
#[test]
fn an_id_that_waits_is_refused(rt: HostRuntime) -> Result<(), Fail> {
    let rows = r#"
        A says A1 {"id":1,"jsonrpc":"2.0","method":"run"} + {"id":1,"jsonrpc":"2.0","method":"run"} | ok
        B hears          | content A1 86; A1 asked 1 run absent; A1 refused 72 at 47
        B state          | Running
        B view A1        | Closing 0
        B view A2        | Live 0
        B outcome A1 1   | lost
        B outcome A2 1   | not yet
        B asks A1 work   | Ended(Refused(Place(47), DuplicateRequest))
        B answers A1 1 5 | Ended(Refused(Place(47), DuplicateRequest))
        A hears          | credit A1 86; closed A1
        B hears          | closed A1"#;
    a_life(&rt, rt.alloc(), &[LIVE, TWO, rows])
}

/// Another channel's connection goes on, and so does the end.
#[test]
fn a_refusal_leaves_the_other_connections(rt: HostRuntime) -> Result<(), Fail> {
    let rows = r#"
        A says A1 []                                  | ok
        A says A2 {"id":1,"jsonrpc":"2.0","result":5} | ok
        B hears        | content A1 6; A1 refused 67 at 4; content A2 39; A2 answered 1
        B outcome A1 1 | lost
        B outcome A2 1 | 5
        B asks A2 work | 2
        A hears        | credit A1 6; closed A1; credit A2 39; content A2 44
        A says A2 []   | ok
        B hears        | closed A1; content A2 6; A2 refused 67 at 43
        B state        | Running"#;
    a_life(&rt, rt.alloc(), &[LIVE, TWO, rows])
}

/// What came behind a refused message isn't applied.
#[test]
fn messages_behind_a_refused_one_are_dropped(rt: HostRuntime) -> Result<(), Fail> {
    let rows = r#"
        A says A1 [] + {"id":1,"jsonrpc":"2.0","result":5} | ok
        A says A1 {"id":1,"jsonrpc":"2.0","result":5}      | ok
        B hears        | content A1 45; A1 refused 67 at 4; ignored A1
        B outcome A1 1 | lost"#;
    a_life(&rt, rt.alloc(), &[LIVE, TWO, rows])
}
