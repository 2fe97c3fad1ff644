//! Objects that are passed by handle.

use crate::rows::{WIDE, a_life};
use row_text::parted;
use std::alloc::Global;
use std::process::Abort;
use std::test::Fail;

const ATTACHED: &str = "
    A attaches A1 length pack | ok
    B attaches A1 length pack | ok";

/// A passes object 7 by handle 1, which lives until it is released.
const KEPT: &str = "
    A asks A1 keep explicit:7 | 1
    B hears                   | content A1 89; A1 asked 1 keep list 1";

/// The holder's ends when the response is said, and the owner's when that is applied.
#[test]
fn a_handle_of_call_lifetime_ends_with_the_response(rt: HostRuntime) -> Result<(), Fail> {
    let rows = "
        A asks A1 keep call:7 explicit:8 | 1
        B hears                          | content A1 133; A1 asked 1 keep list 2
        A made A1                        | 2
        B adopted A1                     | [1, 2]
        B handle A1 peer 1               | lives
        B answers A1 1 5                 | ok
        B handle A1 peer 1               | ended
        A handle A1 own 1                | lives
        A hears                          | credit A1 133; content A1 29; A1 answered 1
        A handle A1 own 1                | ended
        B invokes A1 1 poke              | Released
        B handle A1 peer 2               | lives
        A handle A1 own 2                | lives
        A input-ends                     | ok
        A handle A1 own 2                | ended";
    a_life(&rt, rt.alloc(), &[WIDE, ATTACHED, rows])
}

#[test]
fn calls_on_a_handle_come_to_its_object(rt: HostRuntime) -> Result<(), Fail> {
    let rows = "
        B invokes A1 1 add 2 3 | 1
        A hears                | credit A1 89; content A1 58; A1 asked 1 add list 2 of object 7 by 1
        A answers A1 1 5       | ok
        B hears                | credit A1 58; content A1 29; A1 answered 1
        B outcome A1 1         | 5
        B last A1              | 1
        B invokes A1 2 add 2 3 | NoHandle";
    a_life(&rt, rt.alloc(), &[WIDE, ATTACHED, KEPT, rows])
}

#[test]
fn an_answer_can_be_an_object(rt: HostRuntime) -> Result<(), Fail> {
    let rows = r#"
        A asks A1 make          | 1
        B hears                 | content A1 33; A1 asked 1 make absent
        B answers A1 1 object 7 | ok
        B made A1               | 1
        A hears                 | credit A1 33; content A1 76; A1 answered 1
        A outcome A1 1          | {"__jsonrpc_marshaled":1,"handle":1,"lifetime":"explicit"}
        A adopted A1            | [1]
        A releases A1 peer 1    | ok
        A handle A1 peer 1      | ended
        A releases A1 peer 1    | Released
        B handle A1 own 1       | lives
        B hears                 | credit A1 76; content A1 80; A1 released own 1
        B handle A1 own 1       | ended"#;
    a_life(&rt, rt.alloc(), &[WIDE, ATTACHED, rows])
}

#[test]
fn both_sides_can_release_a_handle(rt: HostRuntime) -> Result<(), Fail> {
    let rows = "
        A releases A1 own 1  | ok
        B releases A1 peer 1 | ok
        A hears              | credit A1 89; content A1 80; A1 handled $/releaseMarshaledObject
        B hears              | content A1 80; A1 handled $/releaseMarshaledObject; credit A1 80
        B invokes A1 1 poke  | Released
        A handle A1 own 1    | ended";
    a_life(&rt, rt.alloc(), &[WIDE, ATTACHED, KEPT, rows])
}

#[test]
fn a_call_that_crosses_the_release_finds_no_object(rt: HostRuntime) -> Result<(), Fail> {
    let rows = "
        B invokes A1 1 poke | 1
        A releases A1 own 1 | ok
        A hears             | credit A1 89; content A1 49; A1 handled $/invokeProxy/1/poke
        B hears             | content A1 80; A1 handled $/releaseMarshaledObject; credit A1 49; content A1 54; A1 answered 1
        B outcome A1 1      | failed -32001 no object
        B handle A1 peer 1  | ended";
    a_life(&rt, rt.alloc(), &[WIDE, ATTACHED, KEPT, rows])
}

/// Its owner is told the handle by a value, and adopts nothing.
#[test]
fn a_handle_goes_back_to_its_owner(rt: HostRuntime) -> Result<(), Fail> {
    let rows = "
        B asks A1 use handed:1 2 | 1
        A hears                  | credit A1 89; content A1 71; A1 asked 1 use list 2
        A adopted A1             | []
        B asks A1 use handed:2   | NoHandle
        B releases A1 peer 1     | ok
        B asks A1 use handed:1   | Released";
    a_life(&rt, rt.alloc(), &[WIDE, ATTACHED, KEPT, rows])
}

#[test]
fn handles_are_those_of_their_channel(rt: HostRuntime) -> Result<(), Fail> {
    let rows = "
        A offers b 100            | A2
        B hears                   | offered A2
        B accepts A2 100          | ok
        A hears                   | credit A1 89; accepted A2
        A attaches A2 length pack | ok
        B attaches A2 length pack | ok
        B handle A1 peer 1        | lives
        B handle A2 peer 1        | none
        B invokes A2 1 poke       | NoHandle
        B adopted A2              | []
        A made A1                 | 1
        A made A2                 | 0
        A releases A2 own 1       | NoHandle
        A handle A1 own 1         | lives";
    a_life(&rt, rt.alloc(), &[WIDE, ATTACHED, KEPT, rows])
}

#[test]
fn calls_are_refused_by_their_rules(rt: HostRuntime) -> Result<(), Fail> {
    let early = "
        A invokes A1 1 poke    | NotAttached
        A releases A1 own 1    | NotAttached
        A made A1              | 0
        A handle A1 own 1      | none
        A adopted A1           | []";
    let attached = "
        A releases A1 own 1    | NoHandle
        A releases A1 peer 1   | NoHandle
        A handle A1 own 0      | none
        A answers A1 1 object 7 | NoRequest
        A tells A1 log call:7  | NeedsRequest
        A tells A1 log explicit:7 | ok
        A releases A1 own 1    | ok
        A releases A1 own 1    | Released";
    let ended = "
        A input-ends           | ok
        A invokes A1 1 poke    | Ended(InputEnded)
        A releases A1 own 1    | Ended(InputEnded)";
    a_life(&rt, rt.alloc(), &[WIDE, early, ATTACHED, attached, ended])
}

/// A writes without a connection, and B asks it once.
const ASKED: &str = "
    B attaches A1 length json | ok
    B asks A1 work            | 1";

/// A says the message of a row, and B has adopted these handles then.
fn adoption(alloc: Global, row: &str) -> Result<String, Fail> {
    let (message, wanted) = parted(row);
    Ok(format!(in alloc; "A says A1 {message} | ok\nB takes-in | ok\nB adopted A1 | {wanted}")?)
}

/// A row is a message, and the handles that are adopted from it, behind a bar.
fn is_adopted(rt: &impl Abort, alloc: Global, row: &str) -> Result<(), Fail> {
    let rows = adoption(alloc, row)?;
    a_life(rt, alloc, &[WIDE, ASKED, rows.as_str()])
}

fn are_adopted(rt: &impl Abort, alloc: Global, rows: &str) -> Result<(), Fail> {
    for row in rows.trim().lines() {
        is_adopted(rt, alloc, row)?;
    }
    Ok(())
}

#[test]
fn objects_are_adopted_from_whole_values(rt: HostRuntime) -> Result<(), Fail> {
    let rows = r#"
        {"id":1,"jsonrpc":"2.0","method":"keep","params":[{"__jsonrpc_marshaled":1,"handle":3,"lifetime":"call"}]} | [3]
        {"id":1,"jsonrpc":"2.0","method":"keep","params":[{"__jsonrpc_marshaled":1,"handle":3,"lifetime":"explicit"}]} | [3]
        {"id":1,"jsonrpc":"2.0","method":"keep","params":[0,{"__jsonrpc_marshaled":1,"handle":4},{"__jsonrpc_marshaled":1,"handle":0}]} | [0, 4]
        {"id":1,"jsonrpc":"2.0","method":"keep","params":{"a":{"__jsonrpc_marshaled":1,"handle":9223372036854775807}}} | [9223372036854775807]
        {"jsonrpc":"2.0","method":"keep","params":[{"__jsonrpc_marshaled":1,"handle":3,"lifetime":"explicit"}]} | [3]
        {"id":1,"jsonrpc":"2.0","result":{"__jsonrpc_marshaled":1,"handle":3,"lifetime":"explicit"}} | [3]"#;
    are_adopted(&rt, rt.alloc(), rows)
}

/// Another handle, lifetime or mark, a value within another, and messages that aren't for the service.
#[test]
fn other_values_are_plain(rt: HostRuntime) -> Result<(), Fail> {
    let values = r#"
        {"id":1,"jsonrpc":"2.0","method":"keep","params":[{"__jsonrpc_marshaled":1,"handle":-1,"lifetime":"call"}]} | []
        {"id":1,"jsonrpc":"2.0","method":"keep","params":[{"__jsonrpc_marshaled":1,"handle":"3","lifetime":"call"}]} | []
        {"id":1,"jsonrpc":"2.0","method":"keep","params":[{"__jsonrpc_marshaled":1,"handle":9223372036854775808}]} | []
        {"id":1,"jsonrpc":"2.0","method":"keep","params":[{"__jsonrpc_marshaled":1,"lifetime":"call"}]} | []
        {"id":1,"jsonrpc":"2.0","method":"keep","params":[{"__jsonrpc_marshaled":1,"handle":3,"lifetime":"ever"}]} | []
        {"id":1,"jsonrpc":"2.0","method":"keep","params":[{"__jsonrpc_marshaled":1,"handle":3,"lifetime":null}]} | []
        {"id":1,"jsonrpc":"2.0","method":"keep","params":[{"__jsonrpc_marshaled":0,"handle":3}]} | []
        {"id":1,"jsonrpc":"2.0","method":"keep","params":[[{"__jsonrpc_marshaled":1,"handle":3}]]} | []
        {"id":1,"jsonrpc":"2.0","method":"keep","params":{"a":{"b":{"__jsonrpc_marshaled":1,"handle":3}}}} | []"#;
    let messages = r#"
        {"jsonrpc":"2.0","method":"keep","params":[{"__jsonrpc_marshaled":1,"handle":3,"lifetime":"call"}]} | []
        {"id":1,"jsonrpc":"2.0","result":{"__jsonrpc_marshaled":1,"handle":3,"lifetime":"call"}} | []
        {"id":1,"jsonrpc":"2.0","result":[{"__jsonrpc_marshaled":1,"handle":3}]} | []
        {"id":2,"jsonrpc":"2.0","result":{"__jsonrpc_marshaled":1,"handle":3}} | []
        {"id":1,"jsonrpc":"2.0","method":"$/invokeProxy/1/keep","params":[{"__jsonrpc_marshaled":1,"handle":3}]} | []
        {"jsonrpc":"2.0","method":"$/progress","params":{"token":1,"value":{"__jsonrpc_marshaled":1,"handle":3}}} | []"#;
    are_adopted(&rt, rt.alloc(), values)?;
    are_adopted(&rt, rt.alloc(), messages)
}

/// The first lifetime counts.
#[test]
fn a_handle_is_adopted_once(rt: HostRuntime) -> Result<(), Fail> {
    let rows = r#"
        A says A1 {"id":1,"jsonrpc":"2.0","method":"keep","params":[{"__jsonrpc_marshaled":1,"handle":3,"lifetime":"call"}]} | ok
        A says A1 {"jsonrpc":"2.0","method":"keep","params":[{"__jsonrpc_marshaled":1,"handle":3,"lifetime":"explicit"}]}    | ok
        B hears            | content A1 110; A1 asked 1 keep list 1; content A1 107; A1 told keep list 1
        B handle A1 peer 3 | lives
        B answers A1 1 5   | ok
        B handle A1 peer 3 | ended
        B adopted A1       | [3]"#;
    a_life(&rt, rt.alloc(), &[WIDE, ASKED, rows])
}
