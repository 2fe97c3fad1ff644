//! Results that come in pages.

use crate::rows::{LIVE, a_life};
use std::test::Fail;

const ATTACHED: &str = "
    A attaches A1 length pack | ok
    B attaches A1 length pack | ok";

/// B answers with five values in pages of two, of which one goes with the result.
const BEGUN: &str = r#"
    A asks A1 list sequence       | 1
    B hears                       | content A1 33; A1 asked 1 list absent
    B answers A1 1 sequence 5 2 1 | ok
    A hears                       | credit A1 33; content A1 45; A1 answered 1
    A outcome A1 1                | {"token":1,"values":[1]}"#;

#[test]
fn pages_come_one_after_another(rt: HostRuntime) -> Result<(), Fail> {
    let rows = r#"
        A turns A1 1   | 2
        A turns A1 1   | NextOutstanding
        A leaves A1 1  | NextOutstanding
        B hears        | credit A1 45; content A1 61; A1 handled $/enumerator/next
        A hears        | credit A1 61; content A1 49; A1 answered 2
        A outcome A1 2 | {"finished":false,"values":[2,3]}
        A turns A1 1   | 3
        B hears        | credit A1 49; content A1 61; A1 handled $/enumerator/next
        A hears        | credit A1 61; content A1 49; A1 answered 3
        A outcome A1 3 | {"finished":true,"values":[4,5]}
        A turns A1 1   | NoEnumerable
        A leaves A1 1  | NoEnumerable"#;
    a_life(&rt, rt.alloc(), &[LIVE, ATTACHED, BEGUN, rows])
}

#[test]
fn a_sequence_that_was_left_is_asked_for_no_more(rt: HostRuntime) -> Result<(), Fail> {
    let rows = "
        A leaves A1 1 | ok
        A leaves A1 1 | NoEnumerable
        A turns A1 1  | NoEnumerable
        B hears       | credit A1 45; content A1 58; A1 handled $/enumerator/abort";
    a_life(&rt, rt.alloc(), &[LIVE, ATTACHED, BEGUN, rows])
}

/// A writes without a connection. The last content is the error that there is no sequence: a page would have 71 bytes.
#[test]
fn the_token_of_a_sequence_that_was_left_has_ended(rt: HostRuntime) -> Result<(), Fail> {
    let rows = r#"
        A offers a 1000               | A1
        B hears                       | offered A1
        B accepts A1 100              | ok
        A hears                       | accepted A1
        B attaches A1 length json     | ok
        A says A1 {"id":1,"jsonrpc":"2.0","method":"list"} | ok
        B hears                       | content A1 44; A1 asked 1 list absent
        B answers A1 1 sequence 5 2 1 | ok
        A hears                       | credit A1 44; content A1 62
        A says A1 {"jsonrpc":"2.0","method":"$/enumerator/abort","params":{"token":1}} | ok
        B hears                       | content A1 72; A1 handled $/enumerator/abort
        A hears                       | credit A1 72
        A says A1 {"id":2,"jsonrpc":"2.0","method":"$/enumerator/next","params":{"token":1}} | ok
        B hears                       | content A1 78; A1 handled $/enumerator/next
        A hears                       | credit A1 78; content A1 76"#;
    a_life(&rt, rt.alloc(), &[rows])
}

/// There is a token to go on by where values are left, and where a sequence was asked for.
#[test]
fn other_results_have_no_pages(rt: HostRuntime) -> Result<(), Fail> {
    let whole = r#"
        A asks A1 list sequence       | 1
        B hears                       | content A1 33; A1 asked 1 list absent
        B answers A1 1 sequence 1 2 1 | ok
        A hears                       | credit A1 33; content A1 38; A1 answered 1
        A outcome A1 1                | {"values":[1]}
        A turns A1 1                  | NoEnumerable"#;
    let plain = r#"
        A asks A1 list                | 1
        B hears                       | content A1 33; A1 asked 1 list absent
        B answers A1 1 sequence 5 2 1 | ok
        A hears                       | credit A1 33; content A1 45; A1 answered 1
        A outcome A1 1                | {"token":1,"values":[1]}
        A turns A1 1                  | NoEnumerable"#;
    for rows in [whole, plain] {
        a_life(&rt, rt.alloc(), &[LIVE, ATTACHED, rows])?;
    }
    Ok(())
}

#[test]
fn calls_are_refused_by_their_rules(rt: HostRuntime) -> Result<(), Fail> {
    let early = "
        A turns A1 1                  | NotAttached
        A leaves A1 1                 | NotAttached
        A answers A1 1 sequence 5 2 1 | NotAttached";
    let asked = "
        B answers A1 1 sequence 5 2 1 | NoRequest
        A asks A1 list sequence       | 1
        A turns A1 1                  | NoEnumerable
        A leaves A1 1                 | NoEnumerable
        B hears                       | content A1 33; A1 asked 1 list absent
        B answers A1 1 sequence 5 0 1 | BadPage";
    let ended = "
        A input-ends  | ok
        A turns A1 1  | Ended(InputEnded)
        A leaves A1 1 | Ended(InputEnded)";
    a_life(&rt, rt.alloc(), &[LIVE, early, ATTACHED, asked, ended])
}
