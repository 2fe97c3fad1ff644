//! Requests that are cancelled, and reports on them.

use crate::rows::{LIVE, a_life};
use std::test::Fail;

const ATTACHED: &str = "
    A attaches A1 length pack | ok
    B attaches A1 length pack | ok";

#[test]
fn a_cancelled_request_is_for_the_peer_to_answer(rt: HostRuntime) -> Result<(), Fail> {
    let rows = "
        A asks A1 work   | 1
        A cancels A1 1   | ok
        A cancels A1 1   | AlreadyCancelled
        A cancels A1 2   | NoRequest
        B hears          | content A1 33; A1 asked 1 work absent; content A1 52; A1 cancelled 1
        A outcome A1 1   | not yet
        B answers A1 1 5 | ok
        A hears          | credit A1 33; credit A1 52; content A1 29; A1 answered 1
        A outcome A1 1   | 5
        A cancels A1 1   | NoRequest";
    a_life(&rt, rt.alloc(), &[LIVE, ATTACHED, rows])
}

/// The peer has answered before the cancellation comes to it.
#[test]
fn a_cancellation_that_crosses_the_reply_is_handled(rt: HostRuntime) -> Result<(), Fail> {
    let rows = "
        A asks A1 work   | 1
        B hears          | content A1 33; A1 asked 1 work absent
        B answers A1 1 5 | ok
        A cancels A1 1   | ok
        A hears          | credit A1 33; content A1 29; A1 answered 1
        B hears          | content A1 52; A1 handled $/cancelRequest; credit A1 29
        A outcome A1 1   | 5";
    a_life(&rt, rt.alloc(), &[LIVE, ATTACHED, rows])
}

/// A asks with an argument for progress, and B reports once.
const REPORTED: &str = "
    A asks A1 work progress 7 | 1
    B hears                   | content A1 43; A1 asked 1 work list 2
    B reports A1 1 1 50       | ok
    A takes A1 1              | none
    A hears                   | credit A1 43; content A1 57; A1 reported 1";

#[test]
fn reports_are_taken_once(rt: HostRuntime) -> Result<(), Fail> {
    let rows = "
        A takes A1 1 | 50
        A takes A1 1 | none
        A takes A1 2 | NoRequest";
    a_life(&rt, rt.alloc(), &[LIVE, ATTACHED, REPORTED, rows])
}

#[test]
fn reports_stay_after_the_reply_and_after_the_end(rt: HostRuntime) -> Result<(), Fail> {
    let replied = "
        B answers A1 1 5    | ok
        B reports A1 1 1 60 | NoRequest
        A hears             | content A1 29; A1 answered 1
        A takes A1 1        | 50";
    let ended = "
        A input-ends | ok
        A takes A1 1 | 50
        A takes A1 1 | none";
    let forgotten = "
        B answers A1 1 5 | ok
        A hears          | content A1 29; A1 answered 1
        A forgets A1 1   | ok
        A takes A1 1     | NoRequest";
    for rows in [replied, ended, forgotten] {
        a_life(&rt, rt.alloc(), &[LIVE, ATTACHED, REPORTED, rows])?;
    }
    Ok(())
}

/// The token is one of a request that doesn't ask for reports, or of none.
#[test]
fn a_report_on_another_token_is_handled(rt: HostRuntime) -> Result<(), Fail> {
    let rows = r#"
        A asks A1 work        | 1
        B hears               | content A1 33; A1 asked 1 work absent
        B reports A1 1 1 50   | ok
        A hears               | credit A1 33; content A1 57; A1 handled $/progress
        A takes A1 1          | NoToken
        B hears               | credit A1 57
        B reports A1 1 "t" 50 | ok
        A hears               | content A1 58; A1 handled $/progress"#;
    a_life(&rt, rt.alloc(), &[LIVE, ATTACHED, rows])
}

#[test]
fn calls_are_refused_by_their_rules(rt: HostRuntime) -> Result<(), Fail> {
    let rows = "
        A cancels A1 1             | NotAttached
        A reports A1 1 1 50        | NotAttached
        A takes A1 1               | NotAttached
        A attaches A1 length json  | ok
        A tells A1 log progress 7  | NeedsRequest
        A reports A1 1 1 50        | NoRequest
        A takes A1 0               | NoRequest
        A cancels A1 0             | NoRequest";
    a_life(&rt, rt.alloc(), &[LIVE, rows])
}
