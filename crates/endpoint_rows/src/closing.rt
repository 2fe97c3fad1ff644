//! How connections end, and what they tell then.

use crate::rows::{LIVE, a_life};
use std::test::Fail;

/// A asks twice, and B writes without a connection.
const ASKED: &str = "
    A attaches A1 length json | ok
    A asks A1 work            | 1
    A asks A1 work            | 2
    B hears                   | content A1 44; content A1 44";

/// A reply that comes in one piece with the end of the stream is applied first.
#[test]
fn a_reply_before_the_completion_is_kept(rt: HostRuntime) -> Result<(), Fail> {
    let rows = r#"
        B says A1 {"id":1,"jsonrpc":"2.0","result":5} | ok
        B completes A1                                | ok
        A hears                                       | content A1 39; A1 answered 1; completed A1
        A outcome A1 1                                | 5
        A outcome A1 2                                | lost"#;
    a_life(&rt, rt.alloc(), &[LIVE, ASKED, rows])
}

#[test]
fn a_reply_before_the_termination_is_kept(rt: HostRuntime) -> Result<(), Fail> {
    let rows = r#"
        B says A1 {"id":1,"jsonrpc":"2.0","result":5} | ok
        B terminates A1                               | ok
        A hears                                       | content A1 39; A1 answered 1; closed A1
        A outcome A1 1                                | 5
        A outcome A1 2                                | lost
        A asks A1 work                                | Ended(ChannelClosed)"#;
    a_life(&rt, rt.alloc(), &[LIVE, ASKED, rows])
}

#[test]
fn a_reply_that_lacks_a_byte_at_the_end_is_lost(rt: HostRuntime) -> Result<(), Fail> {
    let completed = r#"
        B begins A1 {"id":1,"jsonrpc":"2.0","result":5} | ok
        B completes A1                                  | ok
        A hears                                         | content A1 38; completed A1
        A outcome A1 1                                  | lost
        A outcome A1 2                                  | lost"#;
    let terminated = r#"
        B begins A1 {"id":1,"jsonrpc":"2.0","result":5} | ok
        B terminates A1                                 | ok
        A hears                                         | content A1 38; closed A1
        A outcome A1 1                                  | lost
        A outcome A1 2                                  | lost"#;
    a_life(&rt, rt.alloc(), &[LIVE, ASKED, completed])?;
    a_life(&rt, rt.alloc(), &[LIVE, ASKED, terminated])
}

/// What an end has read but not applied when the input ends is lost.
#[test]
fn a_reply_that_was_not_applied_before_the_input_ends_is_lost(rt: HostRuntime) -> Result<(), Fail> {
    let rows = r#"
        B says A1 {"id":1,"jsonrpc":"2.0","result":5} | ok
        A feeds                                       | Running
        A steps                                       | content A1 39
        A outcome A1 1                                | not yet
        A input-ends                                  | ok
        A steps                                       | InputEnded
        A outcome A1 1                                | lost"#;
    a_life(&rt, rt.alloc(), &[LIVE, ASKED, rows])
}

/// The channel is terminated by both sides when both have completed.
#[test]
fn a_completion_is_answered(rt: HostRuntime) -> Result<(), Fail> {
    let rows = "
        B completes A1 | ok
        A view A1      | Live 0
        A hears        | completed A1
        A view A1      | Closing 0
        A asks A1 work | Ended(PeerCompleted)
        A tells A1 log | Ended(PeerCompleted)
        B hears        | completed A1; closed A1
        A hears        | closed A1
        A state        | Running
        A outcome A1 1 | lost
        A last A1      | 2";
    a_life(&rt, rt.alloc(), &[LIVE, ASKED, rows])
}

/// Messages that lie unread when the peer completes aren't applied by a connection that is attached then.
#[test]
fn a_connection_behind_the_completion_ends_at_once(rt: HostRuntime) -> Result<(), Fail> {
    let rows = r#"
        B says A1 {"id":1,"jsonrpc":"2.0","method":"run"} | ok
        B completes A1                                    | ok
        A hears                                           | content A1 43; completed A1
        A view A1                                         | Live 43
        A attaches A1 length json                         | ok
        A view A1                                         | Closing 0
        A steps                                           | Short
        A asks A1 work                                    | Ended(PeerCompleted)
        A answers A1 1 5                                  | Ended(PeerCompleted)
        A outcome A1 1                                    | NoRequest
        B hears                                           | credit A1 43; completed A1; closed A1
        A hears                                           | closed A1"#;
    a_life(&rt, rt.alloc(), &[LIVE, rows])
}

/// A second channel, on which A asks too.
const SECOND: &str = "
    A offers b 100            | A2
    B hears                   | offered A2
    B accepts A2 100          | ok
    A hears                   | accepted A2
    A attaches A2 length json | ok
    A asks A2 work            | 1";

#[test]
fn requests_are_lost_when_the_input_ends(rt: HostRuntime) -> Result<(), Fail> {
    let rows = r#"
        B says A1 {"id":1,"jsonrpc":"2.0","result":5} | ok
        A hears            | content A1 39; A1 answered 1
        A input-ends       | ok
        A state            | InputEnded
        A outcome A1 1     | 5
        A outcome A1 2     | lost
        A outcome A2 1     | lost
        A outcome A2 2     | NoRequest
        A last A1          | 2
        A steps            | InputEnded
        A feeds            | InputEnded
        A input-ends       | ok
        A asks A1 work     | Ended(InputEnded)
        A forgets A1 1     | ok
        A outcome A1 1     | NoRequest
        A forgets A1 1     | NoRequest
        A forgets A1 2     | ok
        A outcome A1 2     | NoRequest
        A outcome A2 1     | lost"#;
    a_life(&rt, rt.alloc(), &[LIVE, ASKED, SECOND, rows])
}

/// A frame that is refused ends the end, and the connections of all channels with it.
#[test]
fn connections_end_with_the_end(rt: HostRuntime) -> Result<(), Fail> {
    let rows = "
        A strays       | refused 40 at 16
        A state        | refused 40 at 16
        A outcome A1 1 | lost
        A outcome A2 1 | lost
        A asks A2 work | Ended(Refused(Place(16), NoChannel))";
    a_life(&rt, rt.alloc(), &[LIVE, ASKED, SECOND, rows])
}

/// So does content above a channel's window.
#[test]
fn connections_end_where_a_window_is_exceeded(rt: HostRuntime) -> Result<(), Fail> {
    let rows = "
        A offers c 4     | A3
        B hears          | content A2 44; offered A3
        B accepts A3 100 | ok
        A hears          | accepted A3
        A is-flooded     | refused 32 at 24
        A outcome A1 1   | lost
        A outcome A2 1   | lost";
    a_life(&rt, rt.alloc(), &[LIVE, ASKED, SECOND, rows])
}

/// Only answered and lost requests are forgotten.
#[test]
fn a_request_that_waits_is_not_forgotten(rt: HostRuntime) -> Result<(), Fail> {
    let rows = r#"
        A forgets A1 1                                | NoRequest
        A outcome A1 1                                | not yet
        B says A1 {"id":1,"jsonrpc":"2.0","result":5} | ok
        A hears                                       | content A1 39; A1 answered 1
        A forgets A1 1                                | ok
        A outcome A1 1                                | NoRequest
        A outcome A1 2                                | not yet"#;
    a_life(&rt, rt.alloc(), &[LIVE, ASKED, rows])
}
