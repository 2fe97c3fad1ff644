//! Which message is applied first.

use crate::rows::{LIVE, a_life};
use std::test::Fail;

/// Each side has offered two channels, all of which are live.
const FOUR: &str = "
    A offers b 100   | A2
    B offers c 100   | B1
    B offers d 100   | B2
    B hears          | offered A2
    B accepts A2 100 | ok
    A hears          | offered B1; offered B2; accepted A2
    A accepts B1 100 | ok
    A accepts B2 100 | ok
    B hears          | accepted B1; accepted B2";

/// A message waits on each of them before connections are attached.
const WAITING: &str = r#"
    B says B2 {"jsonrpc":"2.0","method":"d"} | ok
    B says A2 {"jsonrpc":"2.0","method":"b"} | ok
    B says B1 {"jsonrpc":"2.0","method":"c"} | ok
    B says A1 {"jsonrpc":"2.0","method":"a"} | ok
    A hears                                  | content B2 34; content A2 34; content B1 34; content A1 34"#;

/// Own channels' messages are applied before the peer's, and each side's by rising id.
#[test]
fn own_channels_go_first_and_lesser_ids(rt: HostRuntime) -> Result<(), Fail> {
    let rows = "
        A attaches B2 length json | ok
        A attaches A2 length json | ok
        A attaches B1 length json | ok
        A attaches A1 length json | ok
        A steps                   | A1 told a absent
        A steps                   | A2 told b absent
        A steps                   | B1 told c absent
        A steps                   | B2 told d absent
        A steps                   | Short";
    let in_turn = "
        A attaches A1 length json | ok
        A attaches A2 length json | ok
        A attaches B1 length json | ok
        A attaches B2 length json | ok
        A steps                   | A1 told a absent
        A steps                   | A2 told b absent
        A steps                   | B1 told c absent
        A steps                   | B2 told d absent
        A steps                   | Short";
    a_life(&rt, rt.alloc(), &[LIVE, FOUR, WAITING, rows])?;
    a_life(&rt, rt.alloc(), &[LIVE, FOUR, WAITING, in_turn])
}

/// All messages that wait are applied before the next frame.
#[test]
fn messages_go_before_frames(rt: HostRuntime) -> Result<(), Fail> {
    let rows = r#"
        A attaches B1 length json | ok
        A attaches A1 length json | ok
        B says B1 {"jsonrpc":"2.0","method":"c"} + {"jsonrpc":"2.0","method":"d"} | ok
        B says A1 {"jsonrpc":"2.0","method":"a"} + {"jsonrpc":"2.0","method":"b"} | ok
        A feeds                   | Running
        A steps                   | content B1 68
        A steps                   | B1 told c absent
        A steps                   | B1 told d absent
        A steps                   | content A1 68
        A steps                   | A1 told a absent
        A steps                   | A1 told b absent
        A steps                   | Short"#;
    a_life(&rt, rt.alloc(), &[LIVE, FOUR, rows])
}
