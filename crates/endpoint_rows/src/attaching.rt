//! Connections are attached to channels, and what they leave to calls.

use crate::rows::{LIVE, a_life};
use std::test::Fail;

/// An own offer can have a connection before it is accepted; what it says waits.
#[test]
fn an_own_offer_takes_a_connection(rt: HostRuntime) -> Result<(), Fail> {
    let rows = "
        A offers a 100            | A1
        A attaches A1 length json | ok
        A attaches A1 length json | Attached
        A asks A1 work            | 1
        B hears                   | offered A1
        B accepts A1 100          | ok
        A hears                   | accepted A1
        B hears                   | content A1 44
        B attaches A1 length json | ok
        B attaches A1 header pack | Attached
        B steps                   | A1 asked 1 work absent
        A hears                   | credit A1 44";
    a_life(&rt, rt.alloc(), &[rows])
}

#[test]
fn attachments_are_refused(rt: HostRuntime) -> Result<(), Fail> {
    let unaccepted = "
        A offers a 100            | A1
        B attaches A1 length json | NoChannel
        B hears                   | offered A1
        B attaches A1 length json | NotAccepted
        B attaches B1 length json | NoChannel";
    let terminated = "
        A attaches A1 length json | ok
        A terminates A1           | ok
        A attaches A1 length json | NotOpen
        B attaches A1 length json | ok
        B hears                   | closed A1
        B attaches A1 length json | NoChannel
        A hears                   | closed A1
        A attaches A1 length json | NoChannel";
    let ended = "
        A attaches A1 length json | ok
        A input-ends              | ok
        A attaches A1 length json | Ended(InputEnded)
        A attaches A2 length json | Ended(InputEnded)";
    a_life(&rt, rt.alloc(), &[unaccepted])?;
    a_life(&rt, rt.alloc(), &[LIVE, terminated])?;
    a_life(&rt, rt.alloc(), &[LIVE, ended])
}

/// A connection alone writes, reads and completes on its channel, also after its end.
#[test]
fn calls_leave_the_channel_to_its_connection(rt: HostRuntime) -> Result<(), Fail> {
    let running = r#"
        A attaches A1 length json | ok
        A says A1 []              | Attached
        A reads A1 10             | Attached
        A completes A1            | Attached
        A says A2 []              | NoChannel
        A reads A2 10             | NoChannel
        A completes A2            | NoChannel
        B says A1 []              | ok"#;
    let terminated = "
        A attaches A1 length json | ok
        A asks A1 work            | 1
        A terminates A1           | ok
        A outcome A1 1            | lost
        A asks A1 work            | Ended(ChannelClosed)
        A says A1 []              | Attached
        A reads A1 10             | Attached
        A completes A1            | Attached
        B hears                   | content A1 44; closed A1
        A hears                   | closed A1
        A outcome A1 1            | lost
        A says A1 []              | NoChannel
        A reads A1 10             | NoChannel
        A completes A1            | NoChannel";
    let ended = "
        A attaches A1 length json | ok
        A input-ends              | ok
        A says A1 []              | Ended(InputEnded)
        A completes A1            | Ended(InputEnded)
        A reads A1 10             | Attached";
    a_life(&rt, rt.alloc(), &[LIVE, running])?;
    a_life(&rt, rt.alloc(), &[LIVE, terminated])?;
    a_life(&rt, rt.alloc(), &[LIVE, ended])
}

#[test]
fn channels_without_a_connection_make_no_calls(rt: HostRuntime) -> Result<(), Fail> {
    let rows = "
        A asks A1 work   | NotAttached
        A tells A1 log   | NotAttached
        A answers A1 1 5 | NotAttached
        A forgets A1 1   | NotAttached
        A outcome A1 1   | NotAttached
        A outcome A2 1   | NotAttached
        A last A1        | 0
        A asks A2 work   | NotAttached
        A tells A2 log   | NotAttached
        A answers A2 1 5 | NotAttached
        A forgets A2 1   | NotAttached
        A input-ends     | ok
        A asks A1 work   | NotAttached
        A outcome A1 1   | NotAttached
        A state          | InputEnded";
    a_life(&rt, rt.alloc(), &[LIVE, rows])
}

/// A channel without a connection is used as before.
#[test]
fn bytes_go_beside_connections(rt: HostRuntime) -> Result<(), Fail> {
    let rows = r#"
        A offers b 100            | A2
        B hears                   | offered A2
        B accepts A2 100          | ok
        A hears                   | accepted A2
        A attaches A1 length json | ok
        A knows 0                 | A1
        A knows 1                 | A2
        A knows 2                 | none
        A says A2 []              | ok
        B hears                   | content A2 6
        B reads A2 100            | 6 [0, 0, 0, 2, 91, 93]
        A hears                   | credit A2 6
        A tally A2                | Live 6 0
        A completes A2            | ok
        B hears                   | completed A2"#;
    a_life(&rt, rt.alloc(), &[LIVE, rows])
}
