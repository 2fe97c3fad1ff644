//! Channels that complete and terminate, and what the end of the end leaves of them.

use crate::rows::{a_life, a_life_of};
use std::alloc::Global;
use std::process::Abort;
use std::test::Fail;
use wire_base::Version;

/// The peer's frames on an own offer and its frames on its own one, each of them ignored.
const ON_OWN: &str = "
        comes acceptance          | ignored own1 |
        comes 940201ffc40178      | ignored own1 |
        comes acceptor-completes  | ignored own1 |
        comes 940501ffc4029109    | ignored own1 |";

const ON_PEERS: &str = "
        comes 94010101c4029104    | ignored peer1 |
        comes 94020101c40178      | ignored peer1 |
        comes offerer-completes   | ignored peer1 |
        comes 94050101c4029109    | ignored peer1 |";

/// The peer's termination comes on a channel that the end has terminated, and on one that is closed.
const OWN_CLOSES: &str = "comes acceptor-terminates | closed own1 |";

const OWN_IS_CLOSED: &str = "comes acceptor-terminates | ignored own1 |";

const PEERS_CLOSES: &str = "comes offerer-terminates | closed peer1 |";

const PEERS_IS_CLOSED: &str = "comes offerer-terminates | ignored peer1 |";

/// The end runs on.
const RUNS: &str = "state | Running |";

/// The end ignores frames once it has terminated its own offer, and once that is closed.
fn own_is_terminated(rt: &impl Abort, alloc: Global, before: &str, ends: &str) -> Result<(), Fail> {
    a_life(
        rt,
        alloc,
        &[
            before,
            ends,
            ON_OWN,
            OWN_CLOSES,
            ON_OWN,
            OWN_IS_CLOSED,
            RUNS,
        ],
    )
}

/// The same where the peer has terminated it.
fn own_is_closed(rt: &impl Abort, alloc: Global, before: &str) -> Result<(), Fail> {
    let by_peer = "
        comes acceptor-terminates | closed own1    | offerer-terminates";
    a_life(rt, alloc, &[before, by_peer, ON_OWN, OWN_IS_CLOSED, RUNS])
}

#[test]
fn frames_on_a_terminated_own_offer_are_ignored(rt: HostRuntime) -> Result<(), Fail> {
    let waiting = "
        offer 8                   | own1           | offer";
    let live = "
        offer 8                   | own1           | offer
        comes acceptance          | accepted own1  |";
    let terminated = "
        terminate own1            | ok             | offerer-terminates";
    let completed = "
        complete own1             | ok             | offerer-completes
        comes acceptor-completes  | completed own1 | offerer-terminates";
    own_is_terminated(&rt, rt.alloc(), waiting, terminated)?;
    own_is_terminated(&rt, rt.alloc(), live, terminated)?;
    own_is_terminated(&rt, rt.alloc(), live, completed)?;
    own_is_closed(&rt, rt.alloc(), waiting)?;
    own_is_closed(&rt, rt.alloc(), live)
}

/// The end ignores frames once it has terminated the peer's offer, and once that is closed.
fn peers_is_terminated(
    rt: &impl Abort,
    alloc: Global,
    before: &str,
    ends: &str,
) -> Result<(), Fail> {
    a_life(
        rt,
        alloc,
        &[
            before,
            ends,
            ON_PEERS,
            PEERS_CLOSES,
            ON_PEERS,
            PEERS_IS_CLOSED,
            RUNS,
        ],
    )
}

/// The same where the peer has terminated it.
fn peers_is_closed(rt: &impl Abort, alloc: Global, before: &str) -> Result<(), Fail> {
    let by_peer = "
        comes offerer-terminates  | closed peer1    | acceptor-terminates";
    a_life(
        rt,
        alloc,
        &[before, by_peer, ON_PEERS, PEERS_IS_CLOSED, RUNS],
    )
}

#[test]
fn frames_on_a_terminated_peers_offer_are_ignored(rt: HostRuntime) -> Result<(), Fail> {
    let heard = "
        comes offer               | offered peer1   |";
    let live = "
        comes offer               | offered peer1   |
        accept peer1 4            | ok              | acceptance";
    let terminated = "
        terminate peer1           | ok              | acceptor-terminates";
    let completed = "
        complete peer1            | ok              | acceptor-completes
        comes offerer-completes   | completed peer1 | acceptor-terminates";
    peers_is_terminated(&rt, rt.alloc(), heard, terminated)?;
    peers_is_terminated(&rt, rt.alloc(), live, terminated)?;
    peers_is_terminated(&rt, rt.alloc(), live, completed)?;
    peers_is_closed(&rt, rt.alloc(), heard)?;
    peers_is_closed(&rt, rt.alloc(), live)
}

/// An own offer on which five bytes were written and four sent.
const PENDING: &str = "
        offer 8                   | own1                    | offer
        comes acceptance          | accepted own1           |
        write own1 68656c6c6f     | ok                      | 94020101c40468656c6c
        view own1                 | Live 0 1 4 Some(4) false |";

#[test]
fn a_completion_waits_for_pending_bytes(rt: HostRuntime) -> Result<(), Fail> {
    let own_first = "
        complete own1             | ok              |
        comes 940501ffc4029101    | credit own1 1   | 94020101c4016f offerer-completes
        comes acceptor-completes  | completed own1  | offerer-terminates
        tally own1                | Closing 5 5 0 0 |";
    let peers_first = "
        comes acceptor-completes  | completed own1  |
        complete own1             | ok              |
        comes 940501ffc4029101    | credit own1 1   | 94020101c4016f offerer-completes offerer-terminates
        tally own1                | Closing 5 5 0 0 |";
    a_life(&rt, rt.alloc(), &[PENDING, own_first, RUNS])?;
    a_life(&rt, rt.alloc(), &[PENDING, peers_first, RUNS])?;
    let waiting = "
        offer 8                   | own1            | offer
        write own1 6869           | ok              |
        complete own1             | ok              |
        comes acceptance          | accepted own1   | 94020101c4026869 offerer-completes";
    a_life(&rt, rt.alloc(), &[waiting])
}

#[test]
fn unread_bytes_stay_readable(rt: HostRuntime) -> Result<(), Fail> {
    let completed = "
        comes offer               | offered peer1   |
        accept peer1 4            | ok              | acceptance
        comes 94020101c403616263  | content peer1 3 |
        comes offerer-completes   | completed peer1 |
        read peer1 1              | bytes 61        | 940501ffc4029101
        complete peer1            | ok              | acceptor-completes acceptor-terminates
        read peer1 1              | bytes 62        |
        comes offerer-terminates  | closed peer1    |
        view peer1                | Closed 1 0 0 Some(8) true |
        read peer1 9              | bytes 63        |
        read peer1 9              | NoChannel       |
        view peer1                | none            |
        tally peer1               | Closed 0 0 3 3  |";
    a_life(&rt, rt.alloc(), &[completed])?;
    let by_peer = "
        comes 940201ffc4026869    | content own1 2  |
        comes acceptor-terminates | closed own1     | offerer-terminates
        view own1                 | Closed 2 0 4 Some(4) false |
        read own1 1               | bytes 68        |
        read own1 9               | bytes 69        |
        read own1 9               | NoChannel       |
        view own1                 | none            |
        tally own1                | Closed 5 4 2 2  |";
    a_life(&rt, rt.alloc(), &[PENDING, by_peer, RUNS])
}

#[test]
fn terminating_drops_pending_and_unread_bytes(rt: HostRuntime) -> Result<(), Fail> {
    let here = "
        comes 940201ffc4026869    | content own1 2  |
        terminate own1            | ok              | offerer-terminates
        view own1                 | Closing 0 0 4 Some(4) false |
        read own1 9               | bytes           |
        comes 940501ffc4029101    | ignored own1    |
        view own1                 | Closing 0 0 4 Some(4) false |
        comes acceptor-terminates | closed own1     |
        view own1                 | none            |
        tally own1                | Closed 5 4 2 0  |";
    a_life(&rt, rt.alloc(), &[PENDING, here, RUNS])?;
    let unaccepted = "
        state                     | Running         | lesser-plain-hello
        comes greater-plain-hello | ready           |
        comes 0000000001000161    | offered peer1   |
        comes 020000000100026869  | content peer1 2 |
        comes 04000000010000      | closed peer1    | 04000000010000
        read peer1 9              | NoChannel       |
        tally peer1               | Closed 0 0 2 0  |";
    a_life_of(&rt, rt.alloc(), Version::One, &[0; 16], &[unaccepted])
}

#[test]
fn the_end_drops_pending_bytes(rt: HostRuntime) -> Result<(), Fail> {
    let by_input = "
        comes 940201ffc4026869    | content own1 2    |
        input-ends                | ok                |
        state                     | Ended(InputEnded) |
        view own1                 | Live 2 0 4 Some(4) false |
        comes 940501ffc4029101    | Ended(InputEnded) |
        write own1 61             | Ended(InputEnded) |
        read own1 9               | bytes 6869        |
        tally own1                | Live 5 4 2 2      |";
    a_life(&rt, rt.alloc(), &[PENDING, by_input])?;
    let by_frame = "
        comes 940201ffc4026869    | content own1 2    |
        comes acceptance          | Ended(Refused(Place(16), AlreadyAccepted)) |
        view own1                 | Live 2 0 4 Some(4) false |
        input-ends                | ok                |
        state                     | Ended(Refused(Place(16), AlreadyAccepted)) |
        terminate own1            | Ended(Refused(Place(16), AlreadyAccepted)) |
        view own1                 | Live 2 0 4 Some(4) false |";
    a_life(&rt, rt.alloc(), &[PENDING, by_frame])
}

#[test]
fn input_ends_before_the_hello(rt: HostRuntime) -> Result<(), Fail> {
    let rows = "
        feed 92920200c4100101     | Running           | lesser-hello
        input-ends                | ok                |
        state                     | Ended(InputEnded) |
        feed 0101010101010101     | Ended(InputEnded) |
        comes 010101010101        | Ended(InputEnded) |
        ready                     | false             |
        offer 8                   | Ended(InputEnded) |
        input-ends                | ok                |
        state                     | Ended(InputEnded) |";
    a_life_of(&rt, rt.alloc(), Version::Two, &[0; 16], &[rows])
}
