//! The life of a channel: what happens, how it is answered, where the channel stands then, and what is sent.

use crate::rows::{a_peers_offer, an_own_offer};
use std::test::Fail;
use wire_base::Version;

#[test]
fn an_own_offer_lives_by_credit(rt: HostRuntime) -> Result<(), Fail> {
    let rows = "
        write hello    | ok               | Waiting 0 5 0 |
        content a      | NotAccepted      | Waiting 0 5 0 |
        completed      | NotAccepted      | Waiting 0 5 0 |
        processed 1    | OverAcknowledged | Waiting 0 5 0 |
        accepted 4     | ok               | Live 0 1 4    | Content(4) | hell
        accepted 4     | AlreadyAccepted  | Live 0 1 4    |
        complete       | ok               | Live 0 1 4    |
        write x        | WritingDone      | Live 0 1 4    |
        complete       | WritingDone      | Live 0 1 4    |
        processed 5    | OverAcknowledged | Live 0 1 4    |
        processed 3    | ok               | Live 0 0 5    | Content(1) Completed | o
        content abc    | ok               | Live 3 0 5    |
        content defghi | WindowExceeded   | Live 3 0 5    |
        content defgh  | ok               | Live 8 0 5    |
        read 2         | 2                | Live 6 0 5    |
        completed      | ok               | Closing 6 0 5 | Terminated
        content z      | ok               | Closing 6 0 5 |
        terminated     | ok               | Closed 6 0 5  |
        read 9         | 6                | Closed 0 0 5  |";
    an_own_offer(&rt, rt.alloc(), Version::Two, rows)?;
    an_own_offer(&rt, rt.alloc(), Version::Three, rows)
}

#[test]
fn a_peers_offer_waits_for_acceptance(rt: HostRuntime) -> Result<(), Fail> {
    let rows = "
        write a                  | NotAccepted            | Heard 0 0 0   |
        read 1                   | NotAccepted            | Heard 0 0 0   |
        complete                 | NotAccepted            | Heard 0 0 0   |
        content a                | NotAccepted            | Heard 0 0 0   |
        completed                | NotAccepted            | Heard 0 0 0   |
        accepted 4               | WrongSide              | Heard 0 0 0   |
        accept 2                 | ok                     | Live 0 0 0    |
        accept 2                 | AlreadyAccepted        | Live 0 0 0    |
        write hello              | ok                     | Live 0 1 4    | Content(4) | hell
        content abc              | WindowExceeded         | Live 0 1 4    |
        completed                | ok                     | Live 0 1 4    |
        completed                | ContentAfterCompletion | Live 0 1 4    |
        content                  | ContentAfterCompletion | Live 0 1 4    |
        content above the window | ContentAfterCompletion | Live 0 1 4    |
        complete                 | ok                     | Live 0 1 4    |
        processed 1              | ok                     | Closing 0 0 5 | Content(1) Completed Terminated | o";
    a_peers_offer(&rt, rt.alloc(), Version::Three, rows)
}

#[test]
fn version_1_has_no_windows(rt: HostRuntime) -> Result<(), Fail> {
    let accepted = "
        content before           | ok          | Heard 6 0 0   |
        read 1                   | NotAccepted | Heard 6 0 0   |
        completed                | ok          | Heard 6 0 0   |
        accept 1                 | ok          | Live 6 0 0    |
        write hello              | ok          | Live 6 0 5    | Content(5) | hello
        read 9                   | 6           | Live 0 0 5    |
        complete                 | ok          | Closing 0 0 5 | Completed Terminated";
    a_peers_offer(&rt, rt.alloc(), Version::One, accepted)?;
    let unaccepted = "
        content before           | ok          | Heard 6 0 0   |
        terminated               | ok          | Closed 0 0 0  | Terminated";
    a_peers_offer(&rt, rt.alloc(), Version::One, unaccepted)?;
    let own = "
        content a                | NotAccepted | Waiting 0 0 0 |
        accepted 1               | ok          | Live 0 0 0    |
        content above the window | ok          | Live 16 0 0   |";
    an_own_offer(&rt, rt.alloc(), Version::One, own)
}

#[test]
fn either_side_terminates(rt: HostRuntime) -> Result<(), Fail> {
    let here = "
        accepted 2  | ok      | Live 0 0 0    |
        write abc   | ok      | Live 0 1 2    | Content(2) | ab
        content xyz | ok      | Live 3 1 2    |
        terminate   | ok      | Closing 0 0 2 |
        write d     | NotOpen | Closing 0 0 2 |
        complete    | NotOpen | Closing 0 0 2 |
        terminate   | NotOpen | Closing 0 0 2 |
        processed 9 | ok      | Closing 0 0 2 |
        terminated  | ok      | Closed 0 0 2  |";
    an_own_offer(&rt, rt.alloc(), Version::Three, here)?;
    let peer = "
        accepted 2  | ok      | Live 0 0 0    |
        write abc   | ok      | Live 0 1 2    | Content(2) | ab
        content xyz | ok      | Live 3 1 2    |
        terminated  | ok      | Closed 3 0 2  | Terminated
        terminate   | NotOpen | Closed 3 0 2  |
        read 2      | 2       | Closed 1 0 2  |
        read 2      | 1       | Closed 0 0 2  |";
    an_own_offer(&rt, rt.alloc(), Version::Three, peer)
}

#[test]
fn an_offer_is_terminated(rt: HostRuntime) -> Result<(), Fail> {
    let by_peer = "
        write abc  | ok          | Waiting 0 3 0 |
        terminated | ok          | Closed 0 0 0  | Terminated
        accepted 2 | ok          | Closed 0 0 0  |";
    an_own_offer(&rt, rt.alloc(), Version::Three, by_peer)?;
    let here = "
        terminate  | ok          | Closing 0 0 0 |
        accept 2   | NotOpen     | Closing 0 0 0 |
        write a    | NotOpen     | Closing 0 0 0 |
        complete   | NotOpen     | Closing 0 0 0 |
        read 1     | NotAccepted | Closing 0 0 0 |";
    a_peers_offer(&rt, rt.alloc(), Version::Three, here)?;
    let accepted = "
        accept 2   | ok          | Live 0 0 0    |
        terminate  | ok          | Closing 0 0 0 |
        accept 2   | NotOpen     | Closing 0 0 0 |
        read 1     | 0           | Closing 0 0 0 |";
    a_peers_offer(&rt, rt.alloc(), Version::Three, accepted)
}

#[test]
fn the_end_drops_what_is_pending(rt: HostRuntime) -> Result<(), Fail> {
    let rows = "
        accepted 2  | ok | Live 0 0 0 |
        write abc   | ok | Live 0 1 2 | Content(2) | ab
        content xyz | ok | Live 3 1 2 |
        end         | ok | Live 3 0 2 |
        read 9      | 3  | Live 0 0 2 |";
    an_own_offer(&rt, rt.alloc(), Version::Two, rows)
}

#[test]
fn content_goes_in_pieces(rt: HostRuntime) -> Result<(), Fail> {
    let rows = "
        accept 1      | ok | Live 0 0 0     |
        write a*50000 | ok | Live 0 0 50000 | Content(20480) Content(20480) Content(9040) | a*50000";
    a_peers_offer(&rt, rt.alloc(), Version::One, rows)
}

/// A window is at most 16,777,216 bytes, and all windows together are at most 268,435,456.
#[test]
fn windows_are_bounded(rt: HostRuntime) -> Result<(), Fail> {
    let peers = "
        accepting 0 0                | BadWindow    | Heard 0 0 0 |
        accepting 0 1                | none         | Heard 0 0 0 |
        accepting 0 16777216         | none         | Heard 0 0 0 |
        accepting 0 16777217         | BadWindow    | Heard 0 0 0 |
        accepting 268435448 8        | none         | Heard 0 0 0 |
        accepting 268435448 9        | WindowsSpent | Heard 0 0 0 |
        accepting 268435456 16777217 | BadWindow    | Heard 0 0 0 |";
    a_peers_offer(&rt, rt.alloc(), Version::Two, peers)?;
    let own = "
        accepting 0 0                | WrongSide    | Waiting 0 0 0 |";
    an_own_offer(&rt, rt.alloc(), Version::Two, own)
}
