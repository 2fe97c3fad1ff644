//! Ends with as many channels as they may have.

use crate::rows::{a_life, a_life_of};
use std::test::Fail;
use wire_base::Version;

#[test]
fn an_offer_past_the_most_channels_is_rejected(rt: HostRuntime) -> Result<(), Fail> {
    let rows = "
        all-are-offered 1 1024         | ok                |
        comes 9400cd040101c40492a16108 | rejected peer1025 | 9304cd0401ff
        offer 8                        | TooManyChannels   |
        accept peer1025 4              | NoChannel         |
        terminate peer1025             | NoChannel         |
        view peer1025                  | none              |
        tally peer1025                 | none              |
        known 1023                     | peer1024          |
        known 1024                     | none              |
        comes 9402cd040101c40178       | ignored peer1025  |
        comes 9303cd040101             | ignored peer1025  |
        comes 9304cd040101             | ignored peer1025  |
        comes offerer-terminates       | closed peer1      | acceptor-terminates
        offer 8                        | own1              | offer
        comes 9400cd040201c40492a16108 | rejected peer1026 | 9304cd0402ff
        known 0                        | own1              |
        known 1                        | peer1             |
        known 1024                     | peer1024          |
        known 1025                     | none              |
        tally peer1                    | Closed 0 0 0 0    |
        comes 9400cd040101c40492a16108 | Ended(Refused(Place(12337), IdInUse)) |";
    a_life(&rt, rt.alloc(), &[rows])
}

/// 1,024 windows of 262,144 bytes are the most that may be given.
#[test]
fn closed_channels_make_room(rt: HostRuntime) -> Result<(), Fail> {
    let rows = "
        all-draw 1 1024 262144    | ok              |
        offer 0                   | BadWindow       |
        offer 1                   | TooManyChannels |
        comes offer               | rejected peer1  | acceptor-terminates
        terminate own1            | ok              | offerer-terminates
        offer 1                   | TooManyChannels |
        comes acceptor-terminates | closed own1     |
        offer 262145              | WindowsSpent    |
        all-are-closed 2 1024     | ok              |
        all-draw 1025 2048 262144 | ok              |
        offer 1                   | TooManyChannels |
        tally own1                | Closed 0 0 0 0  |
        tally own2048             | Waiting 0 0 0 0 |
        known 0                   | own1            |
        known 2047                | own2048         |
        known 2048                | none            |";
    a_life(&rt, rt.alloc(), &[rows])
}

#[test]
fn channels_are_known_in_order(rt: HostRuntime) -> Result<(), Fail> {
    let rows = "
        state                     | Running         | greater-hello
        comes lesser-hello        | ready           |
        comes 930006c40492a16108  | offered peer6   |
        offer 8                   | own1            | 930001c40492a16108
        comes 930002c40492a16108  | offered peer2   |
        offer 8                   | own3            | 930003c40492a16108
        comes 930004c40492a16108  | offered peer4   |
        comes 930103c4029102      | accepted own3   |
        write own3 616263         | ok              | 930203c4026162
        accept peer2 4            | ok              | 930102c4029104
        comes 930202c4026869      | content peer2 2 |
        read peer2 1              | bytes 68        | 930502c4029101
        terminate peer4           | ok              | 920404
        comes 920401              | closed own1     | 920401
        known 0                   | own1            |
        known 1                   | own3            |
        known 2                   | peer2           |
        known 3                   | peer4           |
        known 4                   | peer6           |
        known 5                   | none            |
        tally own1                | Closed 0 0 0 0  |
        tally own3                | Live 3 2 0 0    |
        tally peer2               | Live 0 0 2 1    |
        tally peer4               | Closing 0 0 0 0 |
        tally peer6               | Heard 0 0 0 0   |
        tally own2                | none            |
        tally peer1               | none            |";
    a_life_of(&rt, rt.alloc(), Version::Two, &[1; 16], &[rows])
}
