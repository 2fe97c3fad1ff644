//! Worked streams, from each side's view.

use crate::rows::{a_life, a_life_of};
use std::test::Fail;
use wire_base::Version;

#[test]
fn bytes_go_by_credit(rt: HostRuntime) -> Result<(), Fail> {
    let offerer = "
        offer 8                      | own1          | offer
        comes acceptance             | accepted own1 |
        write own1 68656c6c6f        | ok            | 94020101c40468656c6c
        write own1                   | ok            |
        comes 940501ffc4029102       | credit own1 2 | 94020101c4016f
        comes 940501ffc4029103       | credit own1 3 |
        tally own1                   | Live 5 5 0 0  |
        state                        | Running       |";
    a_life(&rt, rt.alloc(), &[offerer])?;
    let acceptor = "
        comes offer                  | offered peer1   |
        accept peer1 4               | ok              | acceptance
        comes 94020101c40468656c6c   | content peer1 4 |
        read peer1 0                 | bytes           |
        read peer1 2                 | bytes 6865      | 940501ffc4029102
        comes 94020101c4016f         | content peer1 1 |
        read peer1 10                | bytes 6c6c6f    | 940501ffc4029103
        read peer1 10                | bytes           |
        tally peer1                  | Live 0 0 5 5    |
        state                        | Running         |";
    a_life(&rt, rt.alloc(), &[acceptor])
}

#[test]
fn the_source_is_turned_round(rt: HostRuntime) -> Result<(), Fail> {
    let acknowledged = "
        offer 8                      | own1                               | offer
        comes 940101ffc4029102       | accepted own1                      |
        write own1 616263            | ok                                 | 94020101c4026162
        view own1                    | Live 0 1 2 Some(2) false           |
        comes 940501ffc4029103       | Ended(Refused(Place(8), OverAcknowledged)) |";
    a_life(&rt, rt.alloc(), &[acknowledged])?;
    let of_the_peer = "
        offer 8                      | own1                               | offer
        comes 94010101c4029102       | Ended(Refused(Place(0), NoChannel)) |";
    a_life(&rt, rt.alloc(), &[of_the_peer])
}

#[test]
fn version_1_greets_and_draws_by_parity(rt: HostRuntime) -> Result<(), Fail> {
    let odd = "
        state                        | Running  | greater-plain-hello
        ready                        | false    |
        offer 8                      | NotReady |
        comes lesser-plain-hello     | ready    |
        ready                        | true     |
        offer 8                      | own1     | 0000000001000161";
    a_life_of(&rt, rt.alloc(), Version::One, &[1; 16], &[odd])?;
    let even = "
        state                        | Running  | lesser-plain-hello
        comes greater-plain-hello    | ready    |
        offer 8                      | own2     | 0000000002000161";
    a_life_of(&rt, rt.alloc(), Version::One, &[0; 16], &[even])
}

#[test]
fn version_2_greets_and_draws_by_parity(rt: HostRuntime) -> Result<(), Fail> {
    let odd = "
        state                        | Running       | greater-hello
        comes lesser-hello           | ready         |
        offer 8                      | own1          | 930001c40492a16108
        comes 930101c4029104         | accepted own1 |
        comes 930002c40492a16108     | offered peer2 |
        comes 930003c40492a16108     | Ended(Refused(Place(38), WrongSide)) |";
    a_life_of(&rt, rt.alloc(), Version::Two, &[1; 16], &[odd])?;
    let even = "
        state                        | Running       | lesser-hello
        comes greater-hello          | ready         |
        offer 8                      | own2          | 930002c40492a16108
        comes 930102c4029104         | accepted own2 |
        comes 930001c40492a16108     | offered peer1 |
        comes 930004c40492a16108     | Ended(Refused(Place(38), WrongSide)) |";
    a_life_of(&rt, rt.alloc(), Version::Two, &[0; 16], &[even])
}

#[test]
fn equal_nonces_end_the_end(rt: HostRuntime) -> Result<(), Fail> {
    let rows = "
        feed 92920200c410000102      | Running | 92920200c410000102030405060708090a0b0c0d0e0f
        comes 030405060708090a0b0c0d0e | Short |
        comes 0f                     | Ended(Refused(Place(6), SameNonce)) |
        state                        | Ended(Refused(Place(6), SameNonce)) |
        ready                        | false   |
        offer 8                      | Ended(Refused(Place(6), SameNonce)) |";
    let nonce = b"\0\x01\x02\x03\x04\x05\x06\x07\x08\x09\x0a\x0b\x0c\x0d\x0e\x0f";
    a_life_of(&rt, rt.alloc(), Version::Two, nonce, &[rows])
}

#[test]
fn a_channel_without_credit_holds_no_other(rt: HostRuntime) -> Result<(), Fail> {
    let rows = "
        offer 8                      | own1          | offer
        offer 8                      | own2          | 94000201c40492a16108
        comes 940101ffc4029101       | accepted own1 |
        comes 940102ffc40691ce00019000 | accepted own2 |
        write own1 6162              | ok            | 94020101c40161
        write own2 7a*30000          | ok            | 94020201c55000 7a*20480 94020201c52530 7a*9520
        comes 940501ffc4029101       | credit own1 1 | 94020101c40162
        tally own1                   | Live 2 2 0 0  |
        tally own2                   | Live 30000 30000 0 0 |";
    a_life(&rt, rt.alloc(), &[rows])
}

#[test]
fn content_above_the_window_ends_the_end(rt: HostRuntime) -> Result<(), Fail> {
    let rows = "
        comes 940001                 | Short         |
        comes 01c40492a16108         | offered peer1 |
        accept peer1 4               | ok            | acceptance
        comes 94020101c40568656c6c6f | Ended(Refused(Place(10), WindowExceeded)) |";
    a_life(&rt, rt.alloc(), &[rows])
}

#[test]
fn a_termination_crosses_content(rt: HostRuntime) -> Result<(), Fail> {
    let offerer = "
        offer 8                      | own1          | offer
        comes acceptance             | accepted own1 |
        terminate own1               | ok            | offerer-terminates
        comes 940201ffc40178         | ignored own1  |
        comes acceptor-terminates    | closed own1   |
        write own1 00                | NoChannel     |";
    a_life(&rt, rt.alloc(), &[offerer])?;
    let acceptor = "
        comes offer                  | offered peer1 |
        accept peer1 4               | ok            | acceptance
        write peer1 78               | ok            | 940201ffc40178
        comes offerer-terminates     | closed peer1  | acceptor-terminates";
    a_life(&rt, rt.alloc(), &[acceptor])
}

#[test]
fn both_sides_complete(rt: HostRuntime) -> Result<(), Fail> {
    let offerer = "
        offer 8                      | own1            | offer
        comes acceptance             | accepted own1   |
        complete own1                | ok              | offerer-completes
        comes acceptor-completes     | completed own1  | offerer-terminates
        comes acceptor-terminates    | closed own1     |";
    a_life(&rt, rt.alloc(), &[offerer])?;
    let acceptor = "
        comes offer                  | offered peer1   |
        accept peer1 4               | ok              | acceptance
        complete peer1               | ok              | acceptor-completes
        comes offerer-completes      | completed peer1 | acceptor-terminates
        comes offerer-terminates     | closed peer1    |";
    a_life(&rt, rt.alloc(), &[acceptor])
}
