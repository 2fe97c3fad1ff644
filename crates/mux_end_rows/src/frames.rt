//! Frames that are refused, each at its first byte.

use crate::rows::{a_life, a_life_of};
use row_text::parted;
use std::alloc::Global;
use std::process::Abort;
use std::test::Fail;
use wire_base::Version;

/// After the rows, which take so many bytes of the peer, the frame is refused for the reason behind the bar.
fn is_refused(
    rt: &impl Abort,
    alloc: Global,
    version: Version,
    (rows, place): (&str, u64),
    case: &str,
) -> Result<(), Fail> {
    let (frame, reason) = parted(case);
    let row = format!(in alloc; "comes {frame} | Ended(Refused(Place({place}), {reason})) |")?;
    a_life_of(rt, alloc, version, &[0; 16], &[rows, row.as_str()])
}

/// Each frame is, at an end of its own.
fn refuses(
    rt: &impl Abort,
    alloc: Global,
    version: Version,
    (rows, place): (&str, u64),
    cases: &str,
) -> Result<(), Fail> {
    for case in cases.lines() {
        if !case.trim().is_empty() {
            is_refused(rt, alloc, version, (rows, place), case)?;
        }
    }
    Ok(())
}

#[test]
fn frames_on_no_channel_are_refused(rt: HostRuntime) -> Result<(), Fail> {
    let cases = "
        940001ffc40492a16108 | WrongSide
        acceptance           | NoChannel
        94010101c4029104     | NoChannel
        940201ffc40178       | NoChannel
        94020101c40178       | NoChannel
        offerer-completes    | NoChannel
        acceptor-completes   | NoChannel
        offerer-terminates   | NoChannel
        acceptor-terminates  | NoChannel
        940501ffc4029100     | NoChannel";
    refuses(&rt, rt.alloc(), Version::Three, ("", 0), cases)?;
    // A channel of one side is none of the other.
    let offered = "comes offer | offered peer1 |";
    let cases = "
        acceptance           | NoChannel
        acceptor-completes   | NoChannel
        acceptor-terminates  | NoChannel";
    refuses(&rt, rt.alloc(), Version::Three, (offered, 10), cases)
}

#[test]
fn frames_on_an_own_offer_are_refused(rt: HostRuntime) -> Result<(), Fail> {
    let waiting = "offer 8 | own1 | offer";
    let cases = "
        940001ffc40492a16108         | WrongSide
        940201ffc400                 | NotAccepted
        940201ffc409616263646566676869 | NotAccepted
        acceptor-completes           | NotAccepted
        940501ffc4029101             | OverAcknowledged";
    refuses(&rt, rt.alloc(), Version::Three, (waiting, 0), cases)?;
    let live = "
        offer 8                      | own1          | offer
        comes acceptance             | accepted own1 |
        write own1 68656c6c6f        | ok            | 94020101c40468656c6c";
    let cases = "
        940001ffc40492a16108         | WrongSide
        acceptance                   | AlreadyAccepted
        940201ffc409616263646566676869 | WindowExceeded
        940501ffc4029105             | OverAcknowledged";
    refuses(&rt, rt.alloc(), Version::Three, (live, 8), cases)
}

#[test]
fn frames_on_a_peers_offer_are_refused(rt: HostRuntime) -> Result<(), Fail> {
    let heard = "comes offer | offered peer1 |";
    let cases = "
        offer                        | IdInUse
        94010101c4029104             | WrongSide
        94020101c40178               | NotAccepted
        offerer-completes            | NotAccepted
        94050101c4029101             | OverAcknowledged";
    refuses(&rt, rt.alloc(), Version::Three, (heard, 10), cases)?;
    let live = "
        comes offer                  | offered peer1   |
        accept peer1 4               | ok              | acceptance
        comes 94020101c4026869       | content peer1 2 |";
    let cases = "
        offer                        | IdInUse
        94010101c4029104             | WrongSide
        94020101c403616263           | WindowExceeded
        94050101c4029101             | OverAcknowledged";
    refuses(&rt, rt.alloc(), Version::Three, (live, 18), cases)?;
    let completed = "
        comes offer                  | offered peer1   |
        accept peer1 4               | ok              | acceptance
        comes offerer-completes      | completed peer1 |";
    let cases = "
        94020101c400                 | ContentAfterCompletion
        94020101c40568656c6c6f       | ContentAfterCompletion
        offerer-completes            | ContentAfterCompletion";
    refuses(&rt, rt.alloc(), Version::Three, (completed, 14), cases)
}

#[test]
fn an_id_is_offered_once(rt: HostRuntime) -> Result<(), Fail> {
    let closing = "
        comes offer                  | offered peer1 |
        terminate peer1              | ok            | acceptor-terminates
        comes offer                  | Ended(Refused(Place(10), IdInUse)) |";
    a_life(&rt, rt.alloc(), &[closing])?;
    let closed = "
        comes offer                  | offered peer1 |
        comes offerer-terminates     | closed peer1  | acceptor-terminates
        read peer1 1                 | NoChannel     |
        comes offer                  | Ended(Refused(Place(14), IdInUse)) |";
    a_life(&rt, rt.alloc(), &[closed])
}

#[test]
fn frames_of_the_wrong_parity_are_refused(rt: HostRuntime) -> Result<(), Fail> {
    let ready = "
        state                        | Running | lesser-hello
        comes greater-hello          | ready   |
        offer 8                      | own2    | 930002c40492a16108";
    let cases = "
        930002c40492a16108           | WrongSide
        930004c40492a16108           | WrongSide
        930101c4029104               | NoChannel
        930202c40178                 | NotAccepted";
    refuses(&rt, rt.alloc(), Version::Two, (ready, 22), cases)
}

#[test]
fn version_1_keeps_content_before_acceptance(rt: HostRuntime) -> Result<(), Fail> {
    let heard = "
        state                        | Running         | lesser-plain-hello
        comes greater-plain-hello    | ready           |
        comes 0000000001000161       | offered peer1   |
        comes 020000000100026869     | content peer1 2 |
        comes 03000000010000         | completed peer1 |
        read peer1 9                 | NotAccepted     |";
    let cases = "
        0200000001000178             | ContentAfterCompletion
        03000000010000               | ContentAfterCompletion
        01000000010000               | WrongSide
        0000000001000161             | IdInUse";
    refuses(&rt, rt.alloc(), Version::One, (heard, 44), cases)?;
    let accepted = "
        accept peer1 1               | ok              | 01000000010000
        read peer1 9                 | bytes 6869      |";
    a_life_of(&rt, rt.alloc(), Version::One, &[0; 16], &[heard, accepted])
}
