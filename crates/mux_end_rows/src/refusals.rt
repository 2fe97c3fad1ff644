//! Refused calls, each call's refusals in their order.

use crate::rows::{a_life, is_told, offers, start};
use mux_end::MuxEnd;
use row_text::{first, parted, size};
use std::alloc::Global;
use std::process::Abort;
use std::test::Fail;
use wire_base::Version;

/// What is answered to an offer with a name of so many bytes, and a window.
fn offers_long(alloc: Global, end: &mut MuxEnd, words: &str) -> Result<String, Fail> {
    let (length, window) = first(words);
    let name = "a".repeat(alloc, size(length) as usize)?;
    offers(alloc, end, name.as_str(), size(window))
}

/// What it is answered at an end that has no channels.
fn offered(alloc: Global, version: Version, words: &str) -> Result<String, Fail> {
    let mut end = start(alloc, version, &[0; 16])?;
    offers_long(alloc, &mut end, words)
}

fn is_offered(rt: &impl Abort, alloc: Global, version: Version, row: &str) -> Result<(), Fail> {
    let (words, wanted) = parted(row);
    let told = offered(alloc, version, words)?;
    is_told(rt, told.as_str(), wanted, row);
    Ok(())
}

fn are_offered(rt: &impl Abort, alloc: Global, version: Version, rows: &str) -> Result<(), Fail> {
    for row in rows.lines() {
        if !row.trim().is_empty() {
            is_offered(rt, alloc, version, row)?;
        }
    }
    Ok(())
}

#[test]
fn offers_are_refused(rt: HostRuntime) -> Result<(), Fail> {
    are_offered(&rt, rt.alloc(), Version::Two, "1025 0 | NotReady")?;
    let rows = "
        1025 0        | NameTooLong
        1025 8        | NameTooLong
        1024 0        | BadWindow
        0 16777217    | BadWindow
        1024 16777216 | own1
        0 1           | own1";
    are_offered(&rt, rt.alloc(), Version::Three, rows)
}

#[test]
fn calls_on_no_channel_are_refused(rt: HostRuntime) -> Result<(), Fail> {
    let own = "
        comes offer      | offered peer1 |
        accept own1 0    | NoChannel     |
        write own1 61    | NoChannel     |
        read own1 1      | NoChannel     |
        complete own1    | NoChannel     |
        terminate own1   | NoChannel     |
        view own1        | none          |
        tally own1       | none          |";
    a_life(&rt, rt.alloc(), &[own])?;
    let peers = "
        offer 8          | own1          | offer
        accept peer1 0   | NoChannel     |
        write peer1 61   | NoChannel     |
        read peer1 1     | NoChannel     |
        complete peer1   | NoChannel     |
        terminate peer1  | NoChannel     |
        view peer1       | none          |
        tally peer1      | none          |";
    a_life(&rt, rt.alloc(), &[peers])
}

#[test]
fn calls_on_an_own_offer_are_refused(rt: HostRuntime) -> Result<(), Fail> {
    let rows = "
        offer 8          | own1          | offer
        accept own1 0    | WrongSide     |
        write own1 6162  | ok            |
        complete own1    | ok            |
        write own1       | WritingDone   |
        complete own1    | WritingDone   |
        read own1 1      | bytes         |
        terminate own1   | ok            | offerer-terminates
        accept own1 0    | WrongSide     |
        write own1 61    | NotOpen       |
        complete own1    | NotOpen       |
        terminate own1   | NotOpen       |
        read own1 1      | bytes         |";
    a_life(&rt, rt.alloc(), &[rows])
}

#[test]
fn calls_on_a_peers_offer_are_refused(rt: HostRuntime) -> Result<(), Fail> {
    let unaccepted = "
        comes offer            | offered peer1 |
        accept peer1 0         | BadWindow     |
        accept peer1 16777217  | BadWindow     |
        write peer1 61         | NotAccepted   |
        read peer1 1           | NotAccepted   |
        complete peer1         | NotAccepted   |
        terminate peer1        | ok            | acceptor-terminates
        accept peer1 0         | NotOpen       |
        write peer1 61         | NotOpen       |
        read peer1 1           | NotAccepted   |
        complete peer1         | NotOpen       |
        terminate peer1        | NotOpen       |";
    a_life(&rt, rt.alloc(), &[unaccepted])?;
    let accepted = "
        comes offer              | offered peer1   |
        accept peer1 4           | ok              | acceptance
        accept peer1 0           | AlreadyAccepted |
        complete peer1           | ok              | acceptor-completes
        write peer1 61           | WritingDone     |
        complete peer1           | WritingDone     |
        comes 94020101c4026869   | content peer1 2 |
        comes offerer-terminates | closed peer1    | acceptor-terminates
        accept peer1 0           | NotOpen         |
        write peer1 61           | NotOpen         |
        complete peer1           | NotOpen         |
        terminate peer1          | NotOpen         |
        read peer1 9             | bytes 6869      |
        accept peer1 0           | NoChannel       |
        write peer1 61           | NoChannel       |
        read peer1 1             | NoChannel       |
        complete peer1           | NoChannel       |
        terminate peer1          | NoChannel       |";
    a_life(&rt, rt.alloc(), &[accepted])
}

#[test]
fn calls_of_an_ended_end_are_refused(rt: HostRuntime) -> Result<(), Fail> {
    let rows = "
        comes offer                | offered peer1   |
        accept peer1 4             | ok              | acceptance
        comes 94020101c4026869     | content peer1 2 |
        comes 94000201c40492a16108 | offered peer2   |
        comes 94060101     | Ended(Refused(Place(29), BadCode)) |
        state              | Ended(Refused(Place(29), BadCode)) |
        offer 0            | Ended(Refused(Place(29), BadCode)) |
        accept peer9 0     | Ended(Refused(Place(29), BadCode)) |
        accept peer2 4     | Ended(Refused(Place(29), BadCode)) |
        write peer9 61     | Ended(Refused(Place(29), BadCode)) |
        write peer1 61     | Ended(Refused(Place(29), BadCode)) |
        complete peer9     | Ended(Refused(Place(29), BadCode)) |
        complete peer1     | Ended(Refused(Place(29), BadCode)) |
        terminate peer9    | Ended(Refused(Place(29), BadCode)) |
        terminate peer1    | Ended(Refused(Place(29), BadCode)) |
        feed offer         | Ended(Refused(Place(29), BadCode)) |
        comes offer        | Ended(Refused(Place(29), BadCode)) |
        read peer9 1       | NoChannel   |
        read peer2 1       | NotAccepted |
        read peer1 1       | bytes 68    |
        read peer1 9       | bytes 69    |";
    a_life(&rt, rt.alloc(), &[rows])
}

#[test]
fn own_windows_are_bounded_together(rt: HostRuntime) -> Result<(), Fail> {
    let rows = "
        all-draw 1 15 16777216    | ok              |
        offer 16777215            | own16           | 94001001c40892a161ce00ffffff
        comes offer               | offered peer1   |
        accept peer1 0            | BadWindow       |
        accept peer1 2            | WindowsSpent    |
        offer 0                   | BadWindow       |
        offer 2                   | WindowsSpent    |
        accept peer1 1            | ok              | 940101ffc4029101
        accept peer1 1            | AlreadyAccepted |
        offer 1                   | WindowsSpent    |
        terminate own1            | ok              | offerer-terminates
        offer 1                   | WindowsSpent    |
        comes acceptor-terminates | closed own1     |
        offer 16777216            | own17           | 94001101c40892a161ce01000000";
    a_life(&rt, rt.alloc(), &[rows])
}
