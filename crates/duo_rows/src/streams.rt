//! The bytes of the two streams: in which frames they go, in which pieces they come, and what stored steps leave in flight.

use crate::channels::CREDIT;
use crate::rows::{LIVE, behind, emits, flight, happens, lives, make, world};
use crate::steps::{ALL, fill, side_of, step_of};
use duo_world::{Duo, Side, Step, StepList};
use row_text::{first, parted};
use std::alloc::Global;
use std::process::Abort;
use std::test::Fail;
use wire_base::Version;

/// Two live channels, of which B gave the first the window 1.
const TWO: &str = r"
    A offers a 8
        | Made(ChannelKey { id: 1, own: true }) []
        | \x94\x00\x01\x01\xc4\x04\x92\xa1a\x08;
    A offers a 8
        | Made(ChannelKey { id: 2, own: true }) []
        | \x94\x00\x02\x01\xc4\x04\x92\xa1a\x08;
    B delivers
        | 20 [Happened(Mux(Offered(ChannelKey { id: 1, own: false }))), Happened(Mux(Offered(ChannelKey { id: 2, own: false })))]
        |;
    B accepts A1 1
        | Done []
        | \x94\x01\x01\xff\xc4\x02\x91\x01;
    B accepts A2 102400
        | Done []
        | \x94\x01\x02\xff\xc4\x06\x91\xce\x00\x01\x90\x00;
    A delivers
        | 20 [Happened(Mux(Accepted(ChannelKey { id: 1, own: true }))), Happened(Mux(Accepted(ChannelKey { id: 2, own: true })))]
        |;
    A writes A1 ab
        | Done []
        | \x94\x02\x01\x01\xc4\x01a;";

/// Adds a frame of content on the second channel, of as many bytes as its head says.
fn add_frame(bytes: &mut Vec<u8>, head: &[u8], count: usize) -> Result<(), Fail> {
    bytes.extend_from_slice(head)?;
    fill(bytes, count)
}

fn two_frames(alloc: Global) -> Result<Vec<u8>, Fail> {
    let mut bytes = Vec::new(alloc);
    add_frame(&mut bytes, b"\x94\x02\x02\x01\xc5\x50\x00", 20_480)?;
    add_frame(&mut bytes, b"\x94\x02\x02\x01\xc5\x25\x30", 9_520)?;
    Ok(bytes)
}

fn are_same(rt: &impl Abort, got: Option<&[u8]>, wanted: &[u8]) {
    assert_eq!(rt; got, Some(wanted));
}

fn emits_two_frames(rt: &impl Abort, alloc: Global, duo: &Duo, before: usize) -> Result<(), Fail> {
    let frames = two_frames(alloc)?;
    are_same(rt, behind(duo, Side::B, before), &frames);
    Ok(())
}

fn splits(rt: &impl Abort, alloc: Global, duo: &mut Duo) -> Result<(), Fail> {
    lives(rt, alloc, duo, TWO)?;
    let before = flight(duo, Side::B);
    happens(alloc, duo, Side::A, "fills A2 30000")?;
    emits_two_frames(rt, alloc, duo, before)
}

/// A channel that lacks credit holds up no other, on which 30,000 bytes go in two frames.
#[test]
fn channels_are_apart(rt: HostRuntime) -> Result<(), Fail> {
    let mut duo = world(rt.alloc(), Version::Three, [[0; 16]; 2])?;
    splits(&rt, rt.alloc(), &mut duo)
}

/// Delivers all bytes in flight to a side, so many at once.
fn deliver_all(duo: &mut Duo, side: Side, count: u64) {
    for _ in 0..flight(duo, side) {
        make(duo, Step::Deliver(side, count));
    }
}

/// Makes the step of a row, and delivers so many bytes at once where that delivers.
fn make_in_parts(alloc: Global, duo: &mut Duo, row: &str, count: u64) -> Result<(), Fail> {
    let (side, words) = first(parted(row).0);
    match words {
        "delivers" => deliver_all(duo, side_of(side), count),
        words => {
            happens(alloc, duo, side_of(side), words)?;
        }
    }
    Ok(())
}

fn make_all_in_parts(alloc: Global, duo: &mut Duo, rows: &str, count: u64) -> Result<(), Fail> {
    for row in rows.split(';') {
        if !row.trim().is_empty() {
            make_in_parts(alloc, duo, row, count)?;
        }
    }
    Ok(())
}

/// What both sides counted, after the content of A went to B.
const TALLIES: &str = "
    A tally A1 | Some(Tally { phase: Live, written: 5, emitted: 5, taken: 0, handed: 0 }) |;
    B tally A1 | Some(Tally { phase: Live, written: 0, emitted: 0, taken: 5, handed: 5 }) |;";

fn lives_in_parts(rt: &impl Abort, alloc: Global, duo: &mut Duo, count: u64) -> Result<(), Fail> {
    make_all_in_parts(alloc, duo, LIVE, count)?;
    make_all_in_parts(alloc, duo, CREDIT, count)?;
    lives(rt, alloc, duo, TALLIES)
}

fn a_life_in_parts(rt: &impl Abort, alloc: Global, count: u64) -> Result<(), Fail> {
    let mut duo = world(alloc, Version::Three, [[0; 16]; 2])?;
    lives_in_parts(rt, alloc, &mut duo, count)
}

#[test]
fn bytes_one_by_one_leave_the_same(rt: HostRuntime) -> Result<(), Fail> {
    a_life_in_parts(&rt, rt.alloc(), ALL)?;
    a_life_in_parts(&rt, rt.alloc(), 1)
}

fn one_step(alloc: Global) -> Result<StepList, Fail> {
    let mut steps = StepList::new(alloc);
    steps.push(step_of(alloc, Side::A, "offers a 8")?)?;
    Ok(steps)
}

fn run(alloc: Global, steps: StepList) -> Result<Duo, Fail> {
    Ok(Duo::run(alloc, Version::Three, [[0; 16]; 2], steps)?)
}

/// An offer of A is in flight, and to its side nothing.
fn is_offering(rt: &impl Abort, alloc: Global, duo: &Duo) -> Result<(), Fail> {
    let offer = r"\x94\x00\x01\x01\xc4\x04\x92\xa1a\x08";
    emits(rt, alloc, duo, (Side::A, 0), ("", "to A"))?;
    emits(rt, alloc, duo, (Side::B, 0), (offer, "to B"))
}

#[test]
fn stored_steps_run(rt: HostRuntime) -> Result<(), Fail> {
    let duo = run(rt.alloc(), one_step(rt.alloc())?)?;
    is_offering(&rt, rt.alloc(), &duo)
}
