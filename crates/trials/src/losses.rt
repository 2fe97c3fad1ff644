//! An acknowledgement that is lost shows in the sums: two ends that are driven by hand.

use crate::channels::Channel;
use crate::flight::Emitted;
use crate::sums::{Seen, direction_of};
use duo_world::{ChannelKey, Endpoint, Side};
use std::alloc::Global;
use std::process::Abort;
use std::test::Fail;
use wire_base::{Text, Version};

/// The channel that A offers and B accepts.
const CHANNEL: Channel = Channel {
    offerer: Side::A,
    id: 1,
    offered: 8,
    accepted: 4,
};

const AT_A: ChannelKey = ChannelKey { id: 1, own: true };

const AT_B: ChannelKey = ChannelKey { id: 1, own: false };

/// At least as many steps as there are frames in what is fed at once.
const FRAMES: usize = 4;

fn start(alloc: Global) -> Result<Endpoint, Fail> {
    Ok(Endpoint::start(alloc, Version::Three, [0; 16])?)
}

fn offer_as(end: &mut Endpoint, name: &Text) -> Result<(), Fail> {
    let _key = end.offer(name, CHANNEL.offered)?;
    Ok(())
}

fn offer(alloc: Global, end: &mut Endpoint) -> Result<(), Fail> {
    offer_as(end, &Text::from_str(alloc, "trial")?)
}

fn accept(end: &mut Endpoint) -> Result<(), Fail> {
    Ok(end.accept(AT_B, CHANNEL.accepted)?)
}

fn write(end: &mut Endpoint) -> Result<(), Fail> {
    Ok(end.write(AT_A, b"abc")?)
}

fn read_to(end: &mut Endpoint, bytes: &mut Vec<u8>) -> Result<(), Fail> {
    let _count = end.read(AT_B, 2, bytes)?;
    Ok(())
}

fn read(alloc: Global, end: &mut Endpoint) -> Result<(), Fail> {
    let mut bytes = Vec::new(alloc);
    read_to(end, &mut bytes)
}

fn output(end: &Endpoint) -> &[u8] {
    end.pending_output()
}

fn feed(end: &mut Endpoint, bytes: &[u8]) -> Result<(), Fail> {
    let _state = end.feed(bytes)?;
    Ok(())
}

/// Applies all that was fed.
fn apply(end: &mut Endpoint) {
    for _ in 0..FRAMES {
        let _step = end.step();
    }
}

/// Drops what an end has to send.
fn lose(end: &mut Endpoint) {
    let count = end.pending_output().len();
    end.took(count);
}

/// Brings what one end has to send to the other.
fn pass(from: &mut Endpoint, to: &mut Endpoint) -> Result<(), Fail> {
    feed(to, output(from))?;
    lose(from);
    apply(to);
    Ok(())
}

/// A's channel is made live.
fn join(alloc: Global, a: &mut Endpoint, b: &mut Endpoint) -> Result<(), Fail> {
    offer(alloc, a)?;
    pass(a, b)?;
    accept(b)?;
    pass(b, a)
}

/// B acknowledges a part of what A wrote.
fn acknowledge(alloc: Global, a: &mut Endpoint, b: &mut Endpoint) -> Result<(), Fail> {
    write(a)?;
    pass(a, b)?;
    read(alloc, b)
}

/// Reads the frames that an end has to send.
fn read_frames(emitted: &mut Emitted, end: &Endpoint) -> Result<bool, Fail> {
    emitted.note(0, output(end))?;
    Ok(emitted.read_frames()?)
}

fn seen<'a>(side: Side, end: &'a Endpoint, emitted: &'a Emitted) -> Seen<'a> {
    Seen {
        side,
        end,
        ahead: emitted.frames(),
    }
}

/// Whether what A writes and B reads keeps its credit.
fn adds_up(writer: Seen<'_>, reader: Seen<'_>) -> bool {
    match direction_of(writer, reader, &CHANNEL) {
        Some(direction) => direction.keeps_credit(),
        None => false,
    }
}

/// Asserts whether the sums of both ends, whose frames are read here, add up.
fn is_seen(
    rt: &impl Abort,
    (a, from_a): (&Endpoint, &mut Emitted),
    (b, from_b): (&Endpoint, &mut Emitted),
    wanted: bool,
) -> Result<(), Fail> {
    shows(rt, read_frames(from_a, a)?, true);
    shows(rt, read_frames(from_b, b)?, true);
    let adds_up = adds_up(seen(Side::A, a, from_a), seen(Side::B, b, from_b));
    shows(rt, adds_up, wanted);
    Ok(())
}

fn shows(rt: &impl Abort, got: bool, wanted: bool) {
    assert_eq!(rt; got, wanted);
}

/// Whether credit adds up between the two ends must be as wanted.
fn keeps_credit(
    rt: &impl Abort,
    alloc: Global,
    a: &Endpoint,
    b: &Endpoint,
    wanted: bool,
) -> Result<(), Fail> {
    let mut from_a = Emitted::new(alloc, Version::Three);
    let mut from_b = Emitted::new(alloc, Version::Three);
    is_seen(rt, (a, &mut from_a), (b, &mut from_b), wanted)
}

/// Credit adds up while an acknowledgement is in flight, and not after it is lost.
fn loses(rt: &impl Abort, alloc: Global, a: &mut Endpoint, b: &mut Endpoint) -> Result<(), Fail> {
    join(alloc, a, b)?;
    acknowledge(alloc, a, b)?;
    keeps_credit(rt, alloc, a, b, true)?;
    lose(b);
    keeps_credit(rt, alloc, a, b, false)
}

fn loses_to(rt: &impl Abort, alloc: Global, a: &mut Endpoint) -> Result<(), Fail> {
    let mut b = start(alloc)?;
    loses(rt, alloc, a, &mut b)
}

#[test]
fn a_lost_acknowledgement_shows(rt: HostRuntime) -> Result<(), Fail> {
    let mut a = start(rt.alloc())?;
    loses_to(&rt, rt.alloc(), &mut a)
}
