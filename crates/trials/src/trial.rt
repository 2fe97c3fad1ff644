//! Two joined ends that make drawn steps, and what is known of them from outside.

use crate::channels::Channel;
use crate::draws::Draws;
use crate::flight::{Emitted, SeenFrame};
use crate::moves::{ALL, Move, draw_move, step_of};
use crate::sums::{Direction, Seen, direction_of};
use duo_world::{ChannelKey, Duo, DuoAnswer, Reply, Side, Step};
use std::alloc::Global;
use wire_base::{EndState, OutOfMemory, Version};

/// More rounds than rest takes, since each uses what is left of every window.
const MOST_ROUNDS: usize = 2_000;

/// What isn't as it should be.
#[derive(Clone, Copy, Debug)]
pub enum Wrong {
    /// The bytes of an end are no frames.
    Bytes,
    /// An end doesn't run.
    Ended,
    Credit(Direction),
    Content(Direction),
    /// Nothing is in flight or unread, and not all that was written was handed over.
    Rest(Direction),
    /// No rest comes.
    Restless,
}

/// What was met where sums were compared.
#[derive(Clone, Copy, Debug, Default, PartialEq, Eq)]
pub struct Met {
    pub content: bool,
    pub acknowledgements: bool,
    pub unread: bool,
    /// A frame that was delivered in part.
    pub cut: bool,
    pub rest: bool,
}

impl Met {
    fn look(&mut self, found: &[Direction]) {
        for direction in found {
            self.content |= direction.content > 0;
            self.acknowledgements |= direction.acknowledged > 0;
            self.unread |= direction.unread > 0;
        }
    }
}

/// Two ends, the bytes that each emitted, the channels that were offered, and the directions as they were last seen.
#[derive(Drop)]
pub struct Trial {
    alloc: Global,
    duo: Duo,
    from_a: Emitted,
    from_b: Emitted,
    channels: Vec<Channel>,
    found: Vec<Direction>,
    draws: Draws,
    met: Met,
}

/// A drawn side has the greater nonce.
fn drawn_nonces(draws: &mut Draws) -> [[u8; 16]; 2] {
    match draws.below(2) {
        0 => [[1; 16], [2; 16]],
        _ => [[2; 16], [1; 16]],
    }
}

fn world(alloc: Global, version: Version, nonces: [[u8; 16]; 2]) -> Result<Duo, OutOfMemory> {
    Duo::start(alloc, version, nonces)
}

fn make_step(duo: &mut Duo, step: Step) -> DuoAnswer {
    duo.step(step)
}

fn in_flight(duo: &Duo, side: Side) -> &[u8] {
    duo.in_flight(side)
}

fn is_running(duo: &Duo, side: Side) -> bool {
    duo.end(side).state() == EndState::Running
}

/// An end with the frames that the other one doesn't have whole.
fn seen<'a>(duo: &'a Duo, side: Side, ahead: &'a [SeenFrame]) -> Seen<'a> {
    Seen {
        side,
        end: duo.end(side),
        ahead,
    }
}

fn delivered(answer: &DuoAnswer) -> usize {
    match answer {
        DuoAnswer::Delivered(count, _) => usize::try_from(*count).unwrap_or(usize::MAX),
        _ => 0,
    }
}

/// Adds the direction of a channel, if it is live.
fn add_direction(
    found: &mut Vec<Direction>,
    writer: Seen<'_>,
    reader: Seen<'_>,
    channel: &Channel,
) -> Result<(), OutOfMemory> {
    if let Some(direction) = direction_of(writer, reader, channel) {
        found.push(direction)?;
    }
    Ok(())
}

/// Adds both directions of each channel that is live.
fn add_directions(
    found: &mut Vec<Direction>,
    channels: &[Channel],
    a: Seen<'_>,
    b: Seen<'_>,
) -> Result<(), OutOfMemory> {
    for channel in channels {
        add_direction(found, a, b, channel)?;
        add_direction(found, b, a, channel)?;
    }
    Ok(())
}

fn wrong_in(direction: &Direction) -> Option<Wrong> {
    if !direction.keeps_credit() {
        return Some(Wrong::Credit(*direction));
    }
    if !direction.keeps_content() {
        return Some(Wrong::Content(*direction));
    }
    None
}

fn wrong_sum(found: &[Direction]) -> Option<Wrong> {
    for direction in found {
        let wrong = wrong_in(direction);
        if wrong.is_some() {
            return wrong;
        }
    }
    None
}

fn wrong_at_rest(found: &[Direction]) -> Option<Wrong> {
    for direction in found {
        if !direction.is_done() {
            return Some(Wrong::Rest(*direction));
        }
    }
    None
}

fn has_unread(found: &[Direction]) -> bool {
    for direction in found {
        if direction.unread > 0 {
            return true;
        }
    }
    false
}

impl Trial {
    pub fn start(alloc: Global, version: Version, seed: u64) -> Result<Trial, OutOfMemory> {
        let mut draws = Draws::new(seed);
        let nonces = drawn_nonces(&mut draws);
        Ok(Trial {
            alloc,
            duo: world(alloc, version, nonces)?,
            from_a: Emitted::new(alloc, version),
            from_b: Emitted::new(alloc, version),
            channels: Vec::new(alloc),
            found: Vec::new(alloc),
            draws,
            met: Met::default(),
        })
    }

    pub fn met(&self) -> Met {
        self.met
    }

    /// Takes down what is in flight after so many bytes more were delivered to A and to B.
    fn note_bytes(&mut self, to_a: usize, to_b: usize) -> Result<(), OutOfMemory> {
        self.from_a.note(to_b, in_flight(&self.duo, Side::B))?;
        self.from_b.note(to_a, in_flight(&self.duo, Side::A))
    }

    fn note_delivered(&mut self, side: Side, count: usize) -> Result<(), OutOfMemory> {
        match side {
            Side::A => self.note_bytes(count, 0),
            Side::B => self.note_bytes(0, count),
        }
    }

    fn note_offered(&mut self, side: Side, id: u64, window: u32) -> Result<(), OutOfMemory> {
        self.channels.push(Channel {
            offerer: side,
            id,
            offered: window,
            accepted: 0,
        })?;
        Ok(())
    }

    fn note_accepted(&mut self, side: Side, key: ChannelKey, window: u32) {
        for channel in self.channels.iter_mut() {
            if channel.key_at(side) == key {
                channel.accepted = window;
            }
        }
    }

    /// Takes down the windows that were given.
    fn note_windows(&mut self, side: Side, makes: Move, reply: &Reply) -> Result<(), OutOfMemory> {
        match (makes, reply) {
            (Move::Offer(window), Reply::Made(key)) => self.note_offered(side, key.id, window)?,
            (Move::Accept(key, window), Reply::Done) => self.note_accepted(side, key, window),
            _ => {}
        }
        Ok(())
    }

    fn note(&mut self, side: Side, makes: Move, answer: &DuoAnswer) -> Result<(), OutOfMemory> {
        self.note_delivered(side, delivered(answer))?;
        match answer {
            DuoAnswer::Replied(reply, _) => self.note_windows(side, makes, reply),
            DuoAnswer::OutOfMemory => Err(OutOfMemory),
            DuoAnswer::Delivered(_, _) | DuoAnswer::Ended => Ok(()),
        }
    }

    fn make(&mut self, side: Side, makes: Move) -> Result<(), OutOfMemory> {
        let step = step_of(self.alloc, side, makes)?;
        let answer = make_step(&mut self.duo, step);
        self.note(side, makes, &answer)
    }

    fn draw_side(&mut self) -> Side {
        match self.draws.below(2) {
            0 => Side::A,
            _ => Side::B,
        }
    }

    /// Makes a drawn step at a drawn side.
    fn make_drawn(&mut self) -> Result<(), OutOfMemory> {
        let side = self.draw_side();
        let count = in_flight(&self.duo, side).len();
        let makes = draw_move(&mut self.draws, &self.channels, side, count);
        self.make(side, makes)
    }

    /// Reads the frames of both ends, and answers whether their bytes are frames.
    fn read_frames(&mut self) -> Result<bool, OutOfMemory> {
        if !self.from_a.read_frames()? {
            return Ok(false);
        }
        self.from_b.read_frames()
    }

    /// Finds both directions of each live channel.
    fn find(&mut self) -> Result<(), OutOfMemory> {
        let a = seen(&self.duo, Side::A, self.from_a.frames());
        let b = seen(&self.duo, Side::B, self.from_b.frames());
        self.found.clear();
        add_directions(&mut self.found, &self.channels, a, b)
    }

    fn are_running(&self) -> bool {
        is_running(&self.duo, Side::A) && is_running(&self.duo, Side::B)
    }

    /// Whether nothing is in flight, nor unread in the directions that were found.
    fn is_at_rest(&self) -> bool {
        in_flight(&self.duo, Side::A).is_empty()
            && in_flight(&self.duo, Side::B).is_empty()
            && !has_unread(&self.found)
    }

    fn meet(&mut self) {
        self.met.look(&self.found);
        self.met.cut |= self.from_a.is_cut() || self.from_b.is_cut();
        self.met.rest = self.is_at_rest();
    }

    /// The first wrong direction that was found.
    fn wrong_direction(&self) -> Option<Wrong> {
        if self.met.rest
            && let Some(wrong) = wrong_at_rest(&self.found)
        {
            return Some(wrong);
        }
        wrong_sum(&self.found)
    }

    /// The first thing that isn't as it should be.
    fn wrong(&mut self) -> Result<Option<Wrong>, OutOfMemory> {
        if !self.are_running() {
            return Ok(Some(Wrong::Ended));
        }
        if !self.read_frames()? {
            return Ok(Some(Wrong::Bytes));
        }
        self.find()?;
        self.meet();
        Ok(self.wrong_direction())
    }

    fn run_once(&mut self) -> Result<Option<Wrong>, OutOfMemory> {
        self.make_drawn()?;
        self.wrong()
    }

    /// Makes so many drawn steps, until something is wrong.
    fn run(&mut self, steps: usize) -> Result<Option<Wrong>, OutOfMemory> {
        for _ in 0..steps {
            let wrong = self.run_once()?;
            if wrong.is_some() {
                return Ok(wrong);
            }
        }
        Ok(None)
    }

    /// Reads all that is unread on the channel at a place.
    fn read_at(&mut self, side: Side, i: usize) -> Result<(), OutOfMemory> {
        match self.channels.get(i).copied() {
            Some(channel) => self.make(side, Move::Read(channel.key_at(side), u32::MAX)),
            None => Ok(()),
        }
    }

    fn read_all(&mut self, side: Side) -> Result<(), OutOfMemory> {
        for i in 0..self.channels.len() {
            self.read_at(side, i)?;
        }
        Ok(())
    }

    /// Delivers to a side all that is in flight, and reads it.
    fn drain(&mut self, side: Side) -> Result<(), OutOfMemory> {
        self.make(side, Move::Deliver(ALL))?;
        self.read_all(side)
    }

    fn drain_both(&mut self) -> Result<Option<Wrong>, OutOfMemory> {
        self.drain(Side::A)?;
        self.drain(Side::B)?;
        self.wrong()
    }

    /// Delivers and reads until nothing is in flight or unread.
    fn rest(&mut self) -> Result<Option<Wrong>, OutOfMemory> {
        for _ in 0..MOST_ROUNDS {
            let wrong = self.drain_both()?;
            if wrong.is_some() || self.met.rest {
                return Ok(wrong);
            }
        }
        Ok(Some(Wrong::Restless))
    }

    /// What is wrong in so many drawn steps, behind the first bytes of both ends, and on the way to rest.
    pub fn run_to_rest(&mut self, steps: usize) -> Result<Option<Wrong>, OutOfMemory> {
        self.note_bytes(0, 0)?;
        let wrong = self.run(steps)?;
        match wrong {
            Some(_) => Ok(wrong),
            None => self.rest(),
        }
    }
}
