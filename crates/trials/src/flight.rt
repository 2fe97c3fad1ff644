//! Frames in flight, read from their bytes by the layouts of the three versions.

use crate::channels::Channel;
use duo_world::Side;
use std::alloc::Global;
use wire_base::{OutOfMemory, Version};

/// What a frame brings to its channel, in bytes.
#[derive(Clone, Copy)]
pub enum Brings {
    Content(u64),
    Acknowledgement(u64),
    Nothing,
}

/// A frame as its bytes show it, and the place behind it. Only in version 3 they show whether its sender offered the
/// channel; in the others an id is that of one channel alone.
#[derive(Clone, Copy)]
pub struct SeenFrame {
    pub id: u64,
    pub by_offerer: Option<bool>,
    pub brings: Brings,
    pub end: usize,
}

impl SeenFrame {
    /// Whether this frame of a side is on that channel.
    pub fn is_on(&self, channel: &Channel, sender: Side) -> bool {
        let fits = match self.by_offerer {
            Some(by_offerer) => by_offerer == (sender == channel.offerer),
            None => true,
        };
        fits && self.id == channel.id
    }
}

/// What stands before a payload, and the place of that.
#[derive(Clone, Copy)]
struct Head {
    code: u64,
    id: u64,
    by_offerer: Option<bool>,
    size: u64,
    at: usize,
}

/// A number of so many bytes, the most significant first, and the place behind it.
fn fixed(bytes: &[u8], at: usize, width: usize) -> Option<(u64, usize)> {
    let end = at.checked_add(width)?;
    let mut number = 0;
    for digit in bytes.get(at..end)? {
        number = (number << 8) | *digit as u64;
    }
    Some((number, end))
}

/// A whole number in MessagePack, and the place behind it. One of a single byte is that byte, so -1 is 255.
fn whole(bytes: &[u8], at: usize) -> Option<(u64, usize)> {
    let (first, next) = fixed(bytes, at, 1)?;
    match first {
        0xcc => fixed(bytes, next, 1),
        0xcd => fixed(bytes, next, 2),
        0xce => fixed(bytes, next, 4),
        0xcf => fixed(bytes, next, 8),
        _ => Some((first, next)),
    }
}

/// The size of a bin in MessagePack, and the place of its first byte.
fn bin(bytes: &[u8], at: usize) -> Option<(u64, usize)> {
    let (first, next) = fixed(bytes, at, 1)?;
    match first {
        0xc4 => fixed(bytes, next, 1),
        0xc5 => fixed(bytes, next, 2),
        0xc6 => fixed(bytes, next, 4),
        _ => None,
    }
}

/// Code, id and size in fixed widths.
fn head_in_widths(bytes: &[u8], at: usize) -> Option<Head> {
    let (code, at) = fixed(bytes, at, 1)?;
    let (id, at) = fixed(bytes, at, 4)?;
    let (size, at) = fixed(bytes, at, 2)?;
    Some(Head {
        code,
        id,
        by_offerer: None,
        size,
        at,
    })
}

/// Whether the sender offered the channel, which only version 3 says, and the place behind it.
fn source(version: Version, bytes: &[u8], at: usize) -> Option<(Option<bool>, usize)> {
    match version {
        Version::Three => {
            let (source, at) = whole(bytes, at)?;
            Some((Some(source == 1), at))
        }
        Version::One | Version::Two => Some((None, at)),
    }
}

/// The head of an array that holds a payload.
fn full_array(version: Version) -> u64 {
    match version {
        Version::Three => 0x94,
        Version::One | Version::Two => 0x93,
    }
}

/// An array of code, id, in version 3 a source, and a bin, which is left out where it is empty.
fn head_in_array(version: Version, bytes: &[u8], at: usize) -> Option<Head> {
    let (array, at) = fixed(bytes, at, 1)?;
    let (code, at) = whole(bytes, at)?;
    let (id, at) = whole(bytes, at)?;
    let (by_offerer, at) = source(version, bytes, at)?;
    let (size, at) = if array == full_array(version) {
        bin(bytes, at)?
    } else {
        (0, at)
    };
    Some(Head {
        code,
        id,
        by_offerer,
        size,
        at,
    })
}

fn head_at(version: Version, bytes: &[u8], at: usize) -> Option<Head> {
    match version {
        Version::One => head_in_widths(bytes, at),
        Version::Two | Version::Three => head_in_array(version, bytes, at),
    }
}

/// The frame of this head, if its payload is whole. That of an acknowledgement is an array of a count.
fn with_payload(bytes: &[u8], head: Head) -> Option<SeenFrame> {
    let end = head.at.checked_add(usize::try_from(head.size).ok()?)?;
    let payload = bytes.get(head.at..end)?;
    let brings = match head.code {
        2 => Brings::Content(head.size),
        5 => Brings::Acknowledgement(whole(payload, 1)?.0),
        _ => Brings::Nothing,
    };
    Some(SeenFrame {
        id: head.id,
        by_offerer: head.by_offerer,
        brings,
        end,
    })
}

fn frame_at(version: Version, bytes: &[u8], at: usize) -> Option<SeenFrame> {
    with_payload(bytes, head_at(version, bytes, at)?)
}

fn hello_size(version: Version) -> usize {
    match version {
        Version::One => 20,
        Version::Two => 22,
        Version::Three => 0,
    }
}

/// All bytes that a side emitted, how many of them were delivered, where the first frame begins that wasn't delivered
/// whole, and the frames from there on, as they were last read.
#[derive(Drop)]
pub struct Emitted {
    version: Version,
    bytes: Vec<u8>,
    delivered: usize,
    ahead: usize,
    frames: Vec<SeenFrame>,
}

impl Emitted {
    pub fn new(alloc: Global, version: Version) -> Emitted {
        Emitted {
            version,
            bytes: Vec::new(alloc),
            delivered: 0,
            ahead: hello_size(version),
            frames: Vec::new(alloc),
        }
    }

    /// So many bytes more were delivered, and these are in flight now.
    pub fn note(&mut self, delivered: usize, in_flight: &[u8]) -> Result<(), OutOfMemory> {
        self.delivered = self.delivered.saturating_add(delivered);
        let known = self.bytes.len().saturating_sub(self.delivered);
        self.bytes
            .extend_from_slice(in_flight.get(known..).unwrap_or(&[]))?;
        Ok(())
    }

    /// Whether a part of a frame was delivered.
    pub fn is_cut(&self) -> bool {
        self.ahead < self.delivered
    }

    /// Keeps a frame unless it was delivered whole.
    fn keep(&mut self, frame: SeenFrame) -> Result<(), OutOfMemory> {
        if frame.end <= self.delivered {
            self.ahead = frame.end;
        } else {
            self.frames.push(frame)?;
        }
        Ok(())
    }

    /// Reads the frame at a place, and answers that behind it, or None where the bytes there are no frame.
    fn read_frame(&mut self, at: usize) -> Result<Option<usize>, OutOfMemory> {
        let Some(frame) = frame_at(self.version, &self.bytes, at) else {
            return Ok(None);
        };
        self.keep(frame)?;
        Ok(Some(frame.end))
    }

    /// Reads the frames that weren't delivered whole, and answers whether the bytes are frames.
    pub fn read_frames(&mut self) -> Result<bool, OutOfMemory> {
        self.frames.clear();
        let mut at = self.ahead;
        for _ in at..self.bytes.len() {
            if at >= self.bytes.len() {
                break;
            }
            match self.read_frame(at)? {
                Some(end) => at = end,
                None => return Ok(false),
            }
        }
        Ok(true)
    }

    /// The frames as they were last read.
    pub fn frames(&self) -> &[SeenFrame] {
        self.frames.as_slice()
    }
}
