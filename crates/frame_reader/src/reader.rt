//! A reader of frames from a stream that comes in pieces.

ghost use Rattle.frame_reader.specs.Answers.{AnswersFrame, HasFrame, RefusesAt};
ghost use Rattle.frame_reader.specs.Reads.{Follows, Reads, given_with};
ghost use Rattle.frame_reader.specs.Unread.{with_piece, without_front};
ghost use Rattle.frame_text.specs.Codec.{Decodes};
ghost use Rattle.frame_text.specs.Frames.{fits};
ghost use Rattle.frame_text.specs.Reading.{front};
ghost use Rattle.std.specs.Prelude.{◌≡◌, ◌+◌, ◌<◌, ◌≤◌, ◌++◌, ◌⊎◌, ℕ, List, [], length, true, false, OnErr, OnOk};
ghost use Rattle.wire_base.specs.declared.frame.Frame.{Frame};
ghost use Rattle.wire_base.specs.declared.place.Place.{Place};
ghost use Rattle.wire_base.specs.declared.reason.Reason.{Reason};

use crate::next_frame::NextFrame;
use frame_text::FrameCodec;
use std::alloc::Global;
use std::marker::Model;
use wire_base::{FrameStep, MAX_FED, MAX_PLACE, OutOfMemory, Place};

/// Reads the frames of a stream that comes in pieces, seen by contracts as what it has not given yet.
#[derive(Drop)]
pub struct FrameReader<C: FrameCodec> {
    alloc: Global,
    codec: C,
    bytes: Vec<u8>,
    /// So many of the bytes were given.
    given: usize,
    /// The place of the byte after those.
    at: Place,
    fed: u64,
    /// Bytes were given or skipped, or a refusal was answered.
    begun: bool,
}

impl<C: FrameCodec> Model for FrameReader<C> {
    ghost use Rattle.frame_reader.specs.Holds.{Holds};
    ghost use Rattle.frame_reader.specs.Unread.{Unread};
    ghost use Rattle.std.specs.Prelude.{drop};

    ghost Value = { Unread };

    ghost view = { λ r. record { version = C.version r.codec; at = r.at.0; rest = drop r.given r.bytes.items; fed = r.fed; begun = r.begun } };

    ghost invariant = { λ r. Holds r.bytes.items r.given r.at.0 r.fed };
}

/// What stands at the front of these bytes, whose first byte stands at this place.
fn front<C: FrameCodec>(alloc: Global, codec: &C, bytes: &[u8], at: Place) -> FrameStep
    requires { at.0 ≤ MAX_PLACE }
    ensures answer { Decodes result bytes.now at (front (C.version codec.now) bytes.now) }
    ensures fits { (frame : Frame) (size : ℕ) → result ≡ FrameStep.Got frame size → fits (C.version codec.now) frame ≡ true }
{
    codec.decode(alloc, bytes, at)
}

impl<C: FrameCodec> FrameReader<C> {
    /// A reader of a stream whose first byte stands at `start`. Takes no memory.
    pub fn new(alloc: Global, codec: C, start: Place) -> FrameReader<C>
        requires { start.0 ≤ MAX_FED }
        ensures empty { result ≡ record { version = C.version codec; at = start.0; rest = []; fed = 0; begun = false } }
        ensures reads { Reads result start.0 [] [] }
    {
        FrameReader {
            alloc,
            codec,
            bytes: Vec::new(alloc),
            given: 0,
            at: start,
            fed: 0,
            begun: false,
        }
    }

    /// Takes the next piece of the stream.
    pub fn feed(&mut self, piece: &[u8]) -> Result<(), OutOfMemory>
        requires { self.old.fed + length piece.now ≤ MAX_FED }
        ensures ok { OnOk result (self.new ≡ with_piece piece.now self.old) }
        ensures err { OnErr result (self.new ≡ self.old) }
        ensures reads { (start : ℕ) (stream : List ℕ) (given : List (ℕ × Frame)) → Reads self.old start stream given →
            OnOk result (Reads self.new start (stream ++ piece.now) given) }
        // What is refused stays so.
        ensures refuses { (place : Place) (reason : Reason) → RefusesAt self.old place reason → RefusesAt self.new place reason }
    {
        self.bytes.extend_from_slice(piece)?;
        self.fed += piece.len() as u64;
        Ok(())
    }

    /// The next frame of all bytes fed.
    #[tactic(auto, using(crate::proofs::Streams::answers))]
    pub fn next(&mut self) -> NextFrame
        ensures answer { AnswersFrame result self.old self.new }
        ensures refuses { (place : Place) (reason : Reason) → RefusesAt self.old place reason →
            (result ≡ NextFrame.Refused place reason) ⊎ (result ≡ NextFrame.OutOfMemory) }
        ensures shorter { (place : Place) (frame : Frame) → result ≡ NextFrame.Frame place frame →
            length self.new.rest < length self.old.rest }
        // The answer is what the whole stream says, whatever pieces it came in.
        ensures follows { (start : ℕ) (stream : List ℕ) (given : List (ℕ × Frame)) → Reads self.old start stream given →
            Follows self.old.version start stream given result }
        ensures reads { (start : ℕ) (stream : List ℕ) (given : List (ℕ × Frame)) → Reads self.old start stream given →
            Reads self.new start stream (given_with result given) }
    {
        match self.front() {
            FrameStep::Got(frame, size) => {
                let place = self.at;
                self.skip(size);
                NextFrame::Frame(place, frame)
            }
            FrameStep::Short => NextFrame::Short,
            FrameStep::Refused(place, reason) => {
                self.begun = true;
                NextFrame::Refused(place, reason)
            }
            FrameStep::OutOfMemory => NextFrame::OutOfMemory,
        }
    }

    /// What stands at the front of the bytes that weren't given, which stay. This only looks: a refusal that it shows
    /// isn't kept in mind until `next` answers it. A frame that isn't whole is looked at again from its first byte,
    /// which costs its heads: a payload is copied once it is whole.
    pub fn front(&self) -> FrameStep
        ensures answer { Decodes result self.now.rest (record { 0 = self.now.at }) (front self.now.version self.now.rest) }
        ensures fits { (frame : Frame) (size : ℕ) → result ≡ FrameStep.Got frame size → fits self.now.version frame ≡ true }
    {
        front(self.alloc, &self.codec, self.unread(), self.at)
    }

    /// Gives up the whole frame of so many bytes at the front: the reader goes on behind it. What is refused stays refused,
    /// since no frame stands there.
    pub fn skip(&mut self, size: usize)
        requires { HasFrame size self.old }
        ensures { self.new ≡ without_front size self.old }
    {
        self.give(size);
    }

    /// Skips a greeting of so many bytes, which is no frame, at the start of the stream.
    pub fn skip_greeting(&mut self, size: usize)
        requires within { size ≤ length self.old.rest }
        requires first { self.old.begun ≡ false }
        ensures { self.new ≡ without_front size self.old }
    {
        self.give(size);
    }

    /// So many bytes at the front are given: the reader goes on behind them.
    fn give(&mut self, size: usize)
        requires { size ≤ length self.old.rest }
        ensures { self.new ≡ without_front size self.old }
    {
        self.given += size;
        self.at = Place(self.at.0 + size as u64);
        self.begun = true;
        self.forget_given();
    }

    /// The bytes that weren't given.
    pub fn unread(&self) -> &[u8]
        ensures { result.now ≡ self.now.rest }
    {
        &self.bytes[self.given..]
    }

    /// The place of the first byte that wasn't given.
    pub fn place(&self) -> Place
        ensures { result.0 ≡ self.now.at }
    {
        self.at
    }

    /// How many bytes were fed and are not part of a frame that was given.
    pub fn left(&self) -> usize
        ensures { result ≡ length self.now.rest }
    {
        self.bytes.len() - self.given
    }

    /// How many bytes were fed.
    pub fn fed(&self) -> u64
        ensures { result ≡ self.now.fed }
    {
        self.fed
    }

    /// Lets the given bytes go once they are half of all, so that no more bytes are moved than were given.
    fn forget_given(&mut self)
        ensures { self.new ≡ self.old }
    {
        if self.given >= self.left() {
            self.bytes.drain(..self.given);
            self.given = 0;
        }
    }
}
