//! A reader of bodies from a stream that comes in pieces.

ghost use Rattle.message_framing.specs.Answers.{AnswersBody, HasMessage, RefusesAt, front_body};
ghost use Rattle.message_framing.specs.Reads.{Follows, Reads, given_with};
ghost use Rattle.message_framing.specs.Unread.{with_piece, without_front};
ghost use Rattle.message_framing.specs.Front.{IsWithin, front};
ghost use Rattle.std.specs.Prelude.{◌≡◌, ◌+◌, ◌<◌, ◌≤◌, ◌++◌, ◌⊎◌, ℕ, List, [], ◌∷◌, length, take, drop, IfOk, OnErr, OnOk};
ghost use Rattle.wire_base.specs.declared.limits.TheConstants.{MAX_FED};
ghost use Rattle.wire_base.specs.declared.place.Place.{Place};
ghost use Rattle.wire_base.specs.declared.reason.Reason.{Reason};

use crate::framing::Framing;
use crate::front::Front;
use crate::next_body::NextBody;
use crate::reading::front;
use std::alloc::Global;
use std::marker::Model;
use wire_base::{Blob, OutOfMemory, Place};

/// Reads the bodies of messages from a stream that comes in pieces, seen by contracts as what it has not given yet.
#[derive(Drop)]
pub struct MessageReader {
    alloc: Global,
    framing: Framing,
    bytes: Vec<u8>,
    /// So many of the bytes were given, with their heads.
    given: usize,
    /// The place of the byte after those.
    at: u64,
    fed: u64,
}

impl Model for MessageReader {
    ghost use Rattle.message_framing.specs.Holds.{Holds};
    ghost use Rattle.message_framing.specs.Unread.{Unread};
    ghost use Rattle.std.specs.Prelude.{drop};

    ghost Value = { Unread };

    ghost view = { λ r. record { framing = r.framing; at = r.at; rest = drop r.given r.bytes.items; fed = r.fed } };

    ghost invariant = { λ r. Holds r.bytes.items r.given r.at r.fed };
}

impl MessageReader {
    /// A reader of a stream of which nothing was fed. Takes no memory.
    pub fn new(alloc: Global, framing: Framing) -> MessageReader
        ensures empty { result ≡ record { framing = framing; at = 0; rest = []; fed = 0 } }
        ensures reads { Reads result [] [] }
    {
        MessageReader {
            alloc,
            framing,
            bytes: Vec::new(alloc),
            given: 0,
            at: 0,
            fed: 0,
        }
    }

    /// Takes the next piece of the stream.
    pub fn feed(&mut self, piece: &[u8]) -> Result<(), OutOfMemory>
        requires { self.old.fed + length piece.now ≤ MAX_FED }
        ensures ok { OnOk result (self.new ≡ with_piece piece.now self.old) }
        ensures err { OnErr result (self.new ≡ self.old) }
        ensures reads { (stream : List ℕ) (given : List (ℕ × List ℕ)) → Reads self.old stream given →
            OnOk result (Reads self.new (stream ++ piece.now) given) }
        // What is refused stays so.
        ensures refuses { (place : Place) (reason : Reason) → RefusesAt self.old place reason → RefusesAt self.new place reason }
    {
        self.bytes.extend_from_slice(piece)?;
        self.fed += piece.len() as u64;
        Ok(())
    }

    /// The next body of all bytes fed.
    #[tactic(auto, using(crate::proofs::Streams::answers))]
    pub fn next(&mut self) -> NextBody
        ensures answer { AnswersBody result self.old self.new }
        ensures refuses { (place : Place) (reason : Reason) → RefusesAt self.old place reason →
            (result ≡ NextBody.Refused place reason) ⊎ (result ≡ NextBody.OutOfMemory) }
        ensures shorter { (place : Place) (body : List ℕ) → result ≡ NextBody.Body place body →
            length self.new.rest < length self.old.rest }
        // The answer is what the whole stream says, whatever pieces it came in.
        ensures follows { (stream : List ℕ) (given : List (ℕ × List ℕ)) → Reads self.old stream given →
            Follows self.old.framing stream given result }
        ensures reads { (stream : List ℕ) (given : List (ℕ × List ℕ)) → Reads self.old stream given →
            Reads self.new stream (given_with result given) }
    {
        match self.front() {
            Front::Whole(start, size) => match self.body(start, size) {
                Ok(body) => {
                    let place = Place(self.at + start as u64);
                    self.skip(start, size);
                    NextBody::Body(place, body)
                }
                Err(_) => NextBody::OutOfMemory,
            },
            Front::Short => NextBody::Short,
            Front::Broken(offset, reason) => NextBody::Refused(
                Place(self.at + offset as u64),
                reason,
            ),
        }
    }

    /// What stands at the front of the bytes that weren't given, which stay.
    pub fn front(&self) -> Front
        ensures answer { result ≡ front self.now.framing self.now.rest }
        ensures within { IsWithin (length self.now.rest) result }
    {
        front(self.framing, self.unread())
    }

    /// Gives up the message at the front, whose body of so many bytes stands behind so many of its head: the reader goes on
    /// behind it.
    pub fn skip(&mut self, start: usize, size: usize)
        requires { HasMessage start size self.old }
        ensures value { self.new ≡ without_front (start + size) self.old }
        ensures reads { (stream : List ℕ) (given : List (ℕ × List ℕ)) → Reads self.old stream given →
            Reads self.new stream (given ++ front_body start size self.old ∷ []) }
        // What is refused stays so: no message stands there.
        ensures refuses { (place : Place) (reason : Reason) → RefusesAt self.old place reason → RefusesAt self.new place reason }
    {
        self.give(start, size);
    }

    /// The bytes that weren't given.
    pub fn unread(&self) -> &[u8]
        ensures { result.now ≡ self.now.rest }
    {
        &self.bytes[self.given..]
    }

    fn body(&self, start: usize, size: usize) -> Result<Blob, OutOfMemory>
        requires { start + size ≤ length self.now.rest }
        ensures { IfOk result (λ body. body ≡ take size (drop start self.now.rest)) }
    {
        Blob::from_bytes(self.alloc, &self.unread()[start..start + size])
    }

    /// The place of the first byte that wasn't given.
    pub fn place(&self) -> Place
        ensures value { result.0 ≡ self.now.at }
        ensures within { result.0 + length self.now.rest ≤ MAX_FED }
    {
        Place(self.at)
    }

    /// So many bytes of a head and of its body at the front are given: the reader goes on behind them.
    fn give(&mut self, start: usize, size: usize)
        requires { start + size ≤ length self.old.rest }
        ensures { self.new ≡ without_front (start + size) self.old }
    {
        let end = self.given + start + size;
        self.at += (end - self.given) as u64;
        self.given = end;
        self.forget_given();
    }

    /// How many bytes were fed.
    pub fn fed(&self) -> u64
        ensures { result ≡ self.now.fed }
    {
        self.fed
    }

    /// Lets the given bytes go once they are half of all, so that no more bytes are moved than were given.
    fn forget_given(&mut self)
        ensures { self.new ≡ self.old }
    {
        if self.given >= self.bytes.len() - self.given {
            self.bytes.drain(..self.given);
            self.given = 0;
        }
    }
}
