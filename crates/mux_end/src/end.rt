//! One end of a multiplexing stream.

ghost use Rattle.mux_end.specs.Ends.{finished, with_end, with_output, with_state};
ghost use Rattle.mux_end.specs.Replies.{EndsBy, IsStarted, KeepsTerms};
ghost use Rattle.mux_end.specs.Stands.{MuxStands};
ghost use Rattle.mux_items.specs.Items.{Item, ended};
ghost use Rattle.mux_items.specs.Refusals.{is_ready};
ghost use Rattle.mux_items.specs.Views.{known_keys, tally_of, view_of};
ghost use Rattle.std.specs.Prelude.{◌≡◌, ◌≤◌, ◌↔◌, IfOk, IsTrue, List, drop, length, slice_get, ℕ};

use crate::book::ChannelBook;
use any_codec::AnyCodec;
use frame_reader::FrameReader;
use mux_handshake::hello;
use mux_items::{ChannelKey, ChannelView, NONCE_SIZE, Tally};
use std::alloc::Global;
use std::marker::Model;
use wire_base::{CallFault, Cause, EndState, OutOfMemory, Place, Version};

/// One end of a multiplexing stream, with all its channels.
#[derive(Drop)]
pub struct MuxEnd {
    pub(crate) nonce: [u8; NONCE_SIZE],
    pub(crate) book: ChannelBook,
    pub(crate) output: Vec<u8>,
    pub(crate) reader: FrameReader<AnyCodec>,
    /// Whether memory ran out.
    pub(crate) stopped: bool,
}

impl Model for MuxEnd {
    ghost use Rattle.mux_end.specs.Ends.{value_in};
    ghost use Rattle.mux_end.specs.Reader.{IsReaderOf};
    ghost use Rattle.mux_end.specs.Stands.{EndValue};

    ghost Value = { EndValue };

    ghost view = { λ e. value_in e.nonce e.book e.output.items e.reader e.stopped };

    ghost invariant = { λ e. IsReaderOf e.book e.reader };
}

impl MuxEnd {
    /// An end without channels, whose output is its hello.
    pub fn start(
        alloc: Global,
        version: Version,
        nonce: [u8; NONCE_SIZE],
    ) -> Result<MuxEnd, OutOfMemory>
        ensures { IfOk result (IsStarted version nonce) }
    {
        let mut output = Vec::new(alloc);
        hello(version, &nonce, &mut output)?;
        Ok(MuxEnd {
            nonce,
            book: ChannelBook::new(alloc, version),
            output,
            reader: FrameReader::new(alloc, AnyCodec::new(version), Place(0)),
            stopped: false,
        })
    }

    /// What this end has to send.
    pub fn pending_output(&self) -> &[u8]
        ensures { result.now ≡ self.now.output }
    {
        self.output.as_slice()
    }

    /// The first `n` bytes of the output were sent.
    pub fn took(&mut self, n: usize)
        requires { n ≤ length self.old.output }
        ensures { self.new ≡ with_output (drop n self.old.output) self.old }
    {
        self.output.drain(..n);
    }

    pub fn state(&self) -> EndState
        ensures { result ≡ self.now.state }
    {
        if self.stopped {
            return EndState::Stopped;
        }
        match self.book.cause() {
            Some(cause) => EndState::Ended(cause),
            None => EndState::Running,
        }
    }

    pub(crate) fn is_running(&self) -> bool
        ensures { IsTrue result ↔ (self.now.state ≡ EndState.Running) }
    {
        !self.stopped && self.book.cause().is_none()
    }

    pub fn version(&self) -> Version
        ensures { result ≡ self.now.version }
    {
        self.book.version()
    }

    /// Whether the peer's handshake is applied where one is needed: version 3 has none.
    pub fn ready(&self) -> bool
        ensures { (items : List Item) (at : ℕ) (rest : List ℕ) → MuxStands self.now items at rest → result ≡ is_ready self.now.version items }
    {
        self.book.is_ready()
    }

    /// A kept channel as it stands.
    pub fn view(&self, key: ChannelKey) -> Option<ChannelView>
        ensures { (items : List Item) (at : ℕ) (rest : List ℕ) → MuxStands self.now items at rest → result ≡ view_of self.now.version key items }
    {
        self.book.view(key)
    }

    /// What came of a channel so far.
    pub fn tally(&self, key: ChannelKey) -> Option<Tally>
        ensures { (items : List Item) (at : ℕ) (rest : List ℕ) → MuxStands self.now items at rest → result ≡ tally_of self.now.version key items }
    {
        self.book.tally(key)
    }

    /// The i-th of the channels that were offered and not rejected: own ones by rising id, then the peer's.
    pub fn known(&self, i: usize) -> Option<ChannelKey>
        ensures { (items : List Item) (at : ℕ) (rest : List ℕ) → MuxStands self.now items at rest → result ≡ slice_get (known_keys items) i }
    {
        self.book.known(i)
    }

    /// The peer's stream has ended. It takes no memory.
    pub fn end_of_input(&mut self)
        ensures answers { (items : List Item) (at : ℕ) (rest : List ℕ) → MuxStands self.old items at rest → EndsBy self.old self.new items at rest Cause.InputEnded (ended items) }
        ensures stopped { self.old.state ≡ EndState.Stopped → self.new ≡ self.old }
        ensures terms { KeepsTerms self.old self.new }
    {
        self.end_running(Cause::InputEnded);
    }

    /// A running end takes no more bytes and calls, as where it was fed the most that it may be. It takes no memory.
    pub fn spend(&mut self)
        ensures answers { (items : List Item) (at : ℕ) (rest : List ℕ) → MuxStands self.old items at rest → EndsBy self.old self.new items at rest Cause.Spent (ended items) }
        ensures stopped { self.old.state ≡ EndState.Stopped → self.new ≡ self.old }
        ensures terms { KeepsTerms self.old self.new }
    {
        self.end_running(Cause::Spent);
    }

    /// Ends an end that runs.
    fn end_running(&mut self, cause: Cause)
        ensures answers { (items : List Item) (at : ℕ) (rest : List ℕ) → MuxStands self.old items at rest → EndsBy self.old self.new items at rest cause (ended items) }
        ensures stopped { self.old.state ≡ EndState.Stopped → self.new ≡ self.old }
        ensures terms { KeepsTerms self.old self.new }
    {
        if self.is_running() {
            self.end(cause);
        }
    }

    /// The end ends. What is pending on its channels is dropped.
    pub(crate) fn end(&mut self, cause: Cause)
        requires { self.old.state ≡ EndState.Running }
        ensures { self.new ≡ with_end cause self.old }
    {
        self.book.end(cause);
    }

    /// Memory ran out.
    pub(crate) fn stop(&mut self)
        ensures { self.new ≡ with_state EndState.Stopped self.old }
    {
        self.stopped = true;
    }

    /// What a call answers. After want of memory the end is stopped.
    pub(crate) fn finish<T>(&mut self, answer: Result<T, CallFault>) -> Result<T, CallFault>
        ensures answer { result ≡ answer }
        ensures state { self.new ≡ finished answer self.old }
    {
        match answer {
            Err(CallFault::OutOfMemory) => {
                self.stop();
                Err(CallFault::OutOfMemory)
            }
            answer => answer,
        }
    }
}
