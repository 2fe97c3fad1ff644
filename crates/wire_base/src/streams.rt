//! What bytes are read from and written to.

ghost use Rattle.std.specs.Prelude.{◌≡◌, ◌≤◌, ◌<◌, ℕ, List, length, Bool, false, Option, IfOk};
ghost use Rattle.wire_base.specs.Causes.{HasCause};
ghost use Rattle.wire_base.specs.Streams.{Moves, EndsExactly, Takes, answered_0, answered_ok};

/// A read, a write or a flush failed. It moved nothing, and its object counted a fault.
#[derive(Clone, Copy, Debug, PartialEq, Eq)]
pub struct Failed;

/// Where bytes are read from.
pub trait Source {
    /// What it still holds, where it tells that.
    ghost held: { Self → Option (List ℕ) };

    /// How often a call has failed.
    ghost faults: { Self → ℕ };

    /// Whether the last read answered 0.
    ghost ended: { Self → Bool };

    /// Moves bytes from the front of what is held to the front of the buffer, and answers how many. 0 is the end.
    fn read(&mut self, buf: &mut [u8]) -> Result<usize, Failed>
        requires { 0 < length buf.old }
        ensures bound { IfOk result (λ n. n ≤ length buf.new) }
        ensures bytes { Moves (held self.old) (held self.new) result buf.new }
        ensures end { EndsExactly (held self.old) result }
        ensures ended { ended self.new ≡ answered_0 result }
        ensures cause { HasCause (faults self.old) (faults self.new) result };
}

/// Where bytes are written to.
pub trait Sink {
    /// What it was given, where it tells that.
    ghost given: { Self → Option (List ℕ) };

    /// How often a call has failed.
    ghost faults: { Self → ℕ };

    /// Whether the last call was a flush that answered Ok.
    ghost flushed: { Self → Bool };

    /// Takes a byte or more from the front of the piece, and answers how many.
    fn write(&mut self, piece: &[u8]) -> Result<usize, Failed>
        requires { 0 < length piece.now }
        ensures bound { IfOk result (λ n. n ≤ length piece.now) }
        ensures some { IfOk result (λ n. 0 < n) }
        ensures bytes { Takes (given self.old) (given self.new) result piece.now }
        ensures flushed { flushed self.new ≡ false }
        ensures cause { HasCause (faults self.old) (faults self.new) result };

    /// Passes on what was given.
    fn flush(&mut self) -> Result<(), Failed>
        ensures bytes { given self.new ≡ given self.old }
        ensures flushed { flushed self.new ≡ answered_ok result }
        ensures cause { HasCause (faults self.old) (faults self.new) result };
}

/// Both directions of a connection.
#[derive(Drop)]
pub struct Link<S: Source, K: Sink> {
    pub source: S,
    pub sink: K,
}
