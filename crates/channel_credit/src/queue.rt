//! Bytes that wait.

ghost use Rattle.std.specs.Prelude.{◌≡◌, ◌≤◌, ◌++◌, [], drop, length, take, OnErr, OnOk};

use std::alloc::Global;
use std::marker::Model;
use wire_base::OutOfMemory;

/// Bytes that leave in the order in which they came.
#[derive(Drop)]
pub struct ByteQueue {
    bytes: Vec<u8>,
    /// How many of them have left.
    left: usize,
}

impl Model for ByteQueue {
    ghost use Rattle.std.specs.Prelude.{◌≤◌, List, ℕ, drop, length};

    ghost Value = { List ℕ };

    ghost view = { λ q. drop q.left q.bytes.items };

    ghost invariant = { λ q. q.left ≤ length q.bytes.items };
}

impl ByteQueue {
    pub fn new(alloc: Global) -> Self
        ensures { result ≡ [] }
    {
        ByteQueue {
            bytes: Vec::new(alloc),
            left: 0,
        }
    }

    pub fn len(&self) -> usize
        ensures { result ≡ length self.now }
    {
        self.bytes.len() - self.left
    }

    pub fn clear(&mut self)
        ensures { self.new ≡ [] }
    {
        self.bytes.clear();
        self.left = 0;
    }

    pub fn push(&mut self, bytes: &[u8]) -> Result<(), OutOfMemory>
        ensures ok { OnOk result (self.new ≡ self.old ++ bytes.now) }
        ensures err { OnErr result (self.new ≡ self.old) }
    {
        self.bytes.extend_from_slice(bytes)?;
        Ok(())
    }

    /// Moves the first bytes to the end of `out`. The room of those that have left is used again once they are the greater part.
    pub fn move_to(&mut self, count: usize, out: &mut Vec<u8>) -> Result<(), OutOfMemory>
        requires { count ≤ length self.old }
        ensures ok { OnOk result (self.new ≡ drop count self.old) }
        ensures bytes { OnOk result (out.new.items ≡ out.old.items ++ take count self.old) }
        ensures err { OnErr result (self.new ≡ self.old) }
        ensures kept { OnErr result (out.new.items ≡ out.old.items) }
    {
        let end = self.left + count;
        out.extend_from_slice(&self.bytes[self.left..end])?;
        if self.bytes.len() - end < end {
            self.bytes.drain(..end);
            self.left = 0;
        } else {
            self.left = end;
        }
        Ok(())
    }
}
