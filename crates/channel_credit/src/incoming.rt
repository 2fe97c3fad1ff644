//! What an end takes from a channel.

ghost use Rattle.std.specs.Prelude.{◌≡◌, ◌≤◌, ◌<◌, ◌+◌, ◌++◌, [], drop, false, length, nat_lt, take, OnErr, OnOk};

use crate::queue::ByteQueue;
use std::alloc::Global;
use wire_base::OutOfMemory;

/// The reading half of a channel. Counts are numbers of bytes since the offer.
#[derive(Drop)]
pub struct Incoming {
    /// The own window, 0 before it is given.
    pub window: u32,
    pub taken: u64,
    pub unread: ByteQueue,
    pub handed: u64,
    /// Whether the peer has completed its writing.
    pub completed: bool,
}

impl Incoming {
    pub fn new(alloc: Global, window: u32) -> Self
        ensures { result ≡ record { window = window; taken = 0; unread = []; handed = 0; completed = false } }
    {
        Incoming {
            window,
            taken: 0,
            unread: ByteQueue::new(alloc),
            handed: 0,
            completed: false,
        }
    }

    /// Whether so many more unread bytes would be more than the window.
    pub fn is_above_window(&self, count: usize) -> bool
        ensures { result ≡ nat_lt self.now.window (length self.now.unread + count) }
    {
        let window = self.window as usize;
        let unread = self.unread.len();
        window < unread || window - unread < count
    }

    /// Keeps content. A count of taken bytes that doesn't fit its type is one for which there is no memory.
    pub fn take(&mut self, bytes: &[u8]) -> Result<(), OutOfMemory>
        ensures ok { OnOk result (self.new ≡ record self.old { taken = self.old.taken + length bytes.now; unread = self.old.unread ++ bytes.now }) }
        ensures err { OnErr result (self.new ≡ self.old) }
    {
        let Some(taken) = self.taken.checked_add(bytes.len() as u64) else {
            return Err(OutOfMemory);
        };
        self.unread.push(bytes)?;
        self.taken = taken;
        Ok(())
    }

    /// Moves the first unread bytes to the end of `out`.
    pub fn hand(&mut self, count: usize, out: &mut Vec<u8>) -> Result<(), OutOfMemory>
        requires within { count ≤ length self.old.unread }
        requires taken { self.old.handed + length self.old.unread ≤ self.old.taken }
        ensures ok { OnOk result (self.new ≡ record self.old { unread = drop count self.old.unread; handed = self.old.handed + count }) }
        ensures bytes { OnOk result (out.new.items ≡ out.old.items ++ take count self.old.unread) }
        ensures err { OnErr result (self.new ≡ self.old) }
        ensures kept { OnErr result (out.new.items ≡ out.old.items) }
    {
        self.unread.move_to(count, out)?;
        self.handed += count as u64;
        Ok(())
    }
}
