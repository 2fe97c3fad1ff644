//! What an end writes on a channel.

ghost use Rattle.std.specs.Prelude.{◌≡◌, ◌≤◌, ◌+◌, ◌++◌, [], drop, false, length, min, take, ◌-◌, OnErr, OnOk};
ghost use Rattle.mux_items.specs.Limits.{most_bytes};

use crate::queue::ByteQueue;
use std::alloc::Global;
use wire_base::OutOfMemory;

/// The writing half of a channel. Counts are numbers of bytes since the offer.
#[derive(Drop)]
pub struct Outgoing {
    pub written: u64,
    /// The bytes that wait for credit or for acceptance.
    pub pending: ByteQueue,
    pub emitted: u64,
    /// The peer's window and what it acknowledged.
    pub granted: u64,
    pub acknowledged: u64,
    /// Whether writing was completed here.
    pub completing: bool,
    pub completion_sent: bool,
}

impl Outgoing {
    pub fn new(alloc: Global, granted: u64) -> Self
        ensures { result ≡ record { written = 0; pending = []; emitted = 0; granted = granted; acknowledged = 0; completing = false; completion_sent = false } }
    {
        Outgoing {
            written: 0,
            pending: ByteQueue::new(alloc),
            emitted: 0,
            granted,
            acknowledged: 0,
            completing: false,
            completion_sent: false,
        }
    }

    pub fn write(&mut self, bytes: &[u8]) -> Result<(), OutOfMemory>
        requires { self.old.written + length bytes.now ≤ most_bytes }
        ensures ok { OnOk result (self.new ≡ record self.old { written = self.old.written + length bytes.now; pending = self.old.pending ++ bytes.now }) }
        ensures err { OnErr result (self.new ≡ self.old) }
    {
        self.pending.push(bytes)?;
        self.written += bytes.len() as u64;
        Ok(())
    }

    /// How many of the pending bytes the credit lets go.
    pub fn within_credit(&self) -> usize
        ensures { result ≡ min (self.now.granted - self.now.emitted) (length self.now.pending) }
    {
        let pending = self.pending.len();
        let credit = self.granted.saturating_sub(self.emitted);
        credit.min(pending as u64) as usize
    }

    /// Moves the first pending bytes to the end of a frame's payload.
    pub fn emit(&mut self, size: usize, payload: &mut Vec<u8>) -> Result<(), OutOfMemory>
        requires within { size ≤ length self.old.pending }
        requires written { self.old.emitted + length self.old.pending ≤ most_bytes }
        ensures ok { OnOk result (self.new ≡ record self.old { emitted = self.old.emitted + size; pending = drop size self.old.pending }) }
        ensures bytes { OnOk result (payload.new.items ≡ payload.old.items ++ take size self.old.pending) }
        ensures err { OnErr result (self.new ≡ self.old) }
        ensures kept { OnErr result (payload.new.items ≡ payload.old.items) }
    {
        self.pending.move_to(size, payload)?;
        self.emitted += size as u64;
        Ok(())
    }
}
