//! The calls of a channel.

ghost use Rattle.std.specs.Prelude.{◌≡◌, ◌≤◌, ◌++◌, false, min, take, IfOk, OnErr, OnOk};
ghost use Rattle.channel_credit.specs.Answers.{CallLeaves};
ghost use Rattle.mux_items.specs.Limits.{greatest_window};
ghost use Rattle.mux_state.specs.Next.{accepted_state, completing_state, ended_state, read_count, read_state, terminated_state, written_state};
ghost use Rattle.mux_state.specs.Tests.{accepting_test, open_test, read_test, write_test, writing_test};

use crate::channel::Channel;
use wire_base::CallFault;

impl Channel {
    /// Accepts the peer's offer with a window of so many bytes.
    pub fn accept(&mut self, window: u32) -> Result<(), CallFault>
        requires peers { self.old.own ≡ false }
        requires most { window ≤ greatest_window }
        ensures { CallLeaves (accepting_test self.old) self.old (accepted_state window self.old) self.new result }
    {
        if let Some(refusal) = self.acceptance_refusal() {
            return Err(CallFault::Refused(refusal));
        }
        self.incoming.window += window;
        self.accepted = true;
        Ok(())
    }

    /// Writes bytes, which wait until they are due.
    pub fn write(&mut self, bytes: &[u8]) -> Result<(), CallFault>
        ensures { CallLeaves (write_test bytes.now self.old) self.old (written_state bytes.now self.old) self.new result }
    {
        if let Some(refusal) = self.write_refusal(bytes) {
            return Err(CallFault::Refused(refusal));
        }
        match self.outgoing.write(bytes) {
            Ok(()) => Ok(()),
            Err(_) => Err(CallFault::OutOfMemory),
        }
    }

    /// Moves the first unread bytes, at most `max`, to the end of `out`, and answers their number.
    pub fn read(&mut self, max: usize, out: &mut Vec<u8>) -> Result<usize, CallFault>
        ensures leaves { CallLeaves (read_test self.old) self.old (read_state max self.old) self.new result }
        ensures count { IfOk result (λ n. n ≡ read_count max self.old) }
        ensures bytes { OnOk result (out.new.items ≡ out.old.items ++ take max self.old.unread) }
        ensures kept { OnErr result (out.new.items ≡ out.old.items) }
    {
        if let Some(refusal) = self.read_refusal() {
            return Err(CallFault::Refused(refusal));
        }
        let count = max.min(self.incoming.unread.len());
        match self.incoming.hand(count, out) {
            Ok(()) => Ok(count),
            Err(_) => Err(CallFault::OutOfMemory),
        }
    }

    /// Completes writing.
    pub fn complete(&mut self) -> Result<(), CallFault>
        ensures { CallLeaves (writing_test self.old) self.old (completing_state self.old) self.new result }
    {
        if let Some(refusal) = self.complete_refusal() {
            return Err(CallFault::Refused(refusal));
        }
        self.outgoing.completing = true;
        Ok(())
    }

    /// Terminates the channel and drops what is pending or unread. The termination counts as written.
    pub fn terminate(&mut self) -> Result<(), CallFault>
        ensures { CallLeaves (open_test self.old) self.old (terminated_state self.old) self.new result }
    {
        if let Some(refusal) = self.terminate_refusal() {
            return Err(CallFault::Refused(refusal));
        }
        self.outgoing.pending.clear();
        self.incoming.unread.clear();
        self.termination_sent = true;
        Ok(())
    }

    /// The end that has the channel has ended: what is pending is dropped, and no frame is sent any more. Unread bytes stay readable.
    pub fn on_end(&mut self)
        ensures { self.new ≡ ended_state self.old }
    {
        self.outgoing.pending.clear();
    }
}
