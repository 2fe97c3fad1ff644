//! What frames of the peer make of a channel. After the own termination only the peer's is heeded.

ghost use Rattle.wire_base.specs.declared.limits.TheConstants.{COUNT_LIMIT};
ghost use Rattle.std.specs.Prelude.{◌≡◌, ◌<◌, Some};
ghost use Rattle.channel_credit.specs.Answers.{FrameLeaves, TakeLeaves};
ghost use Rattle.mux_items.specs.Bodies.{Content, ContentProcessed, ContentWritingCompleted, OfferAccepted};
ghost use Rattle.mux_state.specs.Next.{closed_state, framed_state};
ghost use Rattle.mux_state.specs.Tests.{frame_test};

use crate::channel::Channel;
use crate::take_fault::TakeFault;
use wire_base::Reason;

impl Channel {
    /// The peer accepted with a window of so many bytes.
    pub fn on_accepted(&mut self, window: u64) -> Result<(), Reason>
        requires { window < COUNT_LIMIT }
        ensures { FrameLeaves (frame_test (OfferAccepted (Some window)) self.old) self.old (framed_state (OfferAccepted (Some window)) self.old) self.new result }
    {
        if self.termination_sent {
            Ok(())
        } else if !self.own {
            Err(Reason::WrongSide)
        } else if self.accepted {
            Err(Reason::AlreadyAccepted)
        } else {
            self.outgoing.granted += window;
            self.accepted = true;
            Ok(())
        }
    }

    /// Content came.
    pub fn on_content(&mut self, bytes: &[u8]) -> Result<(), TakeFault>
        ensures { TakeLeaves (frame_test (Content bytes.now) self.old) self.old (framed_state (Content bytes.now) self.old) self.new result }
    {
        if self.termination_sent {
            return Ok(());
        }
        if let Some(reason) = self.content_refusal(bytes.len()) {
            return Err(TakeFault::Refused(reason));
        }
        match self.incoming.take(bytes) {
            Ok(()) => Ok(()),
            Err(_) => Err(TakeFault::OutOfMemory),
        }
    }

    /// The peer completed its writing.
    pub fn on_completed(&mut self) -> Result<(), Reason>
        ensures { FrameLeaves (frame_test ContentWritingCompleted self.old) self.old (framed_state ContentWritingCompleted self.old) self.new result }
    {
        if self.termination_sent {
            Ok(())
        } else if self.comes_early() {
            Err(Reason::NotAccepted)
        } else if self.incoming.completed {
            Err(Reason::ContentAfterCompletion)
        } else {
            self.incoming.completed = true;
            Ok(())
        }
    }

    /// The peer acknowledged so many bytes.
    pub fn on_processed(&mut self, count: u64) -> Result<(), Reason>
        ensures { FrameLeaves (frame_test (ContentProcessed count) self.old) self.old (framed_state (ContentProcessed count) self.old) self.new result }
    {
        if self.termination_sent {
            Ok(())
        } else if self.outgoing.emitted - self.outgoing.acknowledged < count {
            Err(Reason::OverAcknowledged)
        } else {
            self.outgoing.granted += count;
            self.outgoing.acknowledged += count;
            Ok(())
        }
    }

    /// The peer terminated the channel: what is pending is dropped, and what is unread where the channel isn't accepted.
    pub fn on_terminated(&mut self)
        ensures { self.new ≡ closed_state self.old }
    {
        self.outgoing.pending.clear();
        if !self.accepted {
            self.incoming.unread.clear();
        }
        self.peer_terminated = true;
    }
}
