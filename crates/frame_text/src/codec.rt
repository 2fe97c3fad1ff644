//! What reads and writes frames.

ghost use Rattle.frame_text.specs.Codec.{Decodes};
ghost use Rattle.frame_text.specs.Frames.{fits, text};
ghost use Rattle.frame_text.specs.Reading.{front};
ghost use Rattle.std.specs.Prelude.{◌≡◌, ◌≤◌, ◌++◌, true, OnOk, OnErr};
ghost use Rattle.wire_base.specs.declared.frame.Version.{Version};

use std::alloc::Global;
use wire_base::{Frame, FrameStep, MAX_PLACE, OutOfMemory, Place};

/// Reads and writes frames of one version.
pub trait FrameCodec {
    /// The version that it reads and writes.
    ghost version: { Self → Version };

    /// The frame at the front of the bytes, whose first byte stands at this place.
    fn decode(&self, alloc: Global, bytes: &[u8], at: Place) -> FrameStep
        requires { at.0 ≤ MAX_PLACE }
        ensures { Decodes result bytes.now at (front (version self.now) bytes.now) };

    /// Whether the frame has a spelling.
    fn fits(&self, frame: &Frame) -> bool
        ensures { result ≡ fits (version self.now) frame.now };

    /// Writes the shortest spelling of the frame at the end.
    fn encode(&self, frame: &Frame, out: &mut Vec<u8>) -> Result<(), OutOfMemory>
        requires { fits (version self.now) frame.now ≡ true }
        ensures ok { OnOk result (out.new.items ≡ out.old.items ++ text (version self.now) frame.now) }
        ensures err { OnErr result (out.new.items ≡ out.old.items) };
}
