ghost use Rattle.frame_text.specs.Codec.{is_packed};
ghost use Rattle.std.specs.Prelude.{◌≡◌, true};

use crate::fits::fits;
use crate::reading::step;
use crate::writing::push_frame;
use frame_text::FrameCodec;
use std::alloc::Global;
use std::marker::Model;
use wire_base::{Frame, FrameStep, OutOfMemory, Place, Version};

/// The codec of version 2 or 3, seen by contracts as its version.
#[derive(Debug, Drop)]
pub struct PackCodec {
    version: Version,
}

impl Model for PackCodec {
    ghost use Rattle.frame_text.specs.Codec.{is_packed};
    ghost use Rattle.std.specs.Prelude.{◌≡◌, true};
    ghost use Rattle.wire_base.specs.declared.frame.Version.{Version};

    ghost Value = { Version };

    ghost view = { λ c. c.version };

    ghost invariant = { λ c. is_packed c.version ≡ true };
}

impl PackCodec {
    pub fn new(version: Version) -> PackCodec
        requires { is_packed version ≡ true }
        ensures { result ≡ version }
    {
        PackCodec { version }
    }
}

impl FrameCodec for PackCodec {
    ghost version = { λ v. v };

    fn decode(&self, alloc: Global, bytes: &[u8], at: Place) -> FrameStep {
        step(alloc, self.version, bytes, at)
    }

    fn fits(&self, frame: &Frame) -> bool {
        fits(self.version, frame)
    }

    #[tactic(auto, using(wire_base::proofs::AppendsLemmas::front_is_kept))]
    fn encode(&self, frame: &Frame, out: &mut Vec<u8>) -> Result<(), OutOfMemory> {
        let len = out.len();
        if push_frame(self.version, frame, out).is_err() {
            out.truncate(len);
            return Err(OutOfMemory);
        }
        Ok(())
    }
}
