//! The codec of version 1.

ghost use Rattle.wire_base.specs.declared.frame.Version.TheVariants.{One};

use crate::fits::fits;
use crate::reading::step;
use crate::writing::push_frame;
use frame_text::FrameCodec;
use std::alloc::Global;
use wire_base::{Frame, FrameStep, OutOfMemory, Place};

/// The codec of version 1.
#[derive(Debug, Drop)]
pub struct V1Codec;

impl V1Codec {
    pub fn new() -> V1Codec {
        V1Codec
    }
}

impl FrameCodec for V1Codec {
    ghost version = { λ _. One };

    fn decode(&self, alloc: Global, bytes: &[u8], at: Place) -> FrameStep {
        step(alloc, bytes, at)
    }

    fn fits(&self, frame: &Frame) -> bool {
        fits(frame)
    }

    fn encode(&self, frame: &Frame, out: &mut Vec<u8>) -> Result<(), OutOfMemory> {
        push_frame(frame, out)
    }
}
