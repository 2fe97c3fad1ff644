//! The codec of a version that is known only as the program runs.

ghost use Rattle.any_codec.specs.Codec.{version_of};
ghost use Rattle.std.specs.Prelude.{◌≡◌};

use frame_pack::PackCodec;
use frame_text::FrameCodec;
use frame_v1::V1Codec;
use std::alloc::Global;
use wire_base::{Frame, FrameStep, OutOfMemory, Place, Version};

/// The codec of a version that is known only as the program runs.
#[derive(Debug, Drop)]
pub enum AnyCodec {
    Plain(V1Codec),
    Packed(PackCodec),
}

impl AnyCodec {
    pub fn new(version: Version) -> AnyCodec
        ensures { version_of result ≡ version }
    {
        match version {
            Version::One => AnyCodec::Plain(V1Codec::new()),
            Version::Two | Version::Three => AnyCodec::Packed(PackCodec::new(version)),
        }
    }
}

impl FrameCodec for AnyCodec {
    ghost version = { version_of };

    fn decode(&self, alloc: Global, bytes: &[u8], at: Place) -> FrameStep {
        match self {
            AnyCodec::Plain(codec) => codec.decode(alloc, bytes, at),
            AnyCodec::Packed(codec) => codec.decode(alloc, bytes, at),
        }
    }

    fn fits(&self, frame: &Frame) -> bool {
        match self {
            AnyCodec::Plain(codec) => codec.fits(frame),
            AnyCodec::Packed(codec) => codec.fits(frame),
        }
    }

    fn encode(&self, frame: &Frame, out: &mut Vec<u8>) -> Result<(), OutOfMemory> {
        match self {
            AnyCodec::Plain(codec) => codec.encode(frame, out),
            AnyCodec::Packed(codec) => codec.encode(frame, out),
        }
    }
}
