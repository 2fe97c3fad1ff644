//! The frames that are due on a channel.

ghost use Rattle.frame_text.specs.Frames.{fits_id};
ghost use Rattle.mux_items.specs.Bodies.{frame_texts};
ghost use Rattle.mux_state.specs.Emitting.{due_of, sent_frames, sent_state};
ghost use Rattle.mux_state.specs.Next.{frames_due, settled};
ghost use Rattle.std.specs.Prelude.{◌≡◌, ◌++◌, IfOk, OnOk, true};

use crate::frames::{push_completed, push_content, push_terminated};
use channel_credit::{Channel, Due};
use mux_items::ChannelKey;
use std::alloc::Global;
use wire_base::{OutOfMemory, Version};

/// Writes the next frame that is due on a channel, and answers which it is.
fn emit_one(
    alloc: Global,
    version: Version,
    key: ChannelKey,
    channel: &mut Channel,
    out: &mut Vec<u8>,
) -> Result<Due, OutOfMemory>
    requires { fits_id version key.id ≡ true }
    ensures due { IfOk result (λ due. due ≡ due_of channel.old) }
    ensures state { OnOk result (channel.new ≡ sent_state (due_of channel.old) channel.old) }
    ensures output { OnOk result (out.new.items ≡ out.old.items ++ frame_texts version (sent_frames key (due_of channel.old) channel.old)) }
    ensures one_version { channel.new.version ≡ channel.old.version }
{
    let mut piece = Vec::new(alloc);
    let due = channel.emit(&mut piece)?;
    match due {
        Due::Content(_) => push_content(alloc, version, key, &piece, out)?,
        Due::Completed => push_completed(version, key, out)?,
        Due::Terminated => push_terminated(version, key, out)?,
        Due::Nothing => (),
    }
    Ok(due)
}

/// Writes all frames that are due on a channel.
pub fn emit_due(
    alloc: Global,
    version: Version,
    key: ChannelKey,
    channel: &mut Channel,
    out: &mut Vec<u8>,
) -> Result<(), OutOfMemory>
    requires { fits_id version key.id ≡ true }
    ensures state { OnOk result (channel.new ≡ settled channel.old) }
    ensures output { OnOk result (out.new.items ≡ out.old.items ++ frame_texts version (frames_due key channel.old)) }
    ensures one_version { channel.new.version ≡ channel.old.version }
{
    'frames: loop {
        match emit_one(alloc, version, key, channel, out)? {
            Due::Content(_) | Due::Completed | Due::Terminated => {}
            Due::Nothing => return Ok(()),
        }
    }
}
