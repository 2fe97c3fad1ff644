//! Words that are appended to a text.

ghost use Rattle.std.specs.Prelude.{◌≡◌, ◌++◌, OnOk};
ghost use Rattle.std.specs.Fmt.{decimal};
ghost use Rattle.hex.specs.Hex.{encode_lower};
ghost use Rattle.text_words.specs.Written.{line_feed, side_word, channel_word, name_at, bytes_word, owner_word};

use crate::channel_name::ChannelName;
use itoa::Buffer;
use mux_items::ChannelKey;
use mux_run::Side;
use std::alloc::Global;
use wire_base::OutOfMemory;

/// Appends a text.
pub fn push_text(out: &mut Vec<u8>, text: &str) -> Result<(), OutOfMemory>
    ensures { OnOk result (out.new.items ≡ out.old.items ++ text.now) }
{
    out.extend_from_slice(text.as_bytes())?;
    Ok(())
}

/// Ends a line.
pub fn push_line_feed(out: &mut Vec<u8>) -> Result<(), OutOfMemory>
    ensures { OnOk result (out.new.items ≡ out.old.items ++ line_feed) }
{
    out.push(b'\n')?;
    Ok(())
}

pub fn push_decimal(out: &mut Vec<u8>, number: u64) -> Result<(), OutOfMemory>
    ensures { OnOk result (out.new.items ≡ out.old.items ++ decimal number) }
{
    let mut buffer = Buffer::new();
    push_text(out, buffer.format(number))
}

/// Appends bytes in lower-case hex.
pub fn push_hex(alloc: Global, out: &mut Vec<u8>, bytes: &[u8]) -> Result<(), OutOfMemory>
    ensures { OnOk result (out.new.items ≡ out.old.items ++ encode_lower bytes.now) }
{
    let text = hex::encode(alloc, bytes)?;
    push_text(out, text.as_str())
}

/// Appends bytes in hex, and `-` for none.
pub fn push_bytes(alloc: Global, out: &mut Vec<u8>, bytes: &[u8]) -> Result<(), OutOfMemory>
    ensures { OnOk result (out.new.items ≡ out.old.items ++ bytes_word bytes.now) }
{
    match bytes {
        [] => push_text(out, "-"),
        [_, ..] => push_hex(alloc, out, bytes),
    }
}

pub fn push_side(out: &mut Vec<u8>, side: Side) -> Result<(), OutOfMemory>
    ensures { OnOk result (out.new.items ≡ out.old.items ++ side_word side) }
{
    match side {
        Side::A => push_text(out, "A"),
        Side::B => push_text(out, "B"),
    }
}

/// Appends whose a handle is: this end's or the peer's.
pub fn push_owner(out: &mut Vec<u8>, own: bool) -> Result<(), OutOfMemory>
    ensures { OnOk result (out.new.items ≡ out.old.items ++ owner_word own) }
{
    if own {
        push_text(out, "own")
    } else {
        push_text(out, "peer")
    }
}

/// Appends the word of a channel of an end of this side.
pub fn push_channel(out: &mut Vec<u8>, side: Side, key: ChannelKey) -> Result<(), OutOfMemory>
    ensures { OnOk result (out.new.items ≡ out.old.items ++ channel_word (name_at side key)) }
{
    let name = ChannelName::of(side, key);
    push_side(out, name.offering)?;
    push_decimal(out, name.id)
}
