//! The lines of a view, each as a text of its own.

ghost use Rattle.std.specs.Prelude.{◌≡◌, ◌++◌, OnOk, IfOk};
ghost use Rattle.json.specs.Print.{quoted};
ghost use Rattle.stream_view.specs.Lines.{code_name, origin_word, window_word, payload_words, frame_line, hello_line, rest_line, refused_line};

use mux_items::NONCE_SIZE;
use serde_json::Value;
use std::alloc::Global;
use text_words::{push_bytes, push_decimal, push_hex, push_line_feed, push_text};
use wire_base::{Code, Frame, Origin, OutOfMemory, Payload, Place, Reason, Version};

fn code_name(code: Code) -> &'static str
    ensures { result.now ≡ code_name code }
{
    match code {
        Code::Offer => "Offer",
        Code::OfferAccepted => "OfferAccepted",
        Code::Content => "Content",
        Code::ContentWritingCompleted => "ContentWritingCompleted",
        Code::ChannelTerminated => "ChannelTerminated",
        Code::ContentProcessed => "ContentProcessed",
    }
}

fn origin_word(origin: Origin) -> &'static str
    ensures { result.now ≡ origin_word origin }
{
    match origin {
        Origin::Sender => "sender",
        Origin::Receiver => "receiver",
        Origin::ByParity => "-",
    }
}

fn push_window(out: &mut Vec<u8>, window: Option<u64>) -> Result<(), OutOfMemory>
    ensures { OnOk result (out.new.items ≡ out.old.items ++ window_word window) }
{
    match window {
        Some(window) => push_decimal(out, window),
        None => push_text(out, "-"),
    }
}

/// Appends a text as a JSON string.
fn push_quoted(alloc: Global, out: &mut Vec<u8>, text: &str) -> Result<(), OutOfMemory>
    ensures { OnOk result (out.new.items ≡ out.old.items ++ quoted text.now) }
{
    let value = Value::String(String::from_str(alloc, text)?);
    let string = value.to_string(alloc)?;
    push_text(out, string.as_str())
}

/// Appends what a frame carries, each word behind a space.
fn push_payload(alloc: Global, out: &mut Vec<u8>, payload: &Payload) -> Result<(), OutOfMemory>
    ensures { OnOk result (out.new.items ≡ out.old.items ++ payload_words payload.now) }
{
    match payload {
        Payload::Offer(name, window) => {
            push_text(out, " ")?;
            push_quoted(alloc, out, name.as_str())?;
            push_text(out, " ")?;
            push_window(out, *window)
        }
        Payload::Accepted(window) => {
            push_text(out, " ")?;
            push_window(out, *window)
        }
        Payload::Content(bytes) => {
            push_text(out, " ")?;
            push_bytes(alloc, out, bytes.as_bytes())
        }
        Payload::Nothing => Ok(()),
        Payload::Processed(count) => {
            push_text(out, " ")?;
            push_decimal(out, *count)
        }
    }
}

/// The line of a frame whose first byte stands at a place.
pub(crate) fn frame_line(alloc: Global, place: Place, frame: &Frame) -> Result<Vec<u8>, OutOfMemory>
    ensures { IfOk result (λ line. line.items ≡ frame_line place.0 frame.now) }
{
    let mut line = Vec::new(alloc);
    push_decimal(&mut line, place.0)?;
    push_text(&mut line, " ")?;
    push_text(&mut line, code_name(frame.code))?;
    push_text(&mut line, " ")?;
    push_decimal(&mut line, frame.id)?;
    push_text(&mut line, " ")?;
    push_text(&mut line, origin_word(frame.origin))?;
    push_payload(alloc, &mut line, &frame.payload)?;
    push_line_feed(&mut line)?;
    Ok(line)
}

/// The line of a whole handshake, which ends with the nonce. Version 3 has none.
pub(crate) fn hello_line(
    alloc: Global,
    version: Version,
    handshake: &[u8],
) -> Result<Vec<u8>, OutOfMemory>
    ensures { IfOk result (λ line. line.items ≡ hello_line version handshake.now) }
{
    let mut line = Vec::new(alloc);
    match version {
        Version::Three => {}
        Version::One | Version::Two => {
            push_text(&mut line, "0 Hello ")?;
            push_hex(
                alloc,
                &mut line,
                &handshake[handshake.len().saturating_sub(NONCE_SIZE)..],
            )?;
            push_line_feed(&mut line)?;
        }
    }
    Ok(line)
}

/// The line of so many bytes that are less than a frame or a handshake, if there are any.
pub(crate) fn rest_line(alloc: Global, place: Place, count: usize) -> Result<Vec<u8>, OutOfMemory>
    ensures { IfOk result (λ line. line.items ≡ rest_line place.0 count) }
{
    let mut line = Vec::new(alloc);
    if count > 0 {
        push_text(&mut line, "rest ")?;
        push_decimal(&mut line, place.0)?;
        push_text(&mut line, " ")?;
        push_decimal(&mut line, count as u64)?;
        push_line_feed(&mut line)?;
    }
    Ok(line)
}

/// The line of a token that breaks a rule.
pub(crate) fn refused_line(
    alloc: Global,
    place: Place,
    reason: Reason,
) -> Result<Vec<u8>, OutOfMemory>
    ensures { IfOk result (λ line. line.items ≡ refused_line place.0 reason) }
{
    let mut line = Vec::new(alloc);
    push_text(&mut line, "refused ")?;
    push_decimal(&mut line, place.0)?;
    push_text(&mut line, " ")?;
    push_decimal(&mut line, reason.number() as u64)?;
    push_text(&mut line, " ")?;
    push_text(&mut line, reason.name())?;
    push_line_feed(&mut line)?;
    Ok(line)
}
