//! A message as bytes.

ghost use Rattle.std.specs.Prelude.{◌≡◌, ◌<◌, ◌≤◌, ◌++◌, length, OnOk, OnErr};
ghost use Rattle.json_value.specs.Json.{json_text};
ghost use Rattle.json_value.specs.Value.{IsValue};
ghost use Rattle.pack_value.specs.Shortest.{shortest};
ghost use Rattle.rpc_items.specs.Bodies.{body_refusal, most_body};
ghost use Rattle.rpc_items.specs.Told.{HasNamedId};
ghost use Rattle.rpc_items.specs.Writing.{message_value};
ghost use Rattle.message_body.specs.AsRead.{IsMessage};
ghost use Rattle.message_body.specs.Replies.{Puts, Writes};
ghost use Rattle.message_body.specs.Written.{body_text, encoder, value_text};
ghost use Rattle.message_body.specs.declared.encoding.Encoding.{Encoding};

use crate::encoding::Encoding;
use json_value::JsonWrite;
use pack_value::{EncodeFault, encode};
use rpc_items::Message;
use rpc_message::to_datum;
use std::alloc::Global;
use wire_base::{CallFault, Datum, MAX_BODY, Refusal, holds_bytes};

/// Appends a value's JSON text, whatever its length.
fn put_json(alloc: Global, value: &Datum, out: &mut Vec<u8>) -> Result<(), CallFault>
    ensures ok { OnOk result (out.new.items ≡ out.old.items ++ json_text value.now) }
    ensures valid { OnOk result (IsValue value.now) }
    ensures answer { Puts Encoding.Json value.now result }
    ensures err { OnErr result (out.new.items ≡ out.old.items) }
{
    if holds_bytes(value) {
        return Err(CallFault::Refused(Refusal::BytesInJson));
    }
    match json_value::write(alloc, value, out) {
        Ok(()) => Ok(()),
        Err(JsonWrite::TooDeep) => Err(CallFault::Refused(Refusal::TooDeep)),
        Err(JsonWrite::BytesInJson) => Err(CallFault::Refused(Refusal::BytesInJson)),
        Err(JsonWrite::OutOfMemory) => Err(CallFault::OutOfMemory),
    }
}

/// Appends a value's shortest spelling, whatever its length.
fn put_pack(value: &Datum, out: &mut Vec<u8>) -> Result<(), CallFault>
    ensures ok { OnOk result (out.new.items ≡ out.old.items ++ shortest value.now) }
    ensures valid { OnOk result (IsValue value.now) }
    ensures answer { Puts Encoding.Pack value.now result }
    ensures err { OnErr result (out.new.items ≡ out.old.items) }
{
    match encode(value, out) {
        Ok(()) => Ok(()),
        Err(EncodeFault::TooDeep) => Err(CallFault::Refused(Refusal::TooDeep)),
        Err(EncodeFault::TooLong) => Err(CallFault::Refused(Refusal::BodyTooLong)),
        Err(EncodeFault::OutOfMemory) => Err(CallFault::OutOfMemory),
    }
}

/// Appends a value, whatever its length.
pub fn append(
    alloc: Global,
    encoding: Encoding,
    value: &Datum,
    out: &mut Vec<u8>,
) -> Result<(), CallFault>
    ensures ok { OnOk result (out.new.items ≡ out.old.items ++ value_text encoding value.now) }
    ensures valid { OnOk result (IsValue value.now) }
    ensures answer { Puts encoding value.now result }
    ensures err { OnErr result (out.new.items ≡ out.old.items) }
{
    match encoding {
        Encoding::Json => put_json(alloc, value, out),
        Encoding::Pack => put_pack(value, out),
    }
}

/// Appends a value, unless it is longer than a body can be.
fn put_body(
    alloc: Global,
    encoding: Encoding,
    value: &Datum,
    out: &mut Vec<u8>,
) -> Result<(), CallFault>
    ensures ok { OnOk result (out.new.items ≡ out.old.items ++ value_text encoding value.now) }
    ensures valid { OnOk result (IsValue value.now) }
    ensures fits { OnOk result (length (value_text encoding value.now) ≤ most_body) }
    ensures answer { Writes (body_refusal (encoder encoding) value.now) result }
    ensures err { OnErr result (out.new.items ≡ out.old.items) }
{
    let start = out.len();
    append(alloc, encoding, value, out)?;
    if out.len() - start > MAX_BODY as usize {
        out.truncate(start);
        return Err(CallFault::Refused(Refusal::BodyTooLong));
    }
    Ok(())
}

/// Appends a message as a body.
#[tactic(auto, using(crate::proofs::Sizes::body_some))]
pub fn write(
    alloc: Global,
    encoding: Encoding,
    message: &Message,
    out: &mut Vec<u8>,
) -> Result<(), CallFault>
    ensures ok { OnOk result (out.new.items ≡ out.old.items ++ body_text encoding message.now) }
    ensures message { OnOk result (HasNamedId message.now → IsMessage message.now) }
    ensures fits { OnOk result ((0 < length (body_text encoding message.now)) × (length (body_text encoding message.now) ≤ most_body)) }
    ensures answer { Writes (body_refusal (encoder encoding) (message_value message.now)) result }
    ensures err { OnErr result (out.new.items ≡ out.old.items) }
{
    match to_datum(alloc, message) {
        Ok(value) => put_body(alloc, encoding, &value, out),
        Err(_) => Err(CallFault::OutOfMemory),
    }
}
