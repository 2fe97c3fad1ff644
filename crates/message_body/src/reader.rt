//! The message that bytes say.

ghost use Rattle.message_body.specs.Found.{at_start, body_in, json_in, pack_in, value_in};
ghost use Rattle.message_body.specs.Replies.{Reads};

use crate::encoding::Encoding;
use crate::fault::BodyFault;
use json_value::JsonFault;
use pack_value::{Step, decode};
use rpc_items::Message;
use rpc_message::{MessageFault, of_datum};
use std::alloc::Global;
use wire_base::{Datum, Place, Reason};

/// The value that bytes are as JSON.
#[tactic(auto, using(crate::proofs::Readings::readings))]
fn read_json(alloc: Global, body: &[u8]) -> Result<Datum, BodyFault>
    ensures { Reads (at_start (json_in body.now)) result }
{
    match json_value::read(alloc, body) {
        Ok(value) => Ok(value),
        Err(JsonFault::NotJson) => Err(BodyFault::Refused(0, Reason::NotJson)),
        Err(JsonFault::Float) => Err(BodyFault::Refused(0, Reason::Float)),
        Err(JsonFault::OutOfMemory) => Err(BodyFault::OutOfMemory),
    }
}

/// The value that bytes are as MessagePack, all of them.
fn read_pack(alloc: Global, body: &[u8]) -> Result<Datum, BodyFault>
    ensures { Reads (pack_in body.now) result }
{
    match decode(alloc, body, Place(0)) {
        Step::Got(value, size) => {
            if size == body.len() {
                Ok(value)
            } else {
                Err(BodyFault::Refused(size, Reason::NotOneValue))
            }
        }
        Step::Short => Err(BodyFault::Refused(body.len(), Reason::NotOneValue)),
        Step::Refused(place, reason) => Err(BodyFault::Refused(place.0 as usize, reason)),
        Step::OutOfMemory => Err(BodyFault::OutOfMemory),
    }
}

/// The value that a body is.
fn read_value(alloc: Global, encoding: Encoding, body: &[u8]) -> Result<Datum, BodyFault>
    ensures { Reads (value_in encoding body.now) result }
{
    match encoding {
        Encoding::Json => read_json(alloc, body),
        Encoding::Pack => read_pack(alloc, body),
    }
}

/// The message that a body says.
pub fn read(alloc: Global, encoding: Encoding, body: &[u8]) -> Result<Message, BodyFault>
    ensures { Reads (body_in encoding body.now) result }
{
    let value = read_value(alloc, encoding, body)?;
    match of_datum(alloc, &value) {
        Ok(message) => Ok(message),
        Err(MessageFault::Refused(reason)) => Err(BodyFault::Refused(0, reason)),
        Err(MessageFault::OutOfMemory) => Err(BodyFault::OutOfMemory),
    }
}
