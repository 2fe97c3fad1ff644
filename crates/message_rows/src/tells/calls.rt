//! What is told of calls: the body of their message, in JSON.

ghost use Rattle.rpc_items.specs.Drawn.{arg_list};
ghost use Rattle.rpc_items.specs.Made.{made_in};
ghost use Rattle.std.specs.Prelude.{◌≡◌, IfOk, None, length};

use crate::words::text_of;
use call_messages::{object_response, proxy_name, release, request};
use message_body::{Encoding, write};
use row_text::{first, size};
use rpc_items::{Arg, ArgList, Arguments, HandleKey, Lifetime, Message};
use std::alloc::Global;
use std::test::Fail;
use wire_base::{Datum, Id, Node, OutOfMemory, Text, Whole};

fn body_of(alloc: Global, message: &Message) -> Result<String, Fail> {
    let mut out = Vec::new(alloc);
    match write(alloc, Encoding::Json, message, &mut out) {
        Ok(()) => text_of(alloc, out.as_slice()),
        Err(_) => Err(Fail::new("not written")),
    }
}

/// A value, progress, a handle that goes back, and an object of either lifetime.
fn args(alloc: Global) -> Result<Arguments, OutOfMemory>
    ensures { IfOk result (λ args. length (made_in None (arg_list args)) ≡ 2) }
{
    let mut args = ArgList::new(alloc);
    args.push(Arg::Plain(Datum {
        node: Node::Whole(Whole::from_u64(5)),
    }))?;
    args.push(Arg::Progress)?;
    args.push(Arg::Object(70, Lifetime::Call))?;
    args.push(Arg::Handed(9))?;
    args.push(Arg::Object(71, Lifetime::Explicit))?;
    Ok(Arguments::List(args))
}

fn asked(alloc: Global, method: &Text) -> Result<Message, OutOfMemory> {
    request(alloc, 3, 6, method, &args(alloc)?)
}

/// Request 3, where 6 handles were drawn before.
pub fn asks(alloc: Global) -> Result<String, Fail> {
    let method = Text::from_str(alloc, "add")?;
    body_of(alloc, &asked(alloc, &method)?)
}

fn plain(alloc: Global, number: u32, method: &Text) -> Result<Message, OutOfMemory> {
    request(alloc, u64::from(number), 8, method, &Arguments::Absent)
}

fn named(alloc: Global, handle: &str, method: &str) -> Result<Text, Fail> {
    let method = Text::from_str(alloc, method)?;
    Ok(proxy_name(alloc, u64::from(size(handle)), &method)?)
}

/// The words are the number of a request, a handle of the peer, and a method of its object.
pub fn invokes(alloc: Global, words: &str) -> Result<String, Fail> {
    let (number, words) = first(words);
    let (handle, method) = first(words);
    let name = named(alloc, handle, method)?;
    body_of(alloc, &plain(alloc, size(number), &name)?)
}

fn key(words: &str) -> HandleKey {
    let (side, number) = first(words);
    HandleKey {
        number: u64::from(size(number)),
        own: side == "own",
    }
}

/// The words are the side that made a handle, `own` or `peer`, and its number.
pub fn releases(alloc: Global, words: &str) -> Result<String, Fail> {
    body_of(alloc, &release(alloc, key(words))?)
}

fn given(alloc: Global, id: Id, handle: u32) -> Result<Message, OutOfMemory> {
    object_response(alloc, &id, u64::from(handle))
}

/// The words are the id of a request, and the handle that answers it.
pub fn gives(alloc: Global, words: &str) -> Result<String, Fail> {
    let (number, handle) = first(words);
    let id = Id::Number(i64::from(size(number)));
    body_of(alloc, &given(alloc, id, size(handle))?)
}
