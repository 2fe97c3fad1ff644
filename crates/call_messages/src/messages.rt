//! Messages that calls say.

ghost use Rattle.call_messages.specs.Messages.{is_plain_answer, release_message};
ghost use Rattle.rpc_items.specs.Arguments.{most_drawn};
ghost use Rattle.rpc_items.specs.Drawn.{arg_list};
ghost use Rattle.rpc_items.specs.Ids.{count_value, id_value, numbered_id};
ghost use Rattle.rpc_items.specs.Made.{made_in};
ghost use Rattle.rpc_items.specs.Methods.{cancel_request, progress, proxy_method};
ghost use Rattle.rpc_items.specs.Objects.{object_value};
ghost use Rattle.rpc_items.specs.Saying.{abort_message, params_of, response, turn_message};
ghost use Rattle.rpc_items.specs.declared.calls.Lifetime.TheVariants.{Explicit};
ghost use Rattle.std.specs.Prelude.{◌≡◌, ◌≤◌, ◌+◌, ◌∷◌, [], codes, IfOk, None, length, true};

use crate::arguments::params_of;
use crate::objects::{count, object_value};
use itoa::Buffer;
use rpc_items::{Answer, Arguments, HandleKey, Lifetime, Message, Params};
use rpc_methods::{ABORT_PAGES, CANCEL_REQUEST, INVOKE_PROXY, NEXT_PAGE, PROGRESS, RELEASE_OBJECT};
use std::alloc::Global;
use wire_base::{Datum, Id, Node, OutOfMemory, PairList, Text, Whole};

/// A request, where so many handles were drawn before.
pub fn request(
    alloc: Global,
    number: u64,
    handles: u64,
    method: &Text,
    args: &Arguments,
) -> Result<Message, OutOfMemory>
    requires drawn { number ≤ most_drawn }
    requires handles { handles + length (made_in None (arg_list args.now)) ≤ most_drawn }
    ensures { IfOk result (λ message. message ≡ Message.Request (numbered_id number) method.now (params_of number handles args.now)) }
{
    let method = method.copy(alloc)?;
    let params = params_of(alloc, number, handles, args)?;
    Ok(Message::Request(Id::Number(number as i64), method, params))
}

/// A notification, where so many handles were drawn before.
pub fn notification(
    alloc: Global,
    handles: u64,
    method: &Text,
    args: &Arguments,
) -> Result<Message, OutOfMemory>
    requires { handles + length (made_in None (arg_list args.now)) ≤ most_drawn }
    ensures { IfOk result (λ message. message ≡ Message.Notification method.now (params_of 0 handles args.now)) }
{
    let method = method.copy(alloc)?;
    let params = params_of(alloc, 0, handles, args)?;
    Ok(Message::Notification(method, params))
}

/// The method of a call on a handle of the peer.
pub fn proxy_name(alloc: Global, handle: u64, method: &Text) -> Result<Text, OutOfMemory>
    ensures { IfOk result (λ name. name ≡ proxy_method handle method.now) }
{
    let mut name = String::new(alloc);
    name.push_str(INVOKE_PROXY)?;
    name.push_str(Buffer::new().format(handle))?;
    name.push('/')?;
    name.push_str(method.as_str())?;
    Text::from_str(alloc, name.as_str())
}

/// A notification that releases a handle.
pub fn release(alloc: Global, key: HandleKey) -> Result<Message, OutOfMemory>
    ensures { IfOk result (λ message. message ≡ release_message key) }
{
    let mut members = PairList::new(alloc);
    members.push((Text::from_str(alloc, "handle")?, count(key.number)))?;
    members.push((
        Text::from_str(alloc, "ownedBySender")?,
        Datum {
            node: Node::Flag(key.own),
        },
    ))?;
    let method = Text::from_str(alloc, RELEASE_OBJECT)?;
    Ok(Message::Notification(method, Params::Named(members)))
}

/// A notification that gives a request up.
pub fn cancellation(alloc: Global, n: u64) -> Result<Message, OutOfMemory>
    ensures { IfOk result (λ message. message ≡ Message.Notification cancel_request (Params.Named ((codes "id", count_value n) ∷ []))) }
{
    let mut members = PairList::new(alloc);
    members.push((Text::from_str(alloc, "id")?, count(n)))?;
    let method = Text::from_str(alloc, CANCEL_REQUEST)?;
    Ok(Message::Notification(method, Params::Named(members)))
}

/// A notification that reports this by this token.
pub fn report(alloc: Global, token: &Id, value: &Datum) -> Result<Message, OutOfMemory>
    ensures { IfOk result (λ message. message ≡ Message.Notification progress (Params.Named ((codes "token", id_value token.now) ∷ (codes "value", value.now) ∷ []))) }
{
    let mut members = PairList::new(alloc);
    members.push((Text::from_str(alloc, "token")?, token_value(alloc, token)?))?;
    members.push((Text::from_str(alloc, "value")?, value.copy(alloc)?))?;
    let method = Text::from_str(alloc, PROGRESS)?;
    Ok(Message::Notification(method, Params::Named(members)))
}

/// A request of this number for the next page of the sequence with this token.
pub fn turn(alloc: Global, number: u64, token: &Id) -> Result<Message, OutOfMemory>
    requires { number ≤ most_drawn }
    ensures { IfOk result (λ message. message ≡ turn_message number token.now) }
{
    let method = Text::from_str(alloc, NEXT_PAGE)?;
    Ok(Message::Request(
        Id::Number(number as i64),
        method,
        token_params(alloc, token)?,
    ))
}

/// A notification that gives the sequence with this token up.
pub fn abort(alloc: Global, token: &Id) -> Result<Message, OutOfMemory>
    ensures { IfOk result (λ message. message ≡ abort_message token.now) }
{
    let method = Text::from_str(alloc, ABORT_PAGES)?;
    Ok(Message::Notification(method, token_params(alloc, token)?))
}

/// The parameters that are a token.
fn token_params(alloc: Global, token: &Id) -> Result<Params, OutOfMemory>
    ensures { IfOk result (λ params. params ≡ Params.Named ((codes "token", id_value token.now) ∷ [])) }
{
    let mut members = PairList::new(alloc);
    members.push((Text::from_str(alloc, "token")?, token_value(alloc, token)?))?;
    Ok(Params::Named(members))
}

/// A token as a value.
fn token_value(alloc: Global, token: &Id) -> Result<Datum, OutOfMemory>
    ensures { IfOk result (λ value. value ≡ id_value token.now) }
{
    match token {
        Id::Number(n) => Ok(Datum {
            node: Node::Whole(Whole::from_i64(*n)),
        }),
        Id::Name(name) => Ok(Datum {
            node: Node::Words(name.copy(alloc)?),
        }),
    }
}

/// A response with a value or an error.
pub fn response(alloc: Global, id: &Id, answer: Answer) -> Result<Message, OutOfMemory>
    requires { is_plain_answer answer ≡ true }
    ensures { IfOk result (λ message. message ≡ response id.now answer []) }
{
    let id = id.copy(alloc)?;
    match answer {
        Answer::Value(value) => Ok(Message::Result(id, value)),
        Answer::Fault(code, text, more) => Ok(Message::Error(Some(id), code, text, more)),
        Answer::Object(_) | Answer::Sequence(_, _, _) => unreachable!(),
    }
}

/// A response with an object that gets this handle, until it is released.
pub fn object_response(alloc: Global, id: &Id, handle: u64) -> Result<Message, OutOfMemory>
    ensures { IfOk result (λ message. message ≡ Message.Result id.now (object_value handle Explicit)) }
{
    let id = id.copy(alloc)?;
    let object = object_value(alloc, handle, Lifetime::Explicit)?;
    Ok(Message::Result(id, object))
}
