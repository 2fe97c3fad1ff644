//! JSON texts of a script. A text that isn't of its form is read as nothing.

ghost use Rattle.std.specs.Prelude.{◌≡◌, map, IfOk};
ghost use Rattle.text_words.specs.Json.{json_in, json_id_in, string_in, array_in, arguments_in, arg_of, marked_in, marked, progress_in, object_in, object_of, handed_in, natural_in, natural_of, lifetime_in};

use json_value::JsonFault;
use rpc_items::{Arg, ArgList, Arguments, Lifetime};
use std::alloc::Global;
use wire_base::{Datum, DatumList, Id, Node, OutOfMemory, Text, Whole};

/// The value that a text is, where each number in it is a whole one.
#[tactic(auto, unfolding(crate::specs::Json::json_in))]
pub fn json(alloc: Global, text: &str) -> Result<Option<Datum>, OutOfMemory>
    ensures { IfOk result (λ o. o ≡ json_in text.now) }
{
    match json_value::read(alloc, text.as_bytes()) {
        Ok(value) => Ok(Some(value)),
        Err(JsonFault::NotJson | JsonFault::Float) => Ok(None),
        Err(JsonFault::OutOfMemory) => Err(OutOfMemory),
    }
}

/// The id that a word is.
#[tactic(auto, unfolding(crate::specs::Json::json_id_in))]
pub fn json_id(alloc: Global, word: &str) -> Result<Option<Id>, OutOfMemory>
    ensures { IfOk result (λ o. o ≡ json_id_in word.now) }
{
    match json(alloc, word)? {
        Some(value) => rpc_message::id_in(alloc, &value),
        None => Ok(None),
    }
}

/// The text that a JSON string is.
#[tactic(auto, unfolding(crate::specs::Json::string_in))]
pub fn string(alloc: Global, text: &str) -> Result<Option<Text>, OutOfMemory>
    ensures { IfOk result (λ o. o ≡ string_in text.now) }
{
    let Some(value) = json(alloc, text)? else {
        return Ok(None);
    };
    match value.node {
        Node::Words(text) => Ok(Some(text)),
        _ => Ok(None),
    }
}

/// The values of the JSON array that a text is.
#[tactic(auto, unfolding(crate::specs::Json::array_in))]
pub fn array(alloc: Global, text: &str) -> Result<Option<DatumList>, OutOfMemory>
    ensures { IfOk result (λ o. o ≡ array_in text.now) }
{
    let Some(value) = json(alloc, text)? else {
        return Ok(None);
    };
    match value.node {
        Node::Items(values) => Ok(Some(values)),
        _ => Ok(None),
    }
}

/// The number, if it is from 0 up.
#[tactic(auto, using(crate::proofs::Naturals::natural_from_try))]
fn natural(number: Whole) -> Option<u64>
    ensures { result ≡ natural_of number }
{
    u64::try_from(number.get()).ok()
}

/// The number from 0 up that a value is.
fn natural_in(value: &Datum) -> Option<u64>
    ensures { result ≡ natural_in value.now }
{
    match &value.node {
        Node::Whole(number) => natural(*number),
        _ => None,
    }
}

fn lifetime(name: &str) -> Option<Lifetime>
    ensures { result ≡ lifetime_in name.now }
{
    match name {
        "call" => Some(Lifetime::Call),
        "explicit" => Some(Lifetime::Explicit),
        _ => None,
    }
}

fn progress(value: &Datum) -> Option<Arg>
    ensures { result ≡ progress_in value.now }
{
    match &value.node {
        Node::Flag(true) => Some(Arg::Progress),
        _ => None,
    }
}

/// The object that its number and the name of its lifetime tell.
fn object_of(number: &Datum, name: &Datum) -> Option<Arg>
    ensures { result ≡ object_of number.now name.now }
{
    let number = natural_in(number)?;
    match &name.node {
        Node::Words(name) => Some(Arg::Object(number, lifetime(name.as_str())?)),
        _ => None,
    }
}

fn object(value: &Datum) -> Option<Arg>
    ensures { result ≡ object_in value.now }
{
    let Node::Items(values) = &value.node else {
        return None;
    };
    match values.as_slice() {
        [number, name] => object_of(number, name),
        _ => None,
    }
}

fn handed(value: &Datum) -> Option<Arg>
    ensures { result ≡ handed_in value.now }
{
    Some(Arg::Handed(natural_in(value)?))
}

/// What a map of one member stands for, if it stands for more than itself: `{"$progress":true}`, `{"$object":[n,"call"]}`,
/// `{"$object":[n,"explicit"]}` and `{"$handed":h}`.
fn marked(key: &str, value: &Datum) -> Option<Arg>
    ensures { result ≡ marked key.now value.now }
{
    match key {
        "$progress" => progress(value),
        "$object" => object(value),
        "$handed" => handed(value),
        _ => None,
    }
}

/// The marked argument that a value stands for, if it does.
fn marked_in(value: &Datum) -> Option<Arg>
    ensures { result ≡ marked_in value.now }
{
    let Node::Pairs(members) = &value.node else {
        return None;
    };
    match members.as_slice() {
        [(key, value)] => marked(key.as_str(), value),
        _ => None,
    }
}

/// The argument that an element stands for: its copy, if it stands for nothing more than itself.
fn argument(alloc: Global, value: &Datum) -> Result<Arg, OutOfMemory>
    ensures { IfOk result (λ a. a ≡ arg_of value.now) }
{
    match marked_in(value) {
        Some(arg) => Ok(arg),
        None => Ok(Arg::Plain(value.copy(alloc)?)),
    }
}

/// The arguments in order that elements stand for.
fn arguments_of(alloc: Global, values: &DatumList) -> Result<ArgList, OutOfMemory>
    ensures { IfOk result (λ args. args ≡ map arg_of values.now) }
{
    let mut args = ArgList::new(alloc);
    for value in values.as_slice() {
        args.push(argument(alloc, value)?)?;
    }
    Ok(args)
}

/// The arguments of a call: `-` for none, an array for those in order, an object for those by name.
#[tactic(auto, unfolding(crate::specs::Json::arguments_in))]
pub fn arguments(alloc: Global, text: &str) -> Result<Option<Arguments>, OutOfMemory>
    ensures { IfOk result (λ o. o ≡ arguments_in text.now) }
{
    if text == "-" {
        return Ok(Some(Arguments::Absent));
    }
    let Some(value) = json(alloc, text)? else {
        return Ok(None);
    };
    match value.node {
        Node::Items(values) => Ok(Some(Arguments::List(arguments_of(alloc, &values)?))),
        Node::Pairs(members) => Ok(Some(Arguments::Named(members))),
        _ => Ok(None),
    }
}
