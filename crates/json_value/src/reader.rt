ghost use Rattle.std.specs.Prelude.{◌≡◌, IfOk, IsErrOf};
ghost use Rattle.serde_json.specs.View.{view, items_view, members_view, number_view};
ghost use Rattle.json_value.specs.Reading.{whole_of, tree_of, tree_list, pair_list, IsReading, HasNoReading, HasFloat};

use crate::fault::JsonFault;
use serde_json::{Map, Number, Value};
use std::alloc::Global;
use wire_base::{Datum, DatumList, Node, OutOfMemory, PairList, Text, Whole};

/// The number as a whole one, if it is one of 64 bits.
fn whole_of(number: &Number) -> Option<Whole>
    ensures { result ≡ whole_of (number_view number.now) }
{
    match number.as_i64() {
        Some(n) => Some(Whole::from_i64(n)),
        None => number.as_u64().map(Whole::from_u64),
    }
}

/// The value, or none where a number in it is no whole one.
#[cycle(turn)]
fn datum_of(alloc: Global, value: &Value) -> Result<Option<Datum>, OutOfMemory>
    ensures { IfOk result (λ d. d ≡ tree_of (view value.now)) }
{
    let node = match value {
        Value::Null => Node::Nil,
        Value::Bool(flag) => Node::Flag(*flag),
        Value::Number(number) => {
            let Some(whole) = whole_of(number) else {
                return Ok(None);
            };
            Node::Whole(whole)
        }
        Value::String(text) => Node::Words(Text::from_str(alloc, text.as_str())?),
        Value::Array(items) => {
            let Some(items) = items_of(alloc, items)? else {
                return Ok(None);
            };
            Node::Items(items)
        }
        Value::Object(members) => {
            let Some(pairs) = pairs_of(alloc, members)? else {
                return Ok(None);
            };
            Node::Pairs(pairs)
        }
    };
    Ok(Some(Datum { node }))
}

#[cycle(turn)]
fn items_of(alloc: Global, values: &Vec<Value>) -> Result<Option<DatumList>, OutOfMemory>
    ensures { IfOk result (λ d. d ≡ tree_list (items_view values.now.items)) }
{
    let mut items = DatumList::new(alloc);
    for value in values {
        let Some(item) = datum_of(alloc, value)? else {
            return Ok(None);
        };
        items.push(item)?;
    }
    Ok(Some(items))
}

#[cycle(turn)]
fn pairs_of(alloc: Global, members: &Map<String, Value>) -> Result<Option<PairList>, OutOfMemory>
    ensures { IfOk result (λ d. d ≡ pair_list (members_view members.now.entries)) }
{
    let mut pairs = PairList::new(alloc);
    for (key, member) in members.iter() {
        let key = Text::from_str(alloc, key.as_str())?;
        let Some(value) = datum_of(alloc, member)? else {
            return Ok(None);
        };
        pairs.push((key, value))?;
    }
    Ok(Some(pairs))
}

/// Reads bytes that are JSON of one value.
pub fn read(alloc: Global, bytes: &[u8]) -> Result<Datum, JsonFault>
    ensures value { IfOk result (λ v. IsReading bytes.now v) }
    ensures not_json { IsErrOf result JsonFault.NotJson → HasNoReading bytes.now }
    ensures float { IsErrOf result JsonFault.Float → HasFloat bytes.now }
{
    let value = match Value::from_slice(alloc, bytes) {
        Ok(value) => value,
        Err(e) if e.is_memory() => return Err(JsonFault::OutOfMemory),
        Err(_) => return Err(JsonFault::NotJson),
    };
    match datum_of(alloc, &value) {
        Ok(Some(datum)) => Ok(datum),
        Ok(None) => Err(JsonFault::Float),
        Err(_) => Err(JsonFault::OutOfMemory),
    }
}
