ghost use Rattle.std.specs.Prelude.{◌≡◌, ◌↔◌, ◌<◌, ◌≤◌, ◌++◌, false, true, string_bytes, IsUtf8, IfOk, OnOk, OnErr, IsErrOf};
ghost use Rattle.wire_base.specs.Tree.{trees_of, pairs_of, no_pairs};
ghost use Rattle.serde_json.specs.Data.{put as put_member};
ghost use Rattle.serde_json.specs.Find.{of_integer};
ghost use Rattle.serde_json.specs.View.{view, items_view, members_view, number_view};
ghost use Rattle.wire_base.specs.Values.{max_nesting, nesting, holds_bytes};
ghost use Rattle.json_value.specs.Normal.{norm, norm_items, norm_onto};
ghost use Rattle.json_value.specs.Json.{hex_text, shown_bytes, data_of, data_items, data_members, shown, json_text};
ghost use Rattle.json_value.specs.Reading.{IsReading};
ghost use Rattle.json_value.specs.Value.{IsValue, AreValues, ArePairs};

use crate::fault::JsonWrite;
use serde_json::{Map, Number, Value};
use std::alloc::Global;
use wire_base::{
    Datum, DatumList, MAX_NESTING, Node, OutOfMemory, PairList, Whole, holds_bytes, nests_within,
};

/// The member by which bytes are shown.
const BYTES_KEY: &str = "$bytes";

fn number_of(whole: Whole) -> Number
    ensures { number_view result ≡ of_integer whole }
{
    match Number::from_i128(whole.get()) {
        Some(number) => number,
        None => unreachable!(),
    }
}

/// One member more, instead of one with its key.
#[tactic(auto, using(crate::proofs::Writings::puts))]
fn put(
    alloc: Global,
    members: &mut Map<String, Value>,
    key: &str,
    value: Value,
) -> Result<(), OutOfMemory>
    ensures { OnOk result (members_view members.new.entries
        ≡ put_member key.now (view value) (members_view members.old.entries)) }
{
    let key = String::from_str(alloc, key)?;
    drop(members.insert(key, value)?);
    Ok(())
}

/// Bytes in hex, and `-` for none.
fn hex_of(alloc: Global, bytes: &[u8]) -> Result<String, OutOfMemory>
    ensures { IfOk result (λ s. string_bytes s ≡ hex_text bytes.now) }
{
    match bytes {
        [] => Ok(String::from_str(alloc, "-")?),
        [_, ..] => Ok(hex::encode(alloc, bytes)?),
    }
}

fn value_of_bytes(alloc: Global, bytes: &[u8]) -> Result<Value, OutOfMemory>
    ensures { IfOk result (λ v. view v ≡ shown_bytes bytes.now) }
{
    let mut members = Map::new(alloc);
    put(
        alloc,
        &mut members,
        BYTES_KEY,
        Value::String(hex_of(alloc, bytes)?),
    )?;
    Ok(Value::Object(members))
}

/// The value as the crate has it, with its maps in normal form.
#[cycle(back)]
#[tactic(auto, using(wire_base::proofs::Walks::walks))]
fn value_of(alloc: Global, value: &Datum) -> Result<Value, OutOfMemory>
    ensures same { IfOk result (λ v. view v ≡ data_of (norm value.now)) }
    ensures valid { OnOk result (IsValue value.now) }
{
    match &value.node {
        Node::Nil => Ok(Value::Null),
        Node::Flag(flag) => Ok(Value::Bool(*flag)),
        Node::Whole(whole) => Ok(Value::Number(number_of(*whole))),
        Node::Words(text) => Ok(Value::String(String::from_str(alloc, text.as_str())?)),
        Node::Bytes(blob) => value_of_bytes(alloc, blob.as_bytes()),
        Node::Items(items) => Ok(Value::Array(values_of(alloc, items)?)),
        Node::Pairs(pairs) => Ok(Value::Object(members_of(alloc, pairs)?)),
    }
}

#[cycle(back)]
#[tactic(auto, using(wire_base::proofs::Walks::walks))]
fn values_of(alloc: Global, items: &DatumList) -> Result<Vec<Value>, OutOfMemory>
    ensures same { IfOk result (λ v. items_view v.items ≡ data_items (norm_items (trees_of items.now))) }
    ensures valid { OnOk result (AreValues (trees_of items.now)) }
{
    let mut values = Vec::new(alloc);
    for item in items.as_slice() {
        let value = value_of(alloc, item)?;
        values.push(value)?;
    }
    Ok(values)
}

#[cycle(back)]
#[tactic(auto, using(wire_base::proofs::Walks::walks))]
fn members_of(alloc: Global, pairs: &PairList) -> Result<Map<String, Value>, OutOfMemory>
    ensures same { IfOk result (λ m. members_view m.entries
        ≡ data_members (norm_onto no_pairs (pairs_of pairs.now))) }
    ensures valid { OnOk result (ArePairs (pairs_of pairs.now)) }
{
    let mut members = Map::new(alloc);
    for pair in pairs.as_slice() {
        let value = value_of(alloc, &pair.1)?;
        put(alloc, &mut members, pair.0.as_str(), value)?;
    }
    Ok(members)
}

/// The text that shows a value.
#[tactic(auto, using(crate::proofs::ReadsBack::texts))]
fn text_of(alloc: Global, value: &Datum) -> Result<Vec<u8>, OutOfMemory>
    ensures text { IfOk result (λ b. b.items ≡ shown value.now) }
    ensures valid { OnOk result (IsValue value.now) }
    ensures utf8 { OnOk result (IsUtf8 (shown value.now)) }
    ensures reads_back { OnOk result (nesting value.now ≤ max_nesting → holds_bytes value.now ≡ false
        → IsReading (shown value.now) (norm value.now)) }
{
    let value = value_of(alloc, value)?;
    Ok(value.to_vec(alloc)?)
}

/// Appends the text that shows a value: its JSON text, in which bytes are an object `{"$bytes":HEX}`.
pub fn show(alloc: Global, value: &Datum, out: &mut Vec<u8>) -> Result<(), OutOfMemory>
    ensures ok { OnOk result (out.new.items ≡ out.old.items ++ shown value.now) }
    ensures valid { OnOk result (IsValue value.now) }
    ensures utf8 { OnOk result (IsUtf8 (shown value.now)) }
    ensures reads_back { OnOk result (nesting value.now ≤ max_nesting → holds_bytes value.now ≡ false
        → IsReading (shown value.now) (norm value.now)) }
    ensures err { OnErr result (out.new.items ≡ out.old.items) }
{
    let text = text_of(alloc, value)?;
    out.extend_from_slice(&text)?;
    Ok(())
}

/// Appends the JSON text of a value: compact, the members of each object in byte order of their keys, and of a
/// repeated key the last.
pub fn write(alloc: Global, value: &Datum, out: &mut Vec<u8>) -> Result<(), JsonWrite>
    ensures ok { OnOk result (out.new.items ≡ out.old.items ++ json_text value.now) }
    ensures valid { OnOk result (IsValue value.now) }
    ensures reads_back { OnOk result (IsReading (json_text value.now) (norm value.now)) }
    ensures deep { IsErrOf result JsonWrite.TooDeep ↔ (max_nesting < nesting value.now) }
    ensures bytes { IsErrOf result JsonWrite.BytesInJson
        ↔ (nesting value.now ≤ max_nesting) × (holds_bytes value.now ≡ true) }
    ensures err { OnErr result (out.new.items ≡ out.old.items) }
{
    if !nests_within(value, MAX_NESTING) {
        return Err(JsonWrite::TooDeep);
    }
    if holds_bytes(value) {
        return Err(JsonWrite::BytesInJson);
    }
    match show(alloc, value, out) {
        Ok(()) => Ok(()),
        Err(_) => Err(JsonWrite::OutOfMemory),
    }
}
