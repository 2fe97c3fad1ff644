//! What is tested of a value before it is written.

ghost use Rattle.std.specs.Prelude.{◌≡◌, ◌↔◌, ◌≤◌, IsTrue};
ghost use Rattle.wire_base.specs.Tree.{trees_of, pairs_of};
ghost use Rattle.wire_base.specs.Values.{nesting, nestings, pair_nestings, holds_bytes, items_hold_bytes, pairs_hold_bytes};

use crate::datum::{Datum, DatumList, Node, PairList};

/// Whether arrays and maps stand in one another at most so deep.
#[cycle(nests)]
pub fn nests_within(value: &Datum, depth: u32) -> bool
    ensures { IsTrue result ↔ (nesting value.now ≤ depth) }
{
    match &value.node {
        Node::Items(items) => depth > 0 && items_nest_within(items, depth - 1),
        Node::Pairs(pairs) => depth > 0 && pairs_nest_within(pairs, depth - 1),
        _ => true,
    }
}

#[cycle(nests)]
fn items_nest_within(items: &DatumList, depth: u32) -> bool
    ensures { IsTrue result ↔ (nestings (trees_of items.now) ≤ depth) }
{
    for item in items.as_slice() {
        if !nests_within(item, depth) {
            return false;
        }
    }
    true
}

#[cycle(nests)]
fn pairs_nest_within(pairs: &PairList, depth: u32) -> bool
    ensures { IsTrue result ↔ (pair_nestings (pairs_of pairs.now) ≤ depth) }
{
    for pair in pairs.as_slice() {
        if !nests_within(&pair.1, depth) {
            return false;
        }
    }
    true
}

/// Whether a value is bytes or has bytes in it.
#[cycle(bytes)]
#[tactic(auto, using(crate::proofs::Walks::walks))]
pub fn holds_bytes(value: &Datum) -> bool
    ensures { result ≡ holds_bytes value.now }
{
    match &value.node {
        Node::Bytes(_) => true,
        Node::Items(items) => items_hold_bytes(items),
        Node::Pairs(pairs) => pairs_hold_bytes(pairs),
        _ => false,
    }
}

#[cycle(bytes)]
#[tactic(auto, using(crate::proofs::Walks::walks))]
fn items_hold_bytes(items: &DatumList) -> bool
    ensures { result ≡ items_hold_bytes (trees_of items.now) }
{
    for item in items.as_slice() {
        if holds_bytes(item) {
            return true;
        }
    }
    false
}

#[cycle(bytes)]
#[tactic(auto, using(crate::proofs::Walks::walks))]
fn pairs_hold_bytes(pairs: &PairList) -> bool
    ensures { result ≡ pairs_hold_bytes (pairs_of pairs.now) }
{
    for pair in pairs.as_slice() {
        if holds_bytes(&pair.1) {
            return true;
        }
    }
    false
}
