ghost use Rattle.std.specs.Prelude.{◌≡◌, ◌≤◌, ◌<◌, ◌++◌, ◌↔◌, length, IsTrue, OnOk, OnErr, IsErrOf, true, false};
ghost use Rattle.wire_base.specs.Tree.{trees_of, pairs_of};
ghost use Rattle.wire_base.specs.Appends.{AppendsFront};
ghost use Rattle.wire_base.specs.Values.{max_nesting, nesting};
ghost use Rattle.wire_base.specs.Shortest.{bin_head};
ghost use Rattle.pack_value.specs.Spelling.{IsSpelling, max_len};
ghost use Rattle.pack_value.specs.Shortest.{IsText, IsEntry, entry_fits, shortest_entry, IsValue, AreValues, ArePairs, lengths_fit, item_lengths_fit, pair_lengths_fit, shortest, shortest_items, shortest_pairs, text};

use crate::encode_fault::EncodeFault;
use crate::limits::MAX_LEN;
use wire_base::{
    Datum, DatumList, MAX_NESTING, Node, OutOfMemory, PairList, Text, nests_within,
    push_array_head, push_bin_head, push_map_head, push_str_head, push_whole,
};

fn text_fits(text: &Text) -> bool
    ensures exact { IsTrue result ↔ (length text.now ≤ max_len) }
    ensures valid { IsTrue result → IsText text.now }
{
    text.as_str().len() <= MAX_LEN as usize
}

/// Whether no text, bytes, array or map is too long.
#[cycle(fit)]
#[tactic(auto, using(crate::proofs::Lists::fits))]
fn fits(value: &Datum) -> bool
    ensures exact { result ≡ lengths_fit value.now }
    ensures valid { IsTrue result → IsValue value.now }
{
    match &value.node {
        Node::Nil => true,
        Node::Flag(_) => true,
        Node::Whole(whole) => {
            let _ = whole.get();
            true
        }
        Node::Words(text) => text_fits(text),
        Node::Bytes(blob) => blob.as_bytes().len() <= MAX_LEN as usize,
        Node::Items(items) => items.len() <= MAX_LEN as usize && items_fit(items),
        Node::Pairs(pairs) => pairs.len() <= MAX_LEN as usize && pairs_fit(pairs),
    }
}

#[cycle(fit)]
#[tactic(auto, using(crate::proofs::Lists::fits))]
fn items_fit(items: &DatumList) -> bool
    ensures exact { result ≡ item_lengths_fit (trees_of items.now) }
    ensures valid { IsTrue result → AreValues (trees_of items.now) }
{
    for item in items.as_slice() {
        if !fits(item) {
            return false;
        }
    }
    true
}

#[cycle(fit)]
#[tactic(auto, using(crate::proofs::Lists::fits))]
fn pairs_fit(pairs: &PairList) -> bool
    ensures exact { result ≡ pair_lengths_fit (pairs_of pairs.now) }
    ensures valid { IsTrue result → ArePairs (pairs_of pairs.now) }
{
    for pair in pairs.as_slice() {
        if !pair_fits(pair) {
            return false;
        }
    }
    true
}

#[cycle(fit)]
#[tactic(auto, using(crate::proofs::Lists::fits))]
fn pair_fits(pair: &(Text, Datum)) -> bool
    ensures exact { result ≡ entry_fits pair.now }
    ensures valid { IsTrue result → IsEntry pair.now }
{
    text_fits(&pair.0) && fits(&pair.1)
}

#[tactic(auto, using(wire_base::proofs::AppendsLemmas::appends))]
fn put_text(s: &[u8], out: &mut Vec<u8>) -> Result<(), OutOfMemory>
    requires { length s.now ≤ max_len }
    ensures ok { OnOk result (out.new.items ≡ out.old.items ++ text s.now) }
    ensures err { OnErr result (AppendsFront out.old.items out.new.items (text s.now)) }
{
    push_str_head(out, s.len() as u32)?;
    out.extend_from_slice(s)?;
    Ok(())
}

#[tactic(auto, using(wire_base::proofs::AppendsLemmas::appends))]
fn put_bytes(s: &[u8], out: &mut Vec<u8>) -> Result<(), OutOfMemory>
    requires { length s.now ≤ max_len }
    ensures ok { OnOk result (out.new.items ≡ out.old.items ++ (bin_head (length s.now) ++ s.now)) }
    ensures err { OnErr result (AppendsFront out.old.items out.new.items (bin_head (length s.now) ++ s.now)) }
{
    push_bin_head(out, s.len() as u32)?;
    out.extend_from_slice(s)?;
    Ok(())
}

#[cycle(put)]
#[tactic(auto, using(crate::proofs::Lists::puts))]
fn put_items(items: &DatumList, out: &mut Vec<u8>) -> Result<(), OutOfMemory>
    requires { item_lengths_fit (trees_of items.now) ≡ true }
    ensures ok { OnOk result (out.new.items ≡ out.old.items ++ shortest_items (trees_of items.now)) }
    ensures err { OnErr result (AppendsFront out.old.items out.new.items (shortest_items (trees_of items.now))) }
{
    for item in items.as_slice() {
        put_value(item, out)?;
    }
    Ok(())
}

#[cycle(put)]
#[tactic(auto, using(crate::proofs::Lists::puts))]
fn put_pairs(pairs: &PairList, out: &mut Vec<u8>) -> Result<(), OutOfMemory>
    requires { pair_lengths_fit (pairs_of pairs.now) ≡ true }
    ensures ok { OnOk result (out.new.items ≡ out.old.items ++ shortest_pairs (pairs_of pairs.now)) }
    ensures err { OnErr result (AppendsFront out.old.items out.new.items (shortest_pairs (pairs_of pairs.now))) }
{
    for pair in pairs.as_slice() {
        put_pair(pair, out)?;
    }
    Ok(())
}

#[cycle(put)]
#[tactic(auto, using(crate::proofs::Lists::puts))]
fn put_pair(pair: &(Text, Datum), out: &mut Vec<u8>) -> Result<(), OutOfMemory>
    requires { entry_fits pair.now ≡ true }
    ensures ok { OnOk result (out.new.items ≡ out.old.items ++ shortest_entry pair.now) }
    ensures err { OnErr result (AppendsFront out.old.items out.new.items (shortest_entry pair.now)) }
{
    put_text(pair.0.as_str().as_bytes(), out)?;
    put_value(&pair.1, out)?;
    Ok(())
}

#[cycle(put)]
#[tactic(auto, using(crate::proofs::Lists::puts), unfolding(crate::specs::Shortest::flag_byte))]
fn put_value(value: &Datum, out: &mut Vec<u8>) -> Result<(), OutOfMemory>
    requires { lengths_fit value.now ≡ true }
    ensures ok { OnOk result (out.new.items ≡ out.old.items ++ shortest value.now) }
    ensures err { OnErr result (AppendsFront out.old.items out.new.items (shortest value.now)) }
{
    match &value.node {
        Node::Nil => out.push(0xc0)?,
        Node::Flag(flag) => out.push(if *flag { 0xc3 } else { 0xc2 })?,
        Node::Whole(whole) => push_whole(out, *whole)?,
        Node::Words(text) => put_text(text.as_str().as_bytes(), out)?,
        Node::Bytes(blob) => put_bytes(blob.as_bytes(), out)?,
        Node::Items(items) => {
            push_array_head(out, items.len() as u32)?;
            put_items(items, out)?;
        }
        Node::Pairs(pairs) => {
            push_map_head(out, pairs.len() as u32)?;
            put_pairs(pairs, out)?;
        }
    }
    Ok(())
}

/// Appends the shortest spelling of a value.
#[tactic(auto, using(wire_base::proofs::AppendsLemmas::front_is_kept))]
pub fn encode(value: &Datum, out: &mut Vec<u8>) -> Result<(), EncodeFault>
    ensures ok { OnOk result (out.new.items ≡ out.old.items ++ shortest value.now) }
    ensures valid { OnOk result (IsValue value.now) }
    ensures spelled { OnOk result (IsSpelling value.now (shortest value.now)) }
    ensures deep { IsErrOf result EncodeFault.TooDeep ↔ (max_nesting < nesting value.now) }
    ensures long { IsErrOf result EncodeFault.TooLong ↔ (nesting value.now ≤ max_nesting) × (lengths_fit value.now ≡ false) }
    ensures err { OnErr result (out.new.items ≡ out.old.items) }
{
    if !nests_within(value, MAX_NESTING) {
        return Err(EncodeFault::TooDeep);
    }
    if !fits(value) {
        return Err(EncodeFault::TooLong);
    }
    let len = out.len();
    if put_value(value, out).is_err() {
        out.truncate(len);
        return Err(EncodeFault::OutOfMemory);
    }
    Ok(())
}
