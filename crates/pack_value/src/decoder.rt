ghost use Rattle.std.specs.Prelude.{◌≡◌, ◌≤◌, ◌+◌, ◌++◌, ℕ, List, length};
ghost use Rattle.wire_base.specs.Tree.{Tree};
ghost use Rattle.wire_base.specs.View.{tree_of};
ghost use Rattle.wire_base.specs.Head.{kind_of, lettered};
ghost use Rattle.wire_base.specs.declared.reason.Reason.{Reason};
ghost use Rattle.pack_value.specs.Spelling.{IsSpelling};
ghost use Rattle.pack_value.specs.Tokens.{IsRefused, opens, value, key};
ghost use Rattle.wire_base.specs.Tokens.{Gives, is_str};
ghost use Rattle.pack_value.specs.Answer.{Answers, IfGot, IfRefused, IfShort, IsAtFront, IsUndecided, step_of, front};
ghost use Rattle.pack_value.specs.Reading.{cut_head, nested_key, run_at, text_at, key_at, items_at, pairs_at, repeat, pair_at, behind, value_at};

use crate::limits::MAX_LEN;
use crate::step::Step;
use std::alloc::Global;
use wire_base::{
    Blob, Datum, DatumList, DecodeError, Fault, HeadStep, MAX_NESTING, MAX_PLACE, Node, PairList,
    Place, Reason, Text, TextFault, TokenHead, head,
};

fn refused(reason: Reason, left: usize) -> DecodeError
    ensures { result ≡ DecodeError.Fault (Fault.Breaks left reason) }
{
    DecodeError::Fault(Fault::Breaks(left, reason))
}

#[tactic(auto, unfolding(crate::specs::Reading::run_at, wire_base::specs::Tokens::bytes_at))]
fn run_of(left: usize, len: u32, rest: &[u8]) -> Result<(&[u8], &[u8]), DecodeError>
    ensures { Gives (λ x. (x.0.now, x.1.now)) result (run_at left len rest.now) }
{
    if len > MAX_LEN {
        return Err(refused(Reason::TooLong, left));
    }
    let len = len as usize;
    if rest.len() < len {
        return Err(DecodeError::Fault(Fault::Ends));
    }
    Ok(rest.split_at(len))
}

#[tactic(auto, unfolding(crate::specs::Reading::text_at))]
fn text_of(alloc: Global, left: usize, len: u32, rest: &[u8]) -> Result<(Text, &[u8]), DecodeError>
    ensures { Gives (λ x. (x.0, x.1.now)) result (text_at left len rest.now) }
{
    let (front, rest) = run_of(left, len, rest)?;
    match Text::from_utf8(alloc, front) {
        Ok(text) => Ok((text, rest)),
        Err(TextFault::BadUtf8) => Err(refused(Reason::BadUtf8, left)),
        Err(TextFault::OutOfMemory) => Err(DecodeError::Memory),
    }
}

/// Whether an array or map begins with this byte.
#[tactic(auto, unfolding(wire_base::specs::Head::lettered))]
fn opens_list(first: u8) -> bool
    ensures { result ≡ opens (kind_of first) }
{
    (0x80 <= first && first < 0xa0) || (0xdc <= first && first < 0xe0)
}

/// Whether a str begins with this byte.
#[tactic(auto, unfolding(wire_base::specs::Head::lettered))]
fn opens_text(first: u8) -> bool
    ensures { result ≡ is_str (kind_of first) }
{
    (0xa0 <= first && first < 0xc0) || (0xd9 <= first && first < 0xdc)
}

/// What the first byte of a head that isn't whole says, in a value's place.
#[tactic(auto, unfolding(crate::specs::Reading::cut_head))]
fn cut_value(depth: u32, bytes: &[u8]) -> Fault
    ensures { result ≡ cut_head (value depth) bytes.now }
{
    let [first, ..] = bytes else {
        return Fault::Ends;
    };
    if depth == 0 && opens_list(*first) {
        Fault::Breaks(bytes.len(), Reason::TooDeep)
    } else {
        Fault::Ends
    }
}

/// The same in a key's place.
#[tactic(auto, unfolding(crate::specs::Reading::cut_head))]
fn cut_key(depth: u32, bytes: &[u8]) -> Fault
    ensures { result ≡ cut_head (key depth) bytes.now }
{
    let [first, ..] = bytes else {
        return Fault::Ends;
    };
    if depth == 0 && opens_list(*first) {
        Fault::Breaks(bytes.len(), Reason::TooDeep)
    } else if opens_text(*first) {
        Fault::Ends
    } else {
        Fault::Breaks(bytes.len(), Reason::KeyNotText)
    }
}

fn nested_key_reason(depth: u32) -> Reason
    ensures { result ≡ nested_key depth }
{
    if depth == 0 {
        Reason::TooDeep
    } else {
        Reason::KeyNotText
    }
}

#[tactic(auto, unfolding(crate::specs::Reading::key_at))]
fn key_of(alloc: Global, depth: u32, bytes: &[u8]) -> Result<(Text, &[u8]), DecodeError>
    ensures { Gives (λ x. (x.0, x.1.now)) result (key_at depth bytes.now) }
{
    match head(bytes) {
        HeadStep::Short => Err(DecodeError::Fault(cut_key(depth, bytes))),
        HeadStep::Refused(reason) => Err(refused(reason, bytes.len())),
        HeadStep::Got(TokenHead::Str(len), n) => text_of(alloc, bytes.len(), len, &bytes[n..]),
        HeadStep::Got(TokenHead::Array(_), _) => Err(refused(
            nested_key_reason(depth),
            bytes.len(),
        )),
        HeadStep::Got(TokenHead::Map(_), _) => Err(refused(nested_key_reason(depth), bytes.len())),
        HeadStep::Got(_, _) => Err(refused(Reason::KeyNotText, bytes.len())),
    }
}

fn datum(node: Node) -> Datum
    ensures { result ≡ tree_of node }
{
    Datum { node }
}

#[cycle(decode)]
fn item_list_of(
    alloc: Global,
    depth: u32,
    count: u32,
    bytes: &[u8],
) -> Result<(DatumList, &[u8]), DecodeError>
    ensures { Gives (λ x. (x.0, x.1.now)) result (repeat (value_at depth) count bytes.now) }
{
    let mut items = DatumList::new(alloc);
    let mut rest = bytes;
    for _ in 0..count {
        let (item, after) = value_of(alloc, depth, rest)?;
        items.push(item)?;
        rest = after;
    }
    Ok((items, rest))
}

#[cycle(decode)]
#[tactic(auto, using(crate::proofs::Levels::levels), unfolding(crate::specs::Reading::behind))]
fn behind_head(
    alloc: Global,
    depth: u32,
    left: usize,
    token: TokenHead,
    rest: &[u8],
) -> Result<(Datum, &[u8]), DecodeError>
    ensures { Gives (λ x. (x.0, x.1.now)) result (behind (items_at depth left) (pairs_at depth left) left token rest.now) }
{
    match token {
        TokenHead::Nil => Ok((datum(Node::Nil), rest)),
        TokenHead::Flag(flag) => Ok((datum(Node::Flag(flag)), rest)),
        TokenHead::Whole(whole) => Ok((datum(Node::Whole(whole)), rest)),
        TokenHead::Str(len) => {
            let (text, rest) = text_of(alloc, left, len, rest)?;
            Ok((datum(Node::Words(text)), rest))
        }
        TokenHead::Bin(len) => {
            let (front, rest) = run_of(left, len, rest)?;
            let blob = Blob::from_bytes(alloc, front)?;
            Ok((datum(Node::Bytes(blob)), rest))
        }
        TokenHead::Array(count) => {
            if depth == 0 {
                return Err(refused(Reason::TooDeep, left));
            }
            if count > MAX_LEN {
                return Err(refused(Reason::TooLong, left));
            }
            let (items, rest) = item_list_of(alloc, depth - 1, count, rest)?;
            Ok((datum(Node::Items(items)), rest))
        }
        TokenHead::Map(count) => {
            if depth == 0 {
                return Err(refused(Reason::TooDeep, left));
            }
            if count > MAX_LEN {
                return Err(refused(Reason::TooLong, left));
            }
            let (pairs, rest) = pair_list_of(alloc, depth - 1, count, rest)?;
            Ok((datum(Node::Pairs(pairs)), rest))
        }
    }
}

#[cycle(decode)]
fn pair_list_of(
    alloc: Global,
    depth: u32,
    count: u32,
    bytes: &[u8],
) -> Result<(PairList, &[u8]), DecodeError>
    ensures { Gives (λ x. (x.0, x.1.now)) result (repeat (pair_at depth (value_at depth)) count bytes.now) }
{
    let mut pairs = PairList::new(alloc);
    let mut rest = bytes;
    for _ in 0..count {
        let (pair, after) = pair_of(alloc, depth, rest)?;
        pairs.push(pair)?;
        rest = after;
    }
    Ok((pairs, rest))
}

#[cycle(decode)]
#[tactic(auto, unfolding(crate::specs::Reading::pair_at))]
fn pair_of(alloc: Global, depth: u32, bytes: &[u8]) -> Result<((Text, Datum), &[u8]), DecodeError>
    ensures { Gives (λ x. (x.0, x.1.now)) result (pair_at depth (value_at depth) bytes.now) }
{
    let (key, rest) = key_of(alloc, depth, bytes)?;
    let (value, rest) = value_of(alloc, depth, rest)?;
    Ok(((key, value), rest))
}

#[cycle(decode)]
#[tactic(auto, using(crate::proofs::Levels::levels))]
fn value_of(alloc: Global, depth: u32, bytes: &[u8]) -> Result<(Datum, &[u8]), DecodeError>
    ensures { Gives (λ x. (x.0, x.1.now)) result (value_at depth bytes.now) }
{
    match head(bytes) {
        HeadStep::Short => Err(DecodeError::Fault(cut_value(depth, bytes))),
        HeadStep::Refused(reason) => Err(refused(reason, bytes.len())),
        HeadStep::Got(token, n) => behind_head(alloc, depth, bytes.len(), token, &bytes[n..]),
    }
}

fn step_at(alloc: Global, bytes: &[u8], at: Place) -> Step
    requires { at.0 ≤ MAX_PLACE }
    ensures { Answers result (step_of at.0 (front bytes.now)) }
{
    match value_of(alloc, MAX_NESTING, bytes) {
        Ok((value, rest)) => Step::Got(value, bytes.len() - rest.len()),
        Err(DecodeError::Memory) => Step::OutOfMemory,
        Err(DecodeError::Fault(Fault::Ends)) => Step::Short,
        Err(DecodeError::Fault(Fault::Breaks(left, reason))) => {
            Step::Refused(Place(at.0 + (bytes.len() - left) as u64), reason)
        }
    }
}

/// The value at the front of the bytes, which begin at this place of a stream. Bytes may follow it. Each byte of the
/// value is read once, and the stack grows with the nesting alone.
pub fn decode(alloc: Global, bytes: &[u8], at: Place) -> Step
    requires { at.0 ≤ MAX_PLACE }
    // What is got is spelled so.
    ensures got { IfGot result (IsAtFront bytes.now) }
    // What is spelled so is got, unless memory runs out.
    ensures spelled { (t : Tree) (b rest : List ℕ) → IsSpelling t b → bytes.now ≡ b ++ rest → Answers result (Step.Got t (length b)) }
    // What is refused is the first token that breaks a rule.
    ensures refused { IfRefused result (λ p r. (k : ℕ) × (p ≡ at.0 + k) × IsRefused bytes.now k r) }
    // Where a token breaks a rule it is refused, unless memory runs out.
    ensures broken { (k : ℕ) (r : Reason) → IsRefused bytes.now k r → Answers result (Step.Refused (record { 0 = at.0 + k }) r) }
    // Short says that no value is spelled and no token is refused.
    ensures short { IfShort result (IsUndecided bytes.now) }
    // All of it as one equation.
    ensures exact { Answers result (step_of at.0 (front bytes.now)) }
{
    step_at(alloc, bytes, at)
}
