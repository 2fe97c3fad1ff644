//! What is tested before a sequence is answered.

ghost use Rattle.message_body.specs.Replies.{Writes};
ghost use Rattle.message_body.specs.Written.{encoder, is_json};
ghost use Rattle.rpc_items.specs.Bodies.{most_nested};
ghost use Rattle.rpc_items.specs.Checks.{Checks};
ghost use Rattle.rpc_items.specs.Pages.{page_value, page_values};
ghost use Rattle.sequence_limits.specs.Limits.{most_nested_value, pages_refusal, values_refusal};
ghost use Rattle.std.specs.List.{list_any};
ghost use Rattle.std.specs.Prelude.{◌≡◌, ◌==◌, ◌&&◌, ◌≤◌, ◌∷◌, [], IfOk, None, drop, false, length, nat_le, nat_lt, take};
ghost use Rattle.wire_base.specs.Tree.{trees_of};
ghost use Rattle.wire_base.specs.Values.{holds_bytes, items_hold_bytes, nesting};

use enumerables::page_value;
use message_body::{Encoding, append};
use std::alloc::Global;
use wire_base::{CallFault, Datum, OutOfMemory, Refusal, holds_bytes, nests_within};

/// The most levels of arrays and maps in a value of a sequence.
const MOST_NESTED: u32 = 124;

/// The most bytes of a page.
const MOST_PAGE: usize = 16_760_832;

/// Refuses values that a sequence can't have, in its response or in a later page: in JSON those that hold bytes, and those
/// that are nested too deep. It takes no memory.
pub fn check_values(encoding: Encoding, values: &[Datum]) -> Result<(), Refusal>
    ensures { Checks (values_refusal (encoder encoding) values.now) result }
{
    if hold_bytes_in_json(encoding, values) {
        return Err(Refusal::BytesInJson);
    }
    if nest_too_deep(values) {
        return Err(Refusal::TooDeep);
    }
    Ok(())
}

/// Whether values in JSON hold bytes.
#[tactic(auto, using(crate::proofs::Nested::bytes_any))]
fn hold_bytes_in_json(encoding: Encoding, values: &[Datum]) -> bool
    ensures { result ≡ (is_json encoding && items_hold_bytes (trees_of values.now)) }
{
    match encoding {
        Encoding::Json => hold_bytes(values),
        Encoding::Pack => false,
    }
}

fn hold_bytes(values: &[Datum]) -> bool
    ensures { result ≡ list_any holds_bytes values.now }
{
    values.iter().any(|value| holds_bytes(value))
}

fn nest_too_deep(values: &[Datum]) -> bool
    ensures { result ≡ list_any (λ value. nat_lt most_nested_value (nesting value)) values.now }
{
    values.iter().any(is_too_deep)
}

fn is_too_deep(value: &Datum) -> bool
    ensures { result ≡ nat_lt most_nested_value (nesting value.now) }
{
    !nests_within(value, MOST_NESTED)
}

/// Refuses a sequence with a later page that is longer than can be written in every response.
pub fn check_pages(
    alloc: Global,
    encoding: Encoding,
    values: &[Datum],
    page: u32,
    first: u32,
) -> Result<(), CallFault>
    requires values { values_refusal (encoder encoding) values.now ≡ None }
    requires page { (page == 0) ≡ false }
    ensures { Writes (pages_refusal (encoder encoding) (page_values (length values.now) page (drop first values.now))) result }
{
    let mut left = behind(values, first);
    while !left.is_empty() {
        check_first_page(alloc, encoding, left, page)?;
        left = behind(left, page);
    }
    Ok(())
}

/// What stands behind so many values.
fn behind(values: &[Datum], count: u32) -> &[Datum]
    ensures { result.now ≡ drop count values.now }
{
    &values[values.len().min(count as usize)..]
}

/// Refuses the first page of these values if it is too long.
fn check_first_page(
    alloc: Global,
    encoding: Encoding,
    values: &[Datum],
    page: u32,
) -> Result<(), CallFault>
    requires { values_refusal (encoder encoding) values.now ≡ None }
    ensures { Writes (pages_refusal (encoder encoding) (page_value (nat_le (length values.now) page) (take page values.now) ∷ [])) result }
{
    match first_page(alloc, values, page) {
        Ok(value) => check_page(alloc, encoding, &value),
        Err(_) => Err(CallFault::OutOfMemory),
    }
}

/// The first page of these values.
fn first_page(alloc: Global, values: &[Datum], page: u32) -> Result<Datum, OutOfMemory>
    ensures { IfOk result (λ value. value ≡ page_value (nat_le (length values.now) page) (take page values.now)) }
{
    let size = values.len().min(page as usize);
    page_value(alloc, values.len() <= page as usize, &values[..size])
}

/// Refuses a page that is too long.
fn check_page(alloc: Global, encoding: Encoding, page: &Datum) -> Result<(), CallFault>
    requires bytes { (is_json encoding && holds_bytes page.now) ≡ false }
    requires depth { nesting page.now ≤ most_nested }
    ensures { Writes (pages_refusal (encoder encoding) (page.now ∷ [])) result }
{
    let mut text = Vec::new(alloc);
    append(alloc, encoding, page, &mut text)?;
    if text.len() > MOST_PAGE {
        return Err(CallFault::Refused(Refusal::BodyTooLong));
    }
    Ok(())
}
