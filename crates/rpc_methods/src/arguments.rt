//! Arguments of the extensions, named or positional.

ghost use Rattle.std.specs.Prelude.{◌≡◌, Some};
ghost use Rattle.std.specs.Option.{option_copied};
ghost use Rattle.rpc_items.specs.Meanings.{first_argument, one_argument, second_argument};
ghost use Rattle.rpc_items.specs.Objects.{handle_in};
ghost use Rattle.wire_base.specs.Tree.{whole};

use rpc_items::Params;
use wire_base::{Datum, Node, Whole};

/// The one argument, where there is just that.
pub(crate) fn one_argument<'a>(params: &'a Params, name: &str) -> Option<&'a Datum>
    ensures { option_copied result ≡ one_argument name.now params.now }
{
    match params {
        Params::Absent => None,
        Params::List(values) => match values.as_slice() {
            [value] => Some(value),
            _ => None,
        },
        Params::Named(pairs) => pairs.last(name),
    }
}

/// The two arguments, where there are just these.
pub(crate) fn two_arguments<'a>(
    params: &'a Params,
    first: &str,
    second: &str,
) -> (Option<&'a Datum>, Option<&'a Datum>)
    ensures first { option_copied result.0 ≡ first_argument first.now params.now }
    ensures second { option_copied result.1 ≡ second_argument second.now params.now }
{
    match params {
        Params::Absent => (None, None),
        Params::List(values) => match values.as_slice() {
            [one, other] => (Some(one), Some(other)),
            _ => (None, None),
        },
        Params::Named(pairs) => (pairs.last(first), pairs.last(second)),
    }
}

/// A handle is a whole number of 64 bits, signed, and not negative.
fn handle_of(number: Whole) -> Option<u64>
    ensures { result ≡ handle_in (Some (whole number)) }
{
    let number = number.get();
    if 0 <= number && number <= i64::MAX as i128 {
        Some(number as u64)
    } else {
        None
    }
}

/// The handle that a value is, if it is one.
pub(crate) fn handle_in(value: &Datum) -> Option<u64>
    ensures { result ≡ handle_in (Some value.now) }
{
    match &value.node {
        Node::Whole(number) => handle_of(*number),
        _ => None,
    }
}
