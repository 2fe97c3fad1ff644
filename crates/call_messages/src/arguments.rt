//! Arguments of calls.

ghost use Rattle.call_messages.specs.Messages.{arg_value, is_progress};
ghost use Rattle.rpc_items.specs.Arguments.{has_reserved, is_reserved_arg, most_drawn, needs_request};
ghost use Rattle.rpc_items.specs.Drawn.{arg_list, has_progress_arg};
ghost use Rattle.rpc_items.specs.Made.{made_in};
ghost use Rattle.rpc_items.specs.Objects.{is_reserved_value};
ghost use Rattle.rpc_items.specs.Saying.{arg_values, params_of};
ghost use Rattle.std.specs.List.{list_any};
ghost use Rattle.std.specs.Prelude.{◌≡◌, ◌≤◌, ◌+◌, ◌∷◌, [], IfOk, None, length};

use crate::objects::{count, handed_value, object_value};
use rpc_items::{Arg, Arguments, Lifetime, Params};
use rpc_methods::is_reserved_value;
use std::alloc::Global;
use wire_base::{Datum, DatumList, OutOfMemory, Text};

/// Whether one of the arguments is a map that callers may not pass.
pub fn has_reserved(args: &Arguments) -> bool
    ensures { result ≡ has_reserved args.now }
{
    match args {
        Arguments::Absent => false,
        Arguments::List(args) => any_reserved(args.as_slice()),
        Arguments::Named(pairs) => any_reserved_value(pairs.as_slice()),
    }
}

fn any_reserved(args: &[Arg]) -> bool
    ensures { result ≡ list_any is_reserved_arg args.now }
{
    args.iter().any(is_reserved_arg)
}

fn any_reserved_value(pairs: &[(Text, Datum)]) -> bool
    ensures { result ≡ list_any (λ p. is_reserved_value p.1) pairs.now }
{
    pairs.iter().any(|pair| is_reserved_value(&pair.1))
}

fn is_reserved_arg(arg: &Arg) -> bool
    ensures { result ≡ is_reserved_arg arg.now }
{
    match arg {
        Arg::Plain(value) => is_reserved_value(value),
        _ => false,
    }
}

/// Whether one of the arguments asks for reports of progress.
pub fn has_progress(args: &Arguments) -> bool
    ensures { result ≡ has_progress_arg (arg_list args.now) }
{
    match args {
        Arguments::List(args) => any_progress(args.as_slice()),
        Arguments::Absent | Arguments::Named(_) => false,
    }
}

fn any_progress(args: &[Arg]) -> bool
    ensures { result ≡ list_any is_progress args.now }
{
    args.iter().any(is_progress)
}

fn is_progress(arg: &Arg) -> bool
    ensures { result ≡ is_progress arg.now }
{
    matches!(arg, Arg::Progress)
}

/// Whether one of the arguments is for requests alone.
pub fn has_needy(args: &Arguments) -> bool
    ensures { result ≡ list_any needs_request (arg_list args.now) }
{
    match args {
        Arguments::List(args) => args.as_slice().iter().any(needs_request),
        Arguments::Absent | Arguments::Named(_) => false,
    }
}

/// Whether an argument is progress, or an object whose handle ends with a response.
fn needs_request(arg: &Arg) -> bool
    ensures { result ≡ needs_request arg.now }
{
    matches!(arg, Arg::Progress | Arg::Object(_, Lifetime::Call))
}

/// The arguments that are given in order.
pub fn in_order(args: &Arguments) -> &[Arg]
    ensures { result.now ≡ arg_list args.now }
{
    match args {
        Arguments::List(args) => args.as_slice(),
        Arguments::Absent | Arguments::Named(_) => &[],
    }
}

/// Arguments as the parameters of a request of this number, where so many handles were drawn before.
pub fn params_of(
    alloc: Global,
    number: u64,
    handles: u64,
    args: &Arguments,
) -> Result<Params, OutOfMemory>
    requires { handles + length (made_in None (arg_list args.now)) ≤ most_drawn }
    ensures { IfOk result (λ params. params ≡ params_of number handles args.now) }
{
    match args {
        Arguments::Absent => Ok(Params::Absent),
        Arguments::List(args) => {
            let values = values_of(alloc, number, handles, args.as_slice())?;
            Ok(Params::List(values))
        }
        Arguments::Named(pairs) => Ok(Params::Named(pairs.copy(alloc)?)),
    }
}

/// Arguments as values: each object gets the next handle.
#[tactic(auto, using(crate::proofs::Asking::values_next, crate::proofs::Asking::handles_next))]
fn values_of(
    alloc: Global,
    number: u64,
    handles: u64,
    args: &[Arg],
) -> Result<DatumList, OutOfMemory>
    requires { handles + length (made_in None args.now) ≤ most_drawn }
    ensures { IfOk result (λ values. values ≡ arg_values number handles args.now) }
{
    let mut values = DatumList::new(alloc);
    let mut drawn = handles;
    for arg in args {
        values.push(value_of(alloc, number, drawn + 1, arg)?)?;
        drawn += handles_of(arg);
    }
    Ok(values)
}

/// How many handles an argument gets: one if it is an object.
fn handles_of(arg: &Arg) -> u64
    ensures { result ≡ length (made_in None (arg.now ∷ [])) }
{
    match arg {
        Arg::Object(_, _) => 1,
        _ => 0,
    }
}

/// An argument as a value: the token of its progress is the request's number, and an object gets this handle.
fn value_of(alloc: Global, number: u64, handle: u64, arg: &Arg) -> Result<Datum, OutOfMemory>
    ensures { IfOk result (λ value. value ≡ arg_value number handle arg.now) }
{
    match arg {
        Arg::Plain(value) => value.copy(alloc),
        Arg::Progress => Ok(count(number)),
        Arg::Object(_, lifetime) => object_value(alloc, handle, *lifetime),
        Arg::Handed(handle) => handed_value(alloc, *handle),
    }
}
