//! Methods and values that callers may not use.

ghost use Rattle.std.specs.Prelude.{◌≡◌};
ghost use Rattle.rpc_items.specs.Methods.{is_reserved};
ghost use Rattle.rpc_items.specs.Objects.{is_reserved_value};

use wire_base::{Datum, Node, Text};

/// What the methods of the extensions begin with.
const RESERVED: &str = "$/";

/// The member that tells a value which callers may not pass.
const MARSHALED: &str = "__jsonrpc_marshaled";

/// Whether a method is one of the extensions, which callers may not use.
pub fn is_reserved(method: &Text) -> bool
    ensures { result ≡ is_reserved method.now }
{
    method.as_str().strip_prefix(RESERVED).is_some()
}

/// Whether a value is a map that callers may not pass.
#[tactic(auto, using(crate::proofs::Back::back))]
pub fn is_reserved_value(value: &Datum) -> bool
    ensures { result ≡ is_reserved_value value.now }
{
    match &value.node {
        Node::Pairs(members) => members.last(MARSHALED).is_some(),
        _ => false,
    }
}
