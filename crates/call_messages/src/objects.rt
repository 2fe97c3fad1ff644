//! Objects that are passed by handle, as values.

ghost use Rattle.rpc_items.specs.Ids.{count_value};
ghost use Rattle.rpc_items.specs.Objects.{handed_value, lifetime_text, object_value};
ghost use Rattle.std.specs.Prelude.{◌≡◌, IfOk};

use rpc_items::Lifetime;
use std::alloc::Global;
use wire_base::{Datum, Node, OutOfMemory, PairList, Text, Whole};

/// The member that tells an object which is passed by handle.
const MARSHALED: &str = "__jsonrpc_marshaled";

/// A count as a value.
pub fn count(n: u64) -> Datum
    ensures { result ≡ count_value n }
{
    Datum {
        node: Node::Whole(Whole::from_u64(n)),
    }
}

/// A lifetime as a word.
fn lifetime_word(lifetime: Lifetime) -> &'static str
    ensures { result.now ≡ lifetime_text lifetime }
{
    match lifetime {
        Lifetime::Call => "call",
        Lifetime::Explicit => "explicit",
    }
}

/// An object that is offered by a handle.
pub fn object_value(alloc: Global, handle: u64, lifetime: Lifetime) -> Result<Datum, OutOfMemory>
    ensures { IfOk result (λ value. value ≡ object_value handle lifetime) }
{
    let lifetime = Text::from_str(alloc, lifetime_word(lifetime))?;
    let mut members = PairList::new(alloc);
    members.push((Text::from_str(alloc, MARSHALED)?, count(1)))?;
    members.push((Text::from_str(alloc, "handle")?, count(handle)))?;
    members.push((
        Text::from_str(alloc, "lifetime")?,
        Datum {
            node: Node::Words(lifetime),
        },
    ))?;
    Ok(Datum {
        node: Node::Pairs(members),
    })
}

/// A handle that goes back to its owner.
pub fn handed_value(alloc: Global, handle: u64) -> Result<Datum, OutOfMemory>
    ensures { IfOk result (λ value. value ≡ handed_value handle) }
{
    let mut members = PairList::new(alloc);
    members.push((Text::from_str(alloc, MARSHALED)?, count(0)))?;
    members.push((Text::from_str(alloc, "handle")?, count(handle)))?;
    Ok(Datum {
        node: Node::Pairs(members),
    })
}
