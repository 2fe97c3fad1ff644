//! The numbers, values, ids and handles that words stand for.

use row_text::{count, first, number};
use rpc_items::HandleKey;
use std::alloc::Global;
use std::test::Fail;
use wire_base::{Blob, Datum, DatumList, Id, Node, PairList, Text, Whole};

/// A handle by its number and the side that made it: `own` or `peer`.
pub fn handle_of(words: &str) -> HandleKey {
    let (side, word) = first(words);
    HandleKey {
        number: count(word),
        own: side == "own",
    }
}

/// A number as a value.
pub fn whole(n: i64) -> Datum {
    Datum {
        node: Node::Whole(Whole::from_i64(n)),
    }
}

/// A map that callers may not pass.
fn reserved(alloc: Global) -> Result<Datum, Fail> {
    let mut pairs = PairList::new(alloc);
    pairs.push((Text::from_str(alloc, "__jsonrpc_marshaled")?, whole(1)))?;
    Ok(Datum {
        node: Node::Pairs(pairs),
    })
}

fn bytes(alloc: Global) -> Result<Datum, Fail> {
    Ok(Datum {
        node: Node::Bytes(Blob::from_bytes(alloc, &[0])?),
    })
}

/// So many arrays in one another.
fn nested(alloc: Global, depth: u64) -> Result<Datum, Fail> {
    let mut value = whole(2);
    for _ in 0..depth {
        let mut items = DatumList::new(alloc);
        items.push(value)?;
        value = Datum {
            node: Node::Items(items),
        };
    }
    Ok(value)
}

/// The value that a word stands for: a number, `deep` with how many arrays stand in one another, or one with a name:
/// `reserved` or `bytes`.
pub fn value(alloc: Global, word: &str) -> Result<Datum, Fail> {
    match word {
        "reserved" => reserved(alloc),
        "bytes" => bytes(alloc),
        word => match word.strip_prefix("deep") {
            Some(depth) => nested(alloc, count(depth)),
            None => Ok(whole(number(word))),
        },
    }
}

/// A number, or a name between quotes.
pub fn id_of(alloc: Global, word: &str) -> Result<Id, Fail> {
    match word.strip_prefix('"') {
        Some(name) => Ok(Id::Name(Text::from_str(alloc, name.trim_end_matches('"'))?)),
        None => Ok(Id::Number(number(word))),
    }
}
