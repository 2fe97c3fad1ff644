//! Values of MessagePack and JSON, and their lists.

ghost use Rattle.std.specs.Prelude.{◌≡◌, [], ◌∷◌, ◌++◌, length, slice_get, IfOk, OnOk, OnErr};
ghost use Rattle.std.specs.Option.{option_copied};

use crate::blob::Blob;
use crate::out_of_memory::OutOfMemory;
use crate::text::Text;
use crate::whole::Whole;
use std::alloc::Global;
use std::marker::Model;

/// A value of MessagePack or JSON, seen by contracts as a tree.
#[cycle(datum)]
#[derive(Debug, Drop)]
pub struct Datum {
    pub node: Node,
}

/// What a value is. A float and an extension are none of these.
#[cycle(datum)]
#[derive(Debug, Drop)]
pub enum Node {
    Nil,
    Flag(bool),
    Whole(Whole),
    Words(Text),
    Bytes(Blob),
    Items(DatumList),
    Pairs(PairList),
}

/// Values in order: an array's elements.
#[cycle(datum)]
#[derive(Debug, Drop)]
pub struct DatumList {
    items: Vec<Datum>,
}

/// Keys and values in order: a map's pairs. A key may stand in it more than once.
#[cycle(datum)]
#[derive(Debug, Drop)]
pub struct PairList {
    pairs: Vec<(Text, Datum)>,
}

impl Model for Datum {
    ghost use Rattle.wire_base.specs.Tree.{Tree, weight};
    ghost use Rattle.wire_base.specs.Codes.{coded_tree};

    ghost Value = { Tree };

    ghost coded = { coded_tree };

    ghost use Rattle.wire_base.specs.View.{tree_of};

    ghost view = { λ d. tree_of d.node };

    ghost size = { weight };

    ghost use Rattle.wire_base.specs.Falls.{node_falls};

    ghost size_decreases = { λ a h. node_falls a.node };
}

impl Model for DatumList {
    ghost use Rattle.std.specs.Prelude.{List};
    ghost use Rattle.wire_base.specs.Tree.{Tree, list_size};
    ghost use Rattle.wire_base.specs.Codes.{coded_trees};

    ghost Value = { List Tree };

    ghost coded = { coded_trees };

    ghost view = { λ d. d.items.items };

    ghost size = { list_size };

    ghost use Rattle.wire_base.specs.Falls.{list_falls};

    ghost size_decreases = { λ a h. list_falls a.items.items };
}

impl Model for PairList {
    ghost use Rattle.std.specs.Prelude.{List, ℕ};
    ghost use Rattle.wire_base.specs.Tree.{Tree, pair_size};
    ghost use Rattle.wire_base.specs.Codes.{coded_pairs};

    ghost Value = { List (List ℕ × Tree) };

    ghost coded = { coded_pairs };

    ghost view = { λ d. d.pairs.items };

    ghost size = { pair_size };

    ghost use Rattle.wire_base.specs.Falls.{pairs_fall};

    ghost size_decreases = { λ a h. pairs_fall a };
}

impl DatumList {
    /// No value. It takes no memory.
    pub fn new(alloc: Global) -> DatumList
        ensures { result ≡ [] }
    {
        DatumList {
            items: Vec::new(alloc),
        }
    }

    /// How many values there are.
    pub fn len(&self) -> usize
        ensures { result ≡ length self.now }
    {
        self.items.len()
    }

    /// The values as a slice.
    pub fn as_slice(&self) -> &[Datum]
        ensures { result.now ≡ self.now }
    {
        self.items.as_slice()
    }

    /// The value at this index, from 0.
    pub fn get(&self, i: usize) -> Option<&Datum>
        ensures { option_copied result ≡ slice_get self.now i }
    {
        self.items.get(i)
    }

    /// Adds a value at the end.
    pub fn push(&mut self, item: Datum) -> Result<(), OutOfMemory>
        ensures ok { OnOk result (self.new ≡ self.old ++ item ∷ []) }
        ensures err { OnErr result (self.new ≡ self.old) }
    {
        self.items.push(item)?;
        Ok(())
    }
}

impl PairList {
    ghost use Rattle.wire_base.specs.Find.{last_of};

    /// No pair. It takes no memory.
    pub fn new(alloc: Global) -> PairList
        ensures { result ≡ [] }
    {
        PairList {
            pairs: Vec::new(alloc),
        }
    }

    /// How many pairs there are.
    pub fn len(&self) -> usize
        ensures { result ≡ length self.now }
    {
        self.pairs.len()
    }

    /// The pairs as a slice.
    pub fn as_slice(&self) -> &[(Text, Datum)]
        ensures { result.now ≡ self.now }
    {
        self.pairs.as_slice()
    }

    /// The pair at this index, from 0.
    pub fn get(&self, i: usize) -> Option<&(Text, Datum)>
        ensures { option_copied result ≡ slice_get self.now i }
    {
        self.pairs.get(i)
    }

    /// Adds a pair at the end.
    pub fn push(&mut self, item: (Text, Datum)) -> Result<(), OutOfMemory>
        ensures ok { OnOk result (self.new ≡ self.old ++ item ∷ []) }
        ensures err { OnErr result (self.new ≡ self.old) }
    {
        self.pairs.push(item)?;
        Ok(())
    }

    /// The value of the last pair with this key.
    #[tactic(auto, using(crate::proofs::Finds::finds))]
    pub fn last(&self, key: &str) -> Option<&Datum>
        ensures { option_copied result ≡ last_of key.now self.now }
    {
        for (k, value) in self.pairs.iter().rev() {
            if k.as_str() == key {
                return Some(value);
            }
        }
        None
    }

    /// An equal value of its own.
    #[cycle(copy)]
    pub fn copy(&self, alloc: Global) -> Result<PairList, OutOfMemory>
        ensures { IfOk result (λ d. d ≡ self.now) }
    {
        let mut out = PairList::new(alloc);
        for pair in self.pairs.iter() {
            let key = pair.0.copy(alloc)?;
            let value = pair.1.copy(alloc)?;
            out.push((key, value))?;
        }
        Ok(out)
    }
}

impl DatumList {
    /// An equal value of its own.
    #[cycle(copy)]
    pub fn copy(&self, alloc: Global) -> Result<DatumList, OutOfMemory>
        ensures { IfOk result (λ d. d ≡ self.now) }
    {
        let mut out = DatumList::new(alloc);
        for item in self.items.iter() {
            let item = item.copy(alloc)?;
            out.push(item)?;
        }
        Ok(out)
    }
}

impl Datum {
    /// An equal value of its own.
    #[cycle(copy)]
    pub fn copy(&self, alloc: Global) -> Result<Datum, OutOfMemory>
        ensures { IfOk result (λ d. d ≡ self.now) }
    {
        match &self.node {
            Node::Nil => Ok(Datum { node: Node::Nil }),
            Node::Flag(flag) => Ok(Datum {
                node: Node::Flag(*flag),
            }),
            Node::Whole(whole) => Ok(Datum {
                node: Node::Whole(*whole),
            }),
            Node::Words(text) => Ok(Datum {
                node: Node::Words(text.copy(alloc)?),
            }),
            Node::Bytes(blob) => Ok(Datum {
                node: Node::Bytes(blob.copy(alloc)?),
            }),
            Node::Items(items) => Ok(Datum {
                node: Node::Items(items.copy(alloc)?),
            }),
            Node::Pairs(pairs) => Ok(Datum {
                node: Node::Pairs(pairs.copy(alloc)?),
            }),
        }
    }
}
