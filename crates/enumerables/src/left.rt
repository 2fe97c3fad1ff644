//! The values of a sequence that weren't answered yet.

ghost use Rattle.std.specs.Prelude.{◌≡◌, ◌≤◌, [], drop, length};

use std::alloc::Global;
use std::marker::Model;
use wire_base::{Datum, DatumList};

/// The values that are left, in order.
#[derive(Drop)]
pub struct Left {
    values: DatumList,
    /// How many of them were answered.
    answered: usize,
}

impl Model for Left {
    ghost use Rattle.std.specs.Prelude.{◌≤◌, List, drop, length};
    ghost use Rattle.wire_base.specs.Tree.{Tree};
    ghost use Rattle.wire_base.specs.Codes.{coded_trees};

    ghost Value = { List Tree };

    ghost coded = { coded_trees };

    ghost view = { λ l. drop l.answered l.values };

    ghost invariant = { λ l. l.answered ≤ length l.values };
}

impl Left {
    /// These values but for the first ones. It takes no memory.
    pub fn new(values: DatumList, first: usize) -> Left
        ensures { result ≡ drop first values }
    {
        let answered = first.min(values.len());
        Left { values, answered }
    }

    /// No value. It takes no memory.
    pub fn none(alloc: Global) -> Left
        ensures { result ≡ [] }
    {
        Left {
            values: DatumList::new(alloc),
            answered: 0,
        }
    }

    pub fn len(&self) -> usize
        ensures { result ≡ length self.now }
    {
        self.values.len() - self.answered
    }

    pub fn as_slice(&self) -> &[Datum]
        ensures { result.now ≡ self.now }
    {
        &self.values.as_slice()[self.answered..]
    }

    /// The first `n` values are answered. It takes no memory.
    pub fn drop_first(&mut self, n: usize)
        ensures { self.new ≡ drop n self.old }
    {
        let count = self.values.len();
        self.answered += n.min(count - self.answered);
    }
}
