//! Reports of progress on one request.

ghost use Rattle.std.specs.Prelude.{◌≡◌, [], ◌∷◌, ◌++◌, drop, slice_get, OnErr, OnOk};

use std::alloc::Global;
use std::collections::VecDeque;
use std::marker::Model;
use wire_base::{Datum, OutOfMemory};

/// The reports that came and weren't taken, oldest first.
#[derive(Debug, Drop)]
pub struct Reports {
    values: VecDeque<Datum>,
}

impl Model for Reports {
    ghost use Rattle.std.specs.Prelude.{List};
    ghost use Rattle.wire_base.specs.Tree.{Tree};
    ghost use Rattle.wire_base.specs.Codes.{coded_trees};

    ghost Value = { List Tree };

    ghost coded = { coded_trees };

    ghost view = { λ r. r.values.items };
}

impl Reports {
    /// No report. It takes no memory.
    pub fn new(alloc: Global) -> Reports
        ensures { result ≡ [] }
    {
        Reports {
            values: VecDeque::new(alloc),
        }
    }

    /// Keeps one more report.
    pub fn push(&mut self, value: Datum) -> Result<(), OutOfMemory>
        ensures ok { OnOk result (self.new ≡ self.old ++ value ∷ []) }
        ensures err { OnErr result (self.new ≡ self.old) }
    {
        self.values.push_back(value)?;
        Ok(())
    }

    /// Hands over the oldest report, where one is left. It takes no memory.
    pub fn take(&mut self) -> Option<Datum>
        ensures oldest { result ≡ slice_get self.old 0 }
        ensures rest { self.new ≡ drop 1 self.old }
    {
        self.values.pop_front()
    }
}
