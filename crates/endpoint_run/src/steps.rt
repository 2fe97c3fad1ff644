//! Steps of two joined ends with connections.

ghost use Rattle.std.specs.Prelude.{◌≡◌, [], ◌∷◌, ◌++◌, length, slice_get, OnOk, OnErr};
ghost use Rattle.std.specs.Option.{option_copied};

use endpoint_items::Call;
use mux_run::Side;
use std::alloc::Global;
use std::marker::Model;
use wire_base::OutOfMemory;

/// A step: a call at a side, a delivery of at most so many bytes to a side, or the end of the stream into a side.
#[derive(Debug, Drop)]
pub enum Step {
    Call(Side, Call),
    Deliver(Side, u64),
    End(Side),
}

/// Steps in their order.
#[derive(Debug, Drop)]
pub struct StepList {
    items: Vec<Step>,
}

impl Model for StepList {
    ghost use Rattle.std.specs.Prelude.{List};
    ghost use Rattle.std.specs.Coded.{coded_list};
    ghost use Rattle.endpoint_run.specs.contracts.steps.Step as step;
    ghost use Rattle.endpoint_run.specs.declared.steps.Step.{Step};

    ghost Value = { List Step };

    ghost coded = { coded_list step.the_row.coded };

    ghost view = { λ s. s.items.items };
}

impl StepList {
    pub fn new(alloc: Global) -> StepList
        ensures { result ≡ [] }
    {
        StepList {
            items: Vec::new(alloc),
        }
    }

    pub fn len(&self) -> usize
        ensures { result ≡ length self.now }
    {
        self.items.len()
    }

    pub fn as_slice(&self) -> &[Step]
        ensures { result.now ≡ self.now }
    {
        self.items.as_slice()
    }

    pub fn get(&self, i: usize) -> Option<&Step>
        ensures { option_copied result ≡ slice_get self.now i }
    {
        self.items.get(i)
    }

    pub fn push(&mut self, item: Step) -> Result<(), OutOfMemory>
        ensures ok { OnOk result (self.new ≡ self.old ++ item ∷ []) }
        ensures err { OnErr result (self.new ≡ self.old) }
    {
        self.items.push(item)?;
        Ok(())
    }

    /// The steps as a vector, without taking memory.
    pub fn into_vec(self) -> Vec<Step>
        ensures { result.items ≡ self }
    {
        self.items
    }
}
