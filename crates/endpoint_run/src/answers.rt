//! What a step answers.

ghost use Rattle.std.specs.Prelude.{◌≡◌, [], ◌∷◌, ◌++◌, length, slice_get, OnOk, OnErr};
ghost use Rattle.std.specs.Option.{option_copied};

use endpoint_items::{EndEvent, Reply};
use std::alloc::Global;
use std::marker::Model;
use wire_base::{Cause, OutOfMemory};

/// What a side had to tell in a step.
#[derive(Debug, Drop)]
pub enum SideEvent {
    /// Its end applied something and goes on.
    Happened(EndEvent),
    /// Its end has ended.
    Ended(Cause),
}

/// Events in their order.
#[derive(Debug, Drop)]
pub struct EventList {
    items: Vec<SideEvent>,
}

impl Model for EventList {
    ghost use Rattle.std.specs.Prelude.{List};
    ghost use Rattle.std.specs.Coded.{coded_list};
    ghost use Rattle.endpoint_run.specs.contracts.answers.SideEvent as side_event;
    ghost use Rattle.endpoint_run.specs.declared.answers.SideEvent.{SideEvent};

    ghost Value = { List SideEvent };

    ghost coded = { coded_list side_event.the_row.coded };

    ghost view = { λ e. e.items.items };
}

impl EventList {
    pub fn new(alloc: Global) -> EventList
        ensures { result ≡ [] }
    {
        EventList {
            items: Vec::new(alloc),
        }
    }

    pub fn len(&self) -> usize
        ensures { result ≡ length self.now }
    {
        self.items.len()
    }

    pub fn as_slice(&self) -> &[SideEvent]
        ensures { result.now ≡ self.now }
    {
        self.items.as_slice()
    }

    pub fn get(&self, i: usize) -> Option<&SideEvent>
        ensures { option_copied result ≡ slice_get self.now i }
    {
        self.items.get(i)
    }

    pub fn push(&mut self, item: SideEvent) -> Result<(), OutOfMemory>
        ensures ok { OnOk result (self.new ≡ self.old ++ item ∷ []) }
        ensures err { OnErr result (self.new ≡ self.old) }
    {
        self.items.push(item)?;
        Ok(())
    }
}

/// What a step answers: a call's reply, or the number of delivered bytes, with the events that the side then
/// had. Where the end ended in this step its last event is `Ended`.
#[derive(Debug, Drop)]
pub enum DuoAnswer {
    Replied(Reply, EventList),
    Delivered(u64, EventList),
    Ended,
    OutOfMemory,
}
