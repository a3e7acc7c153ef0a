// A small journal to be held by a cell.
ghost use Rattle.std.specs.Prelude.{◌≡◌, ◌++◌, List, [], None};
ghost use Rattle.turn_cell.specs.Marks.{marks_in, IsTurn};
ghost use Rattle.turn_cell.specs.declared.value.Mark.{Mark};

use mkt_base::{Caller, Entry, Event, Halt};
use std::alloc::Global;
use turn_cell::TurnValue;

#[derive(Drop)]
pub struct Journal {
    pub entries: Vec<Entry>,
    pub halt: Option<Halt>,
    pub name: u32,
}

impl TurnValue for Journal {
    type Fixed = u32;

    ghost entries = { λ j. j.entries.items };

    ghost halt = { λ j. j.halt };

    ghost fixed = { λ j. j.name };

    fn length(&self) -> u64 {
        self.entries.len() as u64
    }

    fn halted(&self) -> Option<Halt> {
        self.halt
    }
}

impl Journal {
    pub fn new(alloc: Global, name: u32) -> Journal
        ensures { (result.entries.items ≡ []) × (result.halt ≡ None) × (result.name ≡ name) }
    {
        Journal {
            entries: Vec::new(alloc),
            halt: None,
            name,
        }
    }

    // Records an event where the journal has not ended and there is memory.
    pub fn record(&mut self, caller: Caller, own: u32, event: Event)
        ensures name { self.new.name ≡ self.old.name }
        ensures turn { (added : List Mark)
            × (marks_in self.new.entries.items self.new.halt ≡ marks_in self.old.entries.items self.old.halt ++ added)
            × IsTurn caller.0 own added }
    {
        if self.halt.is_some() {
            return;
        }
        let entry = Entry {
            place: self.entries.len() as u64,
            caller,
            own,
            event,
        };
        let _ = self.entries.push(entry);
    }

    // Ends the journal where it has not ended yet.
    pub fn stop(&mut self, caller: Caller, own: u32, event: Event)
        ensures name { self.new.name ≡ self.old.name }
        ensures turn { (added : List Mark)
            × (marks_in self.new.entries.items self.new.halt ≡ marks_in self.old.entries.items self.old.halt ++ added)
            × IsTurn caller.0 own added }
    {
        if self.halt.is_none() {
            self.halt = Some(Halt { caller, own, event });
        }
    }
}
