// The cell, and how it begins.
ghost use Rattle.std.specs.Prelude.{◌≡◌, ℕ, ◌<◌, [], ◌∷◌, None, IfOk, IfErr};
ghost use Rattle.turn_cell.specs.Passes.{first_pass};

use crate::TurnValue;
use crate::lot::Lot;
use crate::pass::{Numbers, Pass, Sight};
use crate::plays::Turns;
use crate::view::View;
use atomic_table::{Refused, Table};
use std::alloc::{AllocFailed, Global};
use std::marker::Model;
use std::snapshot::Snapshot;

/// The word of the next ticket. Each word that is written has cache lines of its own.
pub(crate) const TICKET: usize = 16;

/// The word of the number that is served.
pub(crate) const SERVED: usize = 32;

/// The word that counts the marks of the journal.
pub(crate) const MARKS: usize = 48;

const WORDS: usize = 64;

/// A value that one caller at a time may change, in the order of tickets.
#[derive(Drop)]
pub struct TurnCell<V: TurnValue> {
    pub(crate) table: Table<Option<V>, View<V::Fixed>, (u16, Snapshot<V>), Turns<V>, Global>,
    /// Where callers sleep. No contract speaks of it.
    pub(crate) lot: Lot,
}

impl<V: TurnValue> Model for TurnCell<V> {
    ghost use Rattle.std.specs.Prelude.{◌≡◌};
    ghost use Rattle.atomic_table.specs.Seated.{TableId, table_id_coded};

    ghost Value = { TableId };

    ghost coded = { table_id_coded };

    ghost view = { λ c. c.table.shared.table_id };

    ghost invariant = { λ c. (c.table.shared.table_id.words ≡ 64) × (c.table.shared.table_id.slots ≡ 1) };
}

/// Why there is no cell. The value comes back.
#[derive(Drop)]
pub enum CellFault<V> {
    /// There was no memory.
    Memory(V),
}

impl<V: TurnValue> TurnCell<V> {
    /// A cell for callers 1 to `callers`, and the pass of caller 1, which has all others in its block.
    pub fn make(
        alloc: Global,
        value: V,
        callers: u16,
    ) -> Result<(TurnCell<V>, Pass<V>), CellFault<V>>
        requires some_caller { 0 < callers }
        requires no_marks { (V.entries value ≡ []) × (V.halt value ≡ None) }
        ensures made { IfOk result (λ r. r.1 ≡ first_pass r.0 callers (V.fixed value)) }
        ensures memory { IfErr result (λ f. f ≡ CellFault.Memory value) }
    {
        let start = (callers, Snapshot::of(&value));
        let mut slots = Vec::new(alloc);
        if let Err(AllocFailed { value: slot }) = slots.push(Some(value)) {
            slots.destroy_empty();
            let Some(value) = slot else { unreachable!() };
            return Err(CellFault::Memory(value));
        }
        match Table::new(alloc, &[0; WORDS], slots, &start) {
            Ok((table, seat)) => {
                let cell = TurnCell {
                    table,
                    lot: Lot::new(),
                };
                let numbers = Numbers {
                    caller: 1,
                    callers,
                    block: callers - 1,
                    met: 0,
                    turns: 0,
                    own: 0,
                };
                let sight = Sight {
                    marks: 0,
                    entries: 0,
                    halt: None,
                };
                let pass = Pass {
                    seat,
                    numbers,
                    sight,
                };
                Ok((cell, pass))
            }
            Err(Refused { slots }) => Err(CellFault::Memory(only_value(slots))),
        }
    }
}

// The value of the one slot.
fn only_value<V>(mut slots: Vec<Option<V>>) -> V
    requires { (x : V) × (slots.items ≡ Some x ∷ []) }
    ensures { slots.items ≡ Some result ∷ [] }
{
    let Some(Some(value)) = slots.pop() else {
        unreachable!()
    };
    slots.destroy_empty();
    value
}
