// What the marks of a value say of its journal.
ghost use Rattle.std.specs.Prelude.{◌≡◌};
ghost use Rattle.turn_cell.specs.Marks.{marks_by, entries_in, halt_in};

use crate::TurnValue;

/// The entries among the marks of a value are its entries, and the halt among them is its halt.
pub fn marks_are_the_journal<V: TurnValue>(_value: &V)
    ensures entries { entries_in (marks_by V.entries V.halt _value.now) ≡ V.entries _value.now }
    ensures halt { halt_in (marks_by V.entries V.halt _value.now) ≡ V.halt _value.now }
{}
