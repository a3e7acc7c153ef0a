// The turn of a caller, with the value in hand.
ghost use Rattle.std.specs.Prelude.{◌≡◌};
ghost use Rattle.std.specs.Borrow.{Lends, sem};
ghost use Rattle.turn_cell.specs.contracts.turn.Turn.{the_row};
ghost use Rattle.turn_cell.specs.Kept.{with_value};

use crate::TurnValue;
use crate::pass::{Numbers, Sight};
use crate::view::View;
use atomic_table::Seat;
use std::marker::Model;

/// The turn at a cell. It cannot be dropped: `TurnCell::leave` takes it back.
pub struct Turn<V: TurnValue> {
    pub(crate) value: V,
    pub(crate) seat: Seat<Option<V>, View<V::Fixed>>,
    pub(crate) numbers: Numbers,
    pub(crate) start: Sight,
}

impl<V: TurnValue> Model for Turn<V> {
    ghost use Rattle.turn_cell.specs.Passes.{Taken, known};

    ghost Value = { Taken V V.Fixed };

    ghost use Rattle.turn_cell.specs.Kept.{Acts};

    ghost view = { λ t. record { pass = known t.seat.table_id t.seat.me.0; value = t.value } };

    ghost invariant = { λ t. Acts t.seat.me t.numbers t.start };
}

impl<V: TurnValue> Turn<V> {
    /// The value, to be read and changed.
    pub fn value(&mut self) -> &mut V
        ensures* writes_back { sem 𝓛 (Lends (the_row V.row V.Fixed.row V.TurnValue) V.row self.entry result (with_value self.old)) }
        ensures value { result.now ≡ self.old.value }
    {
        &mut self.value
    }
}
