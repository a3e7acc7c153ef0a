// Passes for further callers, and their end in one another.
ghost use Rattle.std.specs.Prelude.{◌≡◌, ◌<◌, [], length};
ghost use Rattle.turn_cell.specs.Marks.{Begins};
ghost use Rattle.turn_cell.specs.Passes.{one_less, next_pass, met_with, Holds};

use crate::cell::TICKET;
use crate::pass::{Numbers, Pass};
use crate::plays::{Learn, Meet, Part};
use crate::{TurnCell, TurnValue};

impl<V: TurnValue> TurnCell<V> {
    /// The pass of the first caller of the pass's block. It has seen what the pass has seen, and made nothing.
    pub fn split(&self, pass: &mut Pass<V>) -> Pass<V>
        requires cell { pass.old.cell ≡ self.now }
        requires block { 0 < pass.old.block }
        ensures pass { pass.new ≡ one_less pass.old }
        ensures next { result ≡ next_pass pass.old }
        ensures holds { Holds result.seen result }
    {
        let mut seat = self.table.shared.split_seat::<Part>(&mut pass.seat);
        self.table.shared.load::<Learn<V>>(&mut seat, TICKET);
        let numbers = Numbers {
            caller: pass.numbers.callers - pass.numbers.block + 1,
            callers: pass.numbers.callers,
            block: 0,
            met: 0,
            turns: 0,
            own: 0,
        };
        pass.numbers.block -= 1;
        Pass {
            seat,
            numbers,
            sight: pass.sight,
        }
    }

    /// Ends another pass in this one. Of the two lists that they have seen one is a beginning of the other, and the pass
    /// has then seen the longer one.
    pub fn meet(&self, pass: &mut Pass<V>, other: Pass<V>)
        requires cells { (pass.old.cell ≡ self.now) × (other.cell ≡ self.now) }
        requires block { other.block ≡ 0 }
        ensures pass { pass.new ≡ met_with pass.old other }
        ensures grows { Begins pass.old.seen pass.new.seen × Begins other.seen pass.new.seen }
        ensures holds { Holds pass.new.seen pass.new }
        ensures held { Holds pass.old.seen pass.old × Holds other.seen other }
    {
        let Pass {
            seat,
            numbers,
            sight,
        } = other;
        self.table.shared.join_seat::<Meet>(&mut pass.seat, seat);
        self.table.shared.load::<Learn<V>>(&mut pass.seat, TICKET);
        pass.numbers.met += numbers.met + 1;
        if pass.sight.marks < sight.marks {
            pass.sight = sight;
        }
    }
}
