// The end of a cell.
ghost use Rattle.std.specs.Prelude.{◌≡◌, ◌≢◌, ℕ, ◌+◌, [], Some, All, length};
ghost use Rattle.turn_cell.specs.Marks.{marks_by, marks_of, Numbered};
ghost use Rattle.turn_cell.specs.Passes.{names_in, Holds};

use crate::pass::Pass;
use crate::{TurnCell, TurnValue};

impl<V: TurnValue> TurnCell<V> {
    /// Ends the cell with the one pass that is left, and gives the value. Its marks are what the pass has seen. Of the
    /// pass's caller and of each caller that it has met it has exactly the marks that were made, with own numbers from
    /// 0, and of no other caller any.
    pub fn close(self, pass: Pass<V>) -> V
        requires cell { pass.cell ≡ self }
        requires all_back { length pass.met + pass.block + 1 ≡ pass.callers }
        ensures marks { marks_by V.entries V.halt result ≡ pass.seen }
        ensures fixed { Some (V.fixed result) ≡ pass.fixed }
        ensures holds { Holds pass.seen pass }
        ensures numbered { Numbered pass.made × All (λ g. Numbered g.made) pass.met }
        ensures nobody_else { (c : ℕ) → c ≢ 0 → names_in c pass ≡ 0 → marks_of c pass.seen ≡ [] }
    {
        let Pass {
            seat,
            numbers: _,
            sight: _,
        } = pass;
        let TurnCell { table, lot } = self;
        drop(lot);
        let mut closed = table.close_with(seat);
        let slot = closed.take(0);
        closed.free();
        let Some(value) = slot else { unreachable!() };
        value
    }
}
