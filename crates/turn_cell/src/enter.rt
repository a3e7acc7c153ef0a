// The turns: a caller enters, by a ticket that it waits for or by a try, and leaves.
ghost use Rattle.std.specs.Prelude.{◌≡◌, ◌≢◌, ℕ, ◌+◌, ◌^◌, ◌<◌, ◌≤◌, List, [], ◌∷◌, ◌++◌, None, Some, IfOk, IfErr, cond, nat_lt, length};
ghost use Rattle.turn_cell.specs.Marks.{marks_by, entries_in, Begins, IsTurn, Owned};
ghost use Rattle.turn_cell.specs.Views.{counted, rested};
ghost use Rattle.turn_cell.specs.Passes.{entered, tried, left_with, GoesOn, Holds};
ghost use Rattle.turn_cell.specs.Kept.{sight_of, with_own};
ghost use Rattle.turn_cell.specs.declared.view.Stage.TheVariants.{Ready};
ghost use Rattle.turn_cell.specs.declared.value.Mark.{Mark};

use crate::cell::{MARKS, SERVED, TICKET};
use crate::pass::{Numbers, Pass, Place, Sight};
use crate::plays::{Count, Draw, Note, Serve, Try};
use crate::turn::Turn;
use crate::wait::wait_for_good;
use crate::{TurnCell, TurnValue};
use std::sync::Wait;

/// Another caller had drawn the ticket of the number that was served.
#[derive(Drop)]
pub struct Busy<V: TurnValue> {
    /// The pass, with one failed try more.
    pub pass: Pass<V>,
    /// The number that the try found served.
    pub served: u64,
    /// The next ticket, just after that.
    pub ticket: u64,
}

impl<V: TurnValue> TurnCell<V> {
    /// Draws a ticket and waits until it is served. A pass that has made 2^32 - 1 turns waits for good.
    pub fn enter(&self, rt: &impl Wait, pass: Pass<V>) -> Turn<V>
        requires cell { pass.cell ≡ self.now }
        ensures pass { result.pass ≡ entered pass (marks_by V.entries V.halt result.value) }
        ensures finds { GoesOn (marks_by V.entries V.halt) V.fixed pass result.value }
    {
        let Pass {
            mut seat,
            mut numbers,
            sight: _,
        } = pass;
        if numbers.turns == u32::MAX {
            wait_for_good(rt);
        }
        numbers.turns += 1;
        let ticket = self.table.shared.fetch_add::<Draw<V>>(&mut seat, TICKET, 1);
        self.wait_for(rt, &mut seat, ticket);
        let Some(value) = self.table.shared.exchange(&mut seat, 0, None) else {
            unreachable!()
        };
        let start = sight_of(&value);
        Turn {
            value,
            seat,
            numbers,
            start,
        }
    }

    /// Takes the turn where nobody has it or waits for it, and waits for nobody: it looks at the served number and tries
    /// once to draw the ticket of that number.
    pub fn try_enter(&self, pass: Pass<V>) -> Result<Turn<V>, Busy<V>>
        requires cell { pass.cell ≡ self.now }
        requires turns { pass.turns + 1 < 2 ^ 32 }
        ensures pass { IfOk result (λ t. t.pass ≡ entered pass (marks_by V.entries V.halt t.value)) }
        ensures finds { IfOk result (λ t. GoesOn (marks_by V.entries V.halt) V.fixed pass t.value) }
        ensures busy { IfErr result (λ b. (b.served ≢ b.ticket) × (b.pass ≡ tried pass b.served b.ticket)) }
    {
        let Pass {
            mut seat,
            mut numbers,
            sight,
        } = pass;
        let served = self.table.shared.load::<Note<V>>(&mut seat, SERVED);
        let ticket = self
            .table
            .shared
            .compare_exchange::<Try<V>>(&mut seat, TICKET, served, served + 1);
        if ticket != served {
            let pass = Pass {
                seat,
                numbers,
                sight,
            };
            return Err(Busy {
                pass,
                served,
                ticket,
            });
        }
        numbers.turns += 1;
        let Some(value) = self.table.shared.exchange(&mut seat, 0, None) else {
            unreachable!()
        };
        let start = sight_of(&value);
        Ok(Turn {
            value,
            seat,
            numbers,
            start,
        })
    }

    /// Gives the turn back, and serves the next ticket. The turn may have added nothing, or one entry of the caller with
    /// its next own number and after it losses, or such a halt.
    pub fn leave(&self, turn: Turn<V>) -> Pass<V>
        requires cell { turn.pass.cell ≡ self.now }
        requires fixed { Some (V.fixed turn.value) ≡ turn.pass.fixed }
        requires added { (added : List Mark)
            × (marks_by V.entries V.halt turn.value ≡ turn.pass.seen ++ added)
            × IsTurn turn.pass.caller (length (entries_in turn.pass.made)) added }
        ensures pass { result ≡ left_with turn.pass (marks_by V.entries V.halt turn.value) }
        ensures grows { Begins turn.pass.seen result.seen }
        ensures holds { Holds result.seen result }
    {
        let Turn {
            value,
            mut seat,
            numbers,
            start,
        } = turn;
        let sight = sight_of(&value);
        let numbers = numbers_after(numbers, &start, &sight);
        let added = sight.marks - start.marks;
        let next = self.put_back(&mut seat, value, added);
        self.lot.wake(next);
        Pass {
            seat,
            numbers,
            sight,
        }
    }

    // Puts the value back, counts the marks that the turn has added to it, and serves the next ticket, which it gives.
    fn put_back(&self, seat: &mut Place<V>, value: V, added: u64) -> u64
        requires cell { seat.old.table_id ≡ self.now }
        requires turn { (seat.old.me.0.stage ≡ Ready) × (seat.old.me.1 ≡ (0, None) ∷ []) }
        requires fixed { Some (V.fixed value) ≡ seat.old.me.0.fixed }
        requires added { (rest : List Mark)
            × (marks_by V.entries V.halt value ≡ seat.old.me.0.seen ++ rest)
            × IsTurn seat.old.me.0.caller (length (entries_in seat.old.me.0.made)) rest
            × (added ≡ length rest) }
        requires short { length (marks_by V.entries V.halt value) ≤ 2 ^ 63 }
        ensures same { seat.new.table_id ≡ seat.old.table_id }
        ensures rests { seat.new.me ≡ (rested (counted seat.old.me.0 (marks_by V.entries V.halt value)), []) }
        ensures holds { Owned seat.new.me.0.seen seat.new.me.0.caller seat.new.me.0.made seat.new.me.0.met }
    {
        let hole = self.table.shared.exchange(seat, 0, Some(value));
        let None = hole else { unreachable!() };
        self.table.shared.fetch_add::<Count<V>>(seat, MARKS, added);
        let served = self.table.shared.fetch_add::<Serve<V>>(seat, SERVED, 1);
        served.wrapping_add(1)
    }
}

// What there is to see of a value's journal.
fn sight_of<V: TurnValue>(value: &V) -> Sight
    ensures sight { result ≡ sight_of (marks_by V.entries V.halt value.now) }
    ensures short { length (marks_by V.entries V.halt value.now) ≤ 2 ^ 63 }
{
    let entries = value.length();
    let halt = value.halted();
    Sight {
        marks: entries + u64::from(halt.is_some()),
        entries,
        halt,
    }
}

// The numbers of a pass after a turn that saw these marks first and last: an entry more is the caller's own.
fn numbers_after(mut numbers: Numbers, start: &Sight, end: &Sight) -> Numbers
    requires { numbers.own < numbers.turns }
    ensures { result ≡ with_own numbers (numbers.own + cond (nat_lt start.now.entries end.now.entries) 1 0) }
{
    if end.entries > start.entries {
        numbers.own += 1;
    }
    numbers
}
