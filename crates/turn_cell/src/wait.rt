// Waiting for a ticket to be served. Nothing here is proved but that the turn is had in the end: a waiter that sleeps for
// good meets every clause.
ghost use Rattle.std.specs.Prelude.{◌≡◌, ◌≢◌, []};
ghost use Rattle.turn_cell.specs.Marks.{marks_by};
ghost use Rattle.turn_cell.specs.Views.{readied};
ghost use Rattle.turn_cell.specs.Steps.{Takes};
ghost use Rattle.turn_cell.specs.declared.view.Stage.TheVariants.{Waiting};

use crate::cell::SERVED;
use crate::pass::Place;
use crate::plays::Look;
use crate::{TurnCell, TurnValue};
use std::hint::spin_loop;
use std::sync::Wait;
use std::thread::yield_now;

/// A waiter looks while at most so many turns come before its own, and sleeps at once where more do.
const NEAR: u64 = 3;

/// So often it looks before it sleeps: some tens of microseconds, in which so few turns mostly end. It does not yield
/// meanwhile. On a machine with other work each yield may cost a slice of time, and every ticket behind would wait for it.
const LOOKS: u32 = 2_000;

/// So often it looks when it was woken.
const LOOKS_WOKEN: u32 = 400;

impl<V: TurnValue> TurnCell<V> {
    // Looks until the ticket is served, and takes the turn.
    pub(crate) fn wait_for<R: Wait>(&self, rt: &R, seat: &mut Place<V>, ticket: u64)
        requires cell { seat.old.table_id ≡ self.now }
        requires waits { (seat.old.me.0.stage ≡ Waiting) × (seat.old.me.0.at ≡ ticket) }
        requires real { seat.old.me.0.caller ≢ 0 }
        requires empty { seat.old.me.1 ≡ [] }
        ensures same { (seat.new.table_id ≡ seat.old.table_id) × (seat.new.id ≡ seat.old.id) }
        ensures takes { Takes (marks_by V.entries V.halt) V.fixed seat.old.me.0 (readied seat.old.me.0) seat.new.me }
    {
        let mut looks = LOOKS;
        for _ in rt.forever() {
            let served = self.table.shared.load::<Look<V>>(seat, SERVED);
            if served == ticket {
                return;
            }
            if looks > 0 && ticket.wrapping_sub(served) <= NEAR {
                looks -= 1;
                spin_loop();
            } else {
                self.sleep(rt, ticket, looks == 0);
                looks = LOOKS_WOKEN;
            }
        }
        unreachable!()
    }

    // Sleeps until the ticket is next, or, where the waiter has looked for long, until it is served.
    fn sleep<R: Wait>(&self, rt: &R, ticket: u64, has_looked: bool) {
        let space = self.lot.space(ticket);
        let wakes = space.come();
        let before = ticket.wrapping_sub(self.table.shared.peek(SERVED));
        if before > 1 || (before == 1 && has_looked) {
            space.sleep(rt, wakes);
        }
        space.go();
    }
}

// What is left for a caller with no turns left: it waits and never returns.
pub(crate) fn wait_for_good<R: Wait>(rt: &R)
    ensures { ⊥ }
{
    for _ in rt.forever() {
        yield_now();
    }
    unreachable!()
}
