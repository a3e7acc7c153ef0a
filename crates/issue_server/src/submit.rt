// Events, each in a turn of its own.
ghost use Rattle.std.specs.Prelude.{◌≡◌, ◌+◌, ◌<◌, ◌≤◌, ◌^◌, length, IfSome};
ghost use Rattle.turn_cell.specs.Marks.{Begins, entries_in, marks_in};
ghost use Rattle.turn_cell.specs.Passes.{GoesOn, Holds, Known, entered};
ghost use Rattle.issue_machine.specs.Journal.{IsEventOf};
ghost use Rattle.issue_journal.specs.Issue.{Fixed, IssueNow};
ghost use Rattle.issue_server.specs.Served.{HasAnswered, HasTakenTurn, HasTried, IsJournalSeen, IsServed, StaysHalted, StaysThePass};

use crate::{Served, Server, Tried, TryStop};
use issue_journal::Issue;
use memory_node::MemoryNode;
use mkt_base::{Caller, Event};
use std::sync::Wait;
use turn_cell::{Busy, Pass, Turn};

impl<N: MemoryNode> Server<N> {
    /// Enters an event of the pass's caller, which is a gateway, 1 to 16. Waits for its turn.
    ///
    /// `JournalFull`: with the entry, and a loss of each node that is not lost, the journal that the pass has then seen could pass its
    /// capacity. `NoNode`: the issue is halted, by this event or before; the pass has seen by what. A pass that has seen a halt is
    /// answered so from then on. Nothing of the caller is added with either.
    pub fn submit(&self, rt: &impl Wait, pass: Pass<Issue<N>>, event: Event) -> Served<N>
        requires cell { pass.cell ≡ self.now }
        requires gateway { pass.caller ≤ 16 }
        requires event { IfSome pass.fixed (λ f. IsEventOf f.participants event) }
        ensures turn { HasTakenTurn pass result.pass }
        ensures grows { Begins pass.seen result.pass.seen }
        ensures whole { IsJournalSeen result.pass }
        ensures holds { Holds result.pass.seen result.pass }
        ensures answered { HasAnswered event result.result pass result.pass }
        ensures halted { StaysHalted result.result pass result.pass }
    {
        let caller = pass.caller();
        let own = pass.next_own();
        let turn = self.cell.enter(rt, pass);
        self.record(turn, caller, own, event)
    }

    /// Enters an event as `submit` does where nobody has the turn or waits for it, and waits for nobody: it tries once to take the turn.
    ///
    /// `Busy`: the try failed. It is counted with the two numbers that it found, and all else is as it was.
    pub fn try_submit(&self, pass: Pass<Issue<N>>, event: Event) -> Tried<N>
        requires cell { pass.cell ≡ self.now }
        requires gateway { pass.caller ≤ 16 }
        requires event { IfSome pass.fixed (λ f. IsEventOf f.participants event) }
        requires turns { pass.turns + 1 < 2 ^ 32 }
        ensures stays { StaysThePass pass result.pass }
        ensures tried { HasTried event result.result pass result.pass }
    {
        let caller = pass.caller();
        let own = pass.next_own();
        match self.cell.try_enter(pass) {
            Ok(turn) => {
                let Served { pass, result } = self.record(turn, caller, own, event);
                let result = match result {
                    Ok(reply) => Ok(reply),
                    Err(stop) => Err(TryStop::Stop(stop)),
                };
                Tried { pass, result }
            }
            Err(
                Busy {
                    pass,
                    served,
                    ticket,
                },
            ) => Tried {
                pass,
                result: Err(TryStop::Busy { served, ticket }),
            },
        }
    }

    // Enters the event in the turn, and gives the turn back.
    fn record(&self, mut turn: Turn<Issue<N>>, caller: Caller, own: u32, event: Event) -> Served<N>
        requires cell { turn.pass.cell ≡ self.now }
        requires caller { (caller.0 ≡ turn.pass.caller) × (1 ≤ caller.0) × (caller.0 ≤ 16) }
        requires own { own ≡ length (entries_in turn.pass.made) }
        requires event { IsEventOf turn.value.fixed.participants event }
        requires found { (p : Known Fixed) × (turn.pass ≡ entered p (marks_in turn.value.entries turn.value.halt))
            × GoesOn (λ (i : IssueNow). marks_in i.entries i.halt) (λ (i : IssueNow). i.fixed) p turn.value }
        ensures { (p : Known Fixed) → turn.pass ≡ entered p (marks_in turn.value.entries turn.value.halt)
            → GoesOn (λ (i : IssueNow). marks_in i.entries i.halt) (λ (i : IssueNow). i.fixed) p turn.value
            → IsServed event result.result p result.pass }
    {
        let result = turn.value().turn(caller, own, event);
        let pass = self.cell.leave(turn);
        Served { pass, result }
    }
}
