// The desk, and how events are entered and boards read at it.
ghost use Rattle.std.specs.Prelude.{◌≡◌, ◌+◌, ◌-◌, ℕ, ◌<◌, ◌≤◌, None, Some, true, is_some, length};
ghost use Rattle.mkt_base.specs.Desk.{stop_with};
ghost use Rattle.mkt_base.specs.declared.quote.Board.{Board};
ghost use Rattle.turn_cell.specs.Marks.{entries_in, halt_in};
ghost use Rattle.turn_cell.specs.Passes.{Holds, next_pass, one_less};
ghost use Rattle.issue_desk.specs.Desk.{IsDesk, Takes, Tells, at_rest, state_of};

use issue_journal::Issue;
use issue_server::{Served, Server, Shown};
use memory_node::MemoryNode;
use mkt_base::{Board, Desk, Event, Reply, Stopped, TurnStop};
use stage_play::SeenDesk;
use std::marker::Model;
use std::sync::Wait;
use turn_cell::Pass;

/// Where one gateway enters its events of an issue: the server of the issue, which all its gateways share, and the gateway's pass.
#[derive(Drop)]
pub struct IssueDesk<'a, N: MemoryNode> {
    pub(crate) server: &'a Server<N>,
    // none only while a call of the server has it
    pub(crate) pass: Option<Pass<Issue<N>>>,
    pub(crate) stop: Option<Stopped>,
}

impl<'a, N: MemoryNode> Model for IssueDesk<'a, N> {
    ghost use Rattle.issue_desk.specs.Desk.{DeskNow, HoldsPass, desk_of};

    ghost Value = { DeskNow };

    ghost view = { λ d. desk_of d.server.now d.pass d.stop };

    ghost invariant = { λ d. HoldsPass d.server.now d.pass d.stop };
}

/// What no call changes of a desk. No value of this type is made: contracts alone know it.
pub struct DeskPlace<N: MemoryNode> {
    pub pass: Pass<Issue<N>>,
}

impl<N: MemoryNode> Model for DeskPlace<N> {
    ghost use Rattle.turn_cell.specs.Passes.{Known};
    ghost use Rattle.issue_journal.specs.Issue.{Fixed};

    ghost Value = { Known Fixed };

    ghost view = { λ p. p.pass };
}

// The first stop of a desk, after one answer more.
fn first_stop(
    kept: &Option<Stopped>,
    event: &Event,
    answer: &Result<Reply, TurnStop>,
) -> Option<Stopped>
    ensures { result ≡ stop_with kept.now event.now answer.now }
{
    match kept {
        Some(stopped) => Some(*stopped),
        None => match answer {
            Ok(_) => None,
            Err(cause) => Some(Stopped {
                event: *event,
                cause: *cause,
            }),
        },
    }
}

impl<'a, N: MemoryNode> IssueDesk<'a, N> {
    /// The desk of the pass's caller, a gateway, 1 to 16, at the pass's server. No halt was seen yet.
    pub fn make(server: &'a Server<N>, pass: Pass<Issue<N>>) -> IssueDesk<'a, N>
        requires cell { pass.cell ≡ server.now }
        requires gateway { (1 ≤ pass.caller) × (pass.caller ≤ 16) }
        requires fixed { is_some pass.fixed ≡ true }
        requires holds { Holds pass.seen pass }
        requires halt { halt_in pass.seen ≡ None }
        ensures pass { result.pass ≡ pass }
        ensures stop { result.stop ≡ None }
    {
        IssueDesk {
            server,
            pass: Some(pass),
            stop: None,
        }
    }

    /// The desk of the next caller, who has no pass yet and gets it from this desk's. It has seen what this one has.
    pub fn another(&mut self) -> IssueDesk<'a, N>
        requires block { 0 < self.old.pass.block }
        requires gateway { (1 ≤ self.old.pass.callers + 1 - self.old.pass.block) × (self.old.pass.callers + 1 - self.old.pass.block ≤ 16) }
        requires halt { halt_in self.old.pass.seen ≡ None }
        ensures pass { self.new.pass ≡ one_less self.old.pass }
        ensures stop { self.new.stop ≡ self.old.stop }
        ensures next { result.pass ≡ next_pass self.old.pass }
        ensures next_stop { result.stop ≡ None }
    {
        let Some(mut pass) = self.pass.take() else {
            unreachable!()
        };
        let next = self.server.split(&mut pass);
        self.pass = Some(pass);
        IssueDesk::make(self.server, next)
    }
}

impl<'a, N: MemoryNode> Desk for IssueDesk<'a, N> {
    type Fixed = DeskPlace<N>;

    ghost fixed = { λ d. at_rest d.pass };

    ghost takes = { λ place event. Takes place event };

    ghost state = { λ d. state_of d };

    ghost tells = { λ d board made. Tells d.pass board made };

    fn submit<W: Wait>(&mut self, rt: &W, event: Event) -> Result<Reply, TurnStop> {
        let Some(pass) = self.pass.take() else {
            unreachable!()
        };
        let Served { pass, result } = self.server.submit(rt, pass, event);
        self.pass = Some(pass);
        self.stop = first_stop(&self.stop, &event, &result);
        result
    }

    fn show<W: Wait>(&mut self, rt: &W) -> Board {
        let Some(pass) = self.pass.take() else {
            unreachable!()
        };
        let Shown { pass, board } = self.server.show(rt, pass);
        self.pass = Some(pass);
        board
    }

    fn stop(&self) -> Option<Stopped> {
        self.stop
    }

    ghost use Rattle.issue_desk.specs.Sound.{sound_of};

    ghost sound = { λ d. sound_of d };
}

impl<'a, N: MemoryNode> SeenDesk for IssueDesk<'a, N> {
    ghost caller = { λ place. place.caller };

    fn seen(&self) -> u64 {
        let Some(pass) = &self.pass else {
            unreachable!()
        };
        pass.seen()
    }

    fn is_halted(&self) -> bool {
        let Some(pass) = &self.pass else {
            unreachable!()
        };
        pass.halted().is_some()
    }
}
