// The machine of one issue.
ghost use Rattle.std.specs.Prelude.{◌≡◌, ◌+◌, ◌<◌, ◌≤◌, IfOk, Some, length, slice_get};
ghost use Rattle.rules_file.specs.Rules.{IsRules, issues_in};
ghost use Rattle.rules_file.specs.declared.issue.IssueRules.{IssueRules};
ghost use Rattle.issue_machine.specs.Journal.{IsEventOf, MayStep, new_machine, stepped};
ghost use Rattle.issue_machine.specs.Replying.{WasReplied};
ghost use Rattle.issue_machine.specs.Standing.{AwaitsFinish, MayTake};
ghost use Rattle.issue_machine.specs.Step.{board_of, event_step, step};

use crate::clock::take_clock;
use crate::nodes::{take_crash, take_rejoin};
use crate::orders::{take_cancel, take_change, take_order};
use issue_book::IssueFault;
use issue_floor::Floor;
use mkt_base::{Board, Caller, Entry, Event, NodeNo, NodeState, Reply, Side, Watch};
use node_rules::node_step;
use rules_file::Rules;
use std::alloc::Global;
use std::marker::Model;

/// Why there is no machine.
#[derive(Clone, Copy, Debug, PartialEq, Eq)]
pub enum MachineFault {
    /// There is no memory for the issue's grid, rules or orders.
    Memory,
}

/// The machine of one issue: it does the journal's entries one after another. Contracts see its issue, the number of
/// participants, which is at most 64, and the next own number of each caller, the system and 16 gateways. No call but `make`
/// takes memory.
#[derive(Drop)]
pub struct Machine {
    floor: Floor,
    participants: u16,
    // The next own number of the system and of each of 16 gateways.
    next_own: [u32; 17],
}

impl Model for Machine {
    ghost use Rattle.issue_machine.specs.Journal.{MachineView};
    ghost use Rattle.issue_machine.specs.Standing.{IsMachine};

    ghost Value = { MachineView };

    ghost view = { λ m. record { issue = m.floor; participants = m.participants; next_own = m.next_own } };

    ghost invariant = { λ m. IsMachine (record { issue = m.floor; participants = m.participants; next_own = m.next_own }) };
}

// Does the event of an entry.
fn take_event<W: Watch>(floor: &mut Floor, entry: &Entry, watch: &mut W) -> Reply
    requires entry { MayTake floor.old entry.now }
    requires event { IsEventOf 64 entry.now.event }
    requires finish { AwaitsFinish floor.old.terms.sessions floor.old.state.now floor.old.state.phase }
    ensures replied { WasReplied W.took (event_step floor.old.terms entry.now entry.now.event floor.old.state) floor.old floor.new watch.old watch.new result }
    ensures finish { AwaitsFinish floor.old.terms.sessions floor.new.state.now floor.new.state.phase }
{
    match entry.event {
        Event::Order {
            participant,
            side,
            kind,
            qty,
        } => take_order(floor, entry, participant, side, kind, qty, watch),
        Event::Change {
            participant,
            target,
            kind,
            qty,
        } => take_change(floor, entry, participant, target, kind, qty, watch),
        Event::Cancel {
            participant,
            target,
        } => take_cancel(floor, entry, participant, target, watch),
        Event::Clock { at } => take_clock(floor, at, watch),
        Event::Crash { node } => take_crash(floor, node, watch),
        Event::Rejoin { node } => take_rejoin(floor, node, watch),
    }
}

impl Machine {
    /// The machine of an issue of the rules, given by its number from 0, before its first entry. It takes at most `capacity`
    /// entries, which is at most 100,000,000.
    pub fn make(
        alloc: Global,
        rules: &Rules,
        issue: u16,
        capacity: u64,
    ) -> Result<Machine, MachineFault>
        requires rules { IsRules rules.now }
        requires issue { issue < length (issues_in rules.now) }
        requires capacity { capacity ≤ 100000000 }
        ensures { IfOk result (λ made. (r : IssueRules) → slice_get (issues_in rules.now) issue ≡ Some r → made ≡ new_machine rules.now r capacity) }
    {
        match Floor::make(alloc, rules, issue, capacity as u32) {
            Ok(floor) => Ok(Machine {
                floor,
                participants: rules.participants(),
                next_own: [0; 17],
            }),
            Err(IssueFault::Memory) => Err(MachineFault::Memory),
        }
    }

    /// Does an entry, tells a watch its outputs in their order, and answers its reply. A refused event changes nothing but the
    /// number of entries, the caller's next own number, and by the rules of nodes the states of those that are joining.
    pub fn step<W: Watch>(&mut self, entry: &Entry, watch: &mut W) -> Reply
        requires { MayStep self.old entry.now }
        ensures state { self.new ≡ stepped self.old entry.now }
        ensures count { self.new.issue.state.entries ≡ self.old.issue.state.entries + 1 }
        ensures reply { result ≡ (step self.old.issue.terms entry.now self.old.issue.state).reply }
        ensures told { W.took watch.old (step self.old.issue.terms entry.now self.old.issue.state).outputs watch.new }
    {
        self.floor.stands();
        let nodes = node_step(
            self.floor.entries(),
            entry.caller,
            &entry.event,
            self.floor.nodes(),
        );
        let reply = take_event(&mut self.floor, entry, watch);
        self.floor.count_entry(nodes);
        self.next_own[usize::from(entry.caller.0)] = entry.own + 1;
        reply
    }

    /// What the board shows: prices in tenths of a yen, the length in entries.
    pub fn board(&self) -> Board
        ensures { result ≡ board_of self.now.issue.terms self.now.issue.state }
    {
        Board {
            length: self.floor.entries(),
            phase: self.floor.phase(),
            last: self.floor.last(),
            quote: self.floor.quote(),
            bid: self.floor.best_limit(Side::Buy),
            ask: self.floor.best_limit(Side::Sell),
        }
    }

    /// The next own number of a caller: how many entries it has.
    pub fn next_own(&self, caller: Caller) -> u32
        requires { caller.0 < 17 }
        ensures { slice_get self.now.next_own caller.0 ≡ Some result }
    {
        self.next_own[usize::from(caller.0)]
    }

    /// The state of a node, of which there are three.
    pub fn node(&self, node: NodeNo) -> NodeState
        ensures state { slice_get self.now.issue.state.nodes node ≡ Some result }
        ensures three { length self.now.issue.state.nodes ≡ 3 }
    {
        self.floor.node(node)
    }
}
