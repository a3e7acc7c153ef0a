// A journal that entries are still added to.
ghost use Rattle.std.specs.Prelude.{◌≡◌, ◌<◌, ◌≤◌, ◌++◌, [], ◌∷◌, length, OnOk};
ghost use Rattle.issue_machine.specs.History.{entries_by, nodes_after};
ghost use Rattle.audit.specs.Told.{crashes_up, entry_at, may_enter};

use mkt_base::{Caller, Entry, Event, NodeState, Rows};
use node_rules::{has_synchronised, is_lost, node_step};
use std::alloc::{AllocError, Global};
use std::marker::Model;

// How many entries a journal has at most.
const MOST: usize = 100_000_000;

// The entries, the states of the nodes after them, and the next own number of the system and of each of 16 gateways.
#[derive(Drop)]
pub(crate) struct Journal {
    entries: Vec<Entry>,
    nodes: [NodeState; 3],
    next_own: [u32; 17],
}

impl Model for Journal {
    ghost use Rattle.std.specs.Prelude.{List};
    ghost use Rattle.mkt_base.specs.declared.event.Entry.{Entry};
    ghost use Rattle.audit.specs.Kept.{IsKept};

    ghost Value = { List Entry };

    ghost view = { λ j. j.entries.items };

    ghost invariant = { λ j. IsKept j.entries.items j.nodes j.next_own };
}

impl Journal {
    // A journal without entries.
    pub(crate) fn new(alloc: Global) -> Journal
        ensures { result ≡ [] }
    {
        Journal {
            entries: Vec::new(alloc),
            nodes: [NodeState::Synchronised; 3],
            next_own: [0; 17],
        }
    }

    // The next own number of a caller.
    pub(crate) fn next_own(&self, caller: Caller) -> u32
        requires { caller.0 < 17 }
        ensures { result ≡ length (entries_by caller.0 self.now) }
    {
        self.next_own[usize::from(caller.0)]
    }

    // Whether an event of a caller may follow.
    #[tactic(auto, unfolding(crate::specs::Told::may_enter))]
    pub(crate) fn may_enter(&self, gateways: u16, caller: Caller, event: &Event) -> bool
        ensures { result ≡ may_enter gateways self.now caller event.now }
    {
        if self.entries.len() >= MOST || caller.0 > gateways {
            return false;
        }
        if caller.0 == 0 && !(0 < self.entries.len() && crashes_up(self.nodes, event)) {
            return false;
        }
        has_synchronised(node_step(self.entries.len() as u64, caller, event, self.nodes))
    }

    // Adds an event of a caller. Where there is no memory nothing is added.
    pub(crate) fn enter(&mut self, caller: Caller, event: &Event) -> Result<(), AllocError>
        requires caller { caller.0 < 17 }
        requires room { length self.old < 100000000 }
        ensures { OnOk result (self.new ≡ self.old ++ entry_at self.old caller event.now ∷ []) }
    {
        let place = self.entries.len() as u64;
        let own = self.next_own[usize::from(caller.0)];
        let entry = Entry {
            place,
            caller,
            own,
            event: *event,
        };
        let nodes = node_step(place, caller, event, self.nodes);
        self.entries.push(entry)?;
        self.nodes = nodes;
        self.next_own[usize::from(caller.0)] = own + 1;
        Ok(())
    }

    // Gives the entries.
    pub(crate) fn into_rows(self) -> Rows<Entry>
        ensures { result ≡ self }
    {
        let Journal {
            entries,
            nodes: _,
            next_own: _,
        } = self;
        Rows::new(entries)
    }
}

// Whether an event crashes a node that is not lost.
fn crashes_up(nodes: [NodeState; 3], event: &Event) -> bool
    ensures { result ≡ crashes_up nodes event.now }
{
    match event {
        Event::Crash { node } => !is_lost(nodes[usize::from(node.n())]),
        _ => false,
    }
}
