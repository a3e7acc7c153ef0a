// The working list of an issue, and the machine that did its entries.
ghost use Rattle.std.specs.Prelude.{◌≡◌, ◌+◌, ◌<◌, ◌≤◌, [], ◌∷◌, ◌++◌, IfOk, Some, length, slice_get, vec_capacity, vec_len};
ghost use Rattle.mkt_base.specs.declared.event.Entry.{Entry};
ghost use Rattle.rules_file.specs.Rules.{IsRules, issues_in};
ghost use Rattle.rules_file.specs.declared.issue.IssueRules.{IssueRules};
ghost use Rattle.issue_machine.specs.History.{FollowOn, Follows, IsHistory, entries_by};
ghost use Rattle.issue_machine.specs.Step.{board_of, state_after, step};
ghost use Rattle.turn_writer.specs.Losses.{losses_from};
ghost use Rattle.issue_journal.specs.Inside.{work_in, worked};
ghost use Rattle.issue_journal.specs.Issue.{room_for};

use crate::RoomFault;
use issue_machine::Machine;
use mkt_base::{Board, Caller, Entry, NoWatch, Reply, Rows};
use rules_file::Rules;
use std::alloc::Global;
use std::marker::Model;

// The entries of an issue, with room for all that it takes, and a machine that did them.
#[derive(Drop)]
pub(crate) struct Work {
    pub(crate) machine: Machine,
    pub(crate) log: Vec<Entry>,
    pub(crate) capacity: u64,
}

impl Model for Work {
    ghost use Rattle.std.specs.Prelude.{vec_capacity};
    ghost use Rattle.issue_journal.specs.Inside.{IsWork, WorkView, work_of};

    ghost Value = { WorkView };

    ghost view = { λ w. work_of w.machine w.log.items };

    ghost invariant = { λ w. IsWork w.machine w.log.items (vec_capacity w.log) w.capacity };
}

// Adds an item where there is room.
pub(crate) fn push<T: Copy + Drop>(list: &mut Vec<T>, item: &T)
    requires { vec_len list.old < vec_capacity list.old }
    ensures items { list.new.items ≡ list.old.items ++ item.now ∷ [] }
    ensures capacity { vec_capacity list.new ≡ vec_capacity list.old }
{
    list.push_reserved(*item);
}

impl Work {
    // No entries yet, of an issue of the rules.
    pub(crate) fn make(
        alloc: Global,
        rules: &Rules,
        issue: u16,
        capacity: u64,
    ) -> Result<Work, RoomFault>
        requires rules { IsRules rules.now }
        requires issue { issue < length (issues_in rules.now) }
        requires capacity { capacity ≤ 100000000 }
        ensures made { IfOk result (λ made. (r : IssueRules) → slice_get (issues_in rules.now) issue ≡ Some r →
            made ≡ work_in (room_for rules.now r issue capacity) []) }
        ensures empty { IfOk result (λ made. made.entries ≡ []) }
        ensures capacity { IfOk result (λ made. made.capacity ≡ capacity) }
    {
        let Ok(machine) = Machine::make(alloc, rules, issue, capacity) else {
            return Err(RoomFault::Memory);
        };
        let Ok(log) = Vec::with_capacity(alloc, capacity as usize) else {
            return Err(RoomFault::Memory);
        };
        Ok(Work {
            machine,
            log,
            capacity,
        })
    }

    // What holds of it.
    pub(crate) fn stands(&self)
        ensures history { IsHistory self.now.participants self.now.entries }
        ensures within { length self.now.entries ≤ self.now.capacity }
        ensures small { self.now.capacity ≤ 100000000 }
    {
        let _ = &self.machine;
    }

    // How many entries it has.
    pub(crate) fn length(&self) -> u64
        ensures { result ≡ length self.now.entries }
    {
        self.log.len() as u64
    }

    // How many it takes.
    pub(crate) fn capacity(&self) -> u64
        ensures { result ≡ self.now.capacity }
    {
        self.capacity
    }

    // The next own number of a caller.
    pub(crate) fn next_own(&self, caller: Caller) -> u32
        requires { caller.0 < 17 }
        ensures { result ≡ length (entries_by caller.0 self.now.entries) }
    {
        self.machine.next_own(caller)
    }

    // The entry of a place.
    pub(crate) fn entry(&self, at: u64) -> Entry
        requires { at < length self.now.entries }
        ensures { slice_get self.now.entries at ≡ Some result }
    {
        self.log[at as usize]
    }

    // What the board shows.
    pub(crate) fn board(&self) -> Board
        ensures { result ≡ board_of self.now.terms (state_after self.now.terms self.now.entries) }
    {
        self.machine.board()
    }

    // The entries alone.
    pub(crate) fn into_rows(self) -> Rows<Entry>
        ensures { result ≡ self.entries }
    {
        let Work { log, .. } = self;
        Rows::new(log)
    }

    // Does an entry that follows the others.
    pub(crate) fn step(&mut self, entry: &Entry) -> Reply
        requires follows { Follows self.old.participants self.old.entries entry.now }
        requires room { length self.old.entries < self.old.capacity }
        ensures work { self.new ≡ worked (entry.now ∷ []) self.old }
        ensures reply { result ≡ (step self.old.terms entry.now (state_after self.old.terms self.old.entries)).reply }
    {
        let reply = self.machine.step(entry, &mut NoWatch);
        push(&mut self.log, entry);
        reply
    }
}
