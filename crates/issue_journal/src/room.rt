// The room for an issue: all the memory that it ever needs.
ghost use Rattle.std.specs.Prelude.{◌≡◌, ◌<◌, ◌≤◌, IfOk, Some, length, slice_get};
ghost use Rattle.rules_file.specs.Rules.{IsRules, issues_in};
ghost use Rattle.rules_file.specs.declared.issue.IssueRules.{IssueRules};
ghost use Rattle.issue_journal.specs.Issue.{room_for};

use crate::RoomFault;
use crate::work::Work;
use rules_file::Rules;
use std::alloc::Global;
use std::marker::Model;

/// The room for one issue: its machine before the first entry, and an empty working list. Contracts see which issue it is for,
/// and how many entries it takes.
#[derive(Drop)]
pub struct IssueRoom {
    pub(crate) work: Work,
    pub(crate) issue: u16,
}

impl Model for IssueRoom {
    ghost use Rattle.std.specs.Prelude.{◌≡◌, ◌≤◌, []};
    ghost use Rattle.issue_journal.specs.Inside.{room_of};
    ghost use Rattle.issue_journal.specs.Issue.{RoomView};

    ghost Value = { RoomView };

    ghost view = { λ r. room_of r.work r.issue };

    ghost invariant = { λ r. (r.work.entries ≡ []) × (3 ≤ r.work.capacity) };
}

impl IssueRoom {
    /// The room for an issue of the rules, given by its number from 0, with a journal of at most `capacity` entries, which is 3
    /// to 100,000,000. All memory that the issue ever needs is taken here. `Memory` comes only where there is none.
    pub fn make(
        alloc: Global,
        rules: &Rules,
        issue: u16,
        capacity: u64,
    ) -> Result<IssueRoom, RoomFault>
        requires rules { IsRules rules.now }
        requires issue { issue < length (issues_in rules.now) }
        requires capacity { (3 ≤ capacity) × (capacity ≤ 100000000) }
        ensures { IfOk result (λ room. (r : IssueRules) → slice_get (issues_in rules.now) issue ≡ Some r →
            room ≡ room_for rules.now r issue capacity) }
    {
        let Ok(work) = Work::make(alloc, rules, issue, capacity) else {
            return Err(RoomFault::Memory);
        };
        Ok(IssueRoom { work, issue })
    }
}
