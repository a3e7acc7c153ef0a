// How desks end.
ghost use Rattle.std.specs.Prelude.{◌≡◌};
ghost use Rattle.issue_desk.specs.Desk.{IsDesk};

use crate::IssueDesk;
use issue_journal::Issue;
use memory_node::MemoryNode;
use turn_cell::Pass;

impl<'a, N: MemoryNode> IssueDesk<'a, N> {
    /// The pass of the desk.
    pub fn into_pass(self) -> Pass<Issue<N>>
        ensures pass { result ≡ self.entry.pass }
        ensures desk { IsDesk self.entry }
    {
        let Some(pass) = self.pass else {
            unreachable!()
        };
        pass
    }
}
