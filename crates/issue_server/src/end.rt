// The end of a server.
ghost use Rattle.std.specs.Prelude.{◌≡◌, ◌+◌, Some, All, length};
ghost use Rattle.turn_cell.specs.Marks.{entries_in, halt_in, Numbered};
ghost use Rattle.issue_journal.specs.Issue.{IsIssueNow};
ghost use Rattle.issue_server.specs.Meeting.{AreTheirs, IsHaltTheirs};
ghost use Rattle.issue_server.specs.Served.{IsJournalSeen};

use crate::Server;
use issue_journal::Issue;
use memory_node::MemoryNode;
use turn_cell::{Pass, marks_are_the_journal};

impl<N: MemoryNode> Server<N> {
    /// Ends the server with the one pass that is left, and gives the issue. Its journal is what the pass has seen, and its halt is the one
    /// that the pass has seen. Of each caller it has exactly the entries that were made with its pass, with own numbers from 0.
    pub fn close(self, pass: Pass<Issue<N>>) -> Issue<N>
        requires cell { pass.cell ≡ self }
        requires all_back { length pass.met + pass.block + 1 ≡ pass.callers }
        ensures journal { result.entries ≡ entries_in pass.seen }
        ensures halt { result.halt ≡ halt_in pass.seen }
        ensures whole { IsJournalSeen pass }
        ensures halter { IsHaltTheirs pass }
        ensures fixed { Some result.fixed ≡ pass.fixed }
        ensures theirs { AreTheirs result.entries pass }
        ensures numbered { Numbered pass.made × All (λ g. Numbered g.made) pass.met }
        ensures stands { IsIssueNow result }
    {
        let Server { cell } = self;
        let issue = cell.close(pass);
        let _entries = issue.length();
        marks_are_the_journal(&issue);
        issue
    }
}
