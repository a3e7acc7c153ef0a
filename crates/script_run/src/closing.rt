// The end of a script: the issues are closed, and their nodes are given back.
ghost use Rattle.std.specs.Prelude.{◌≡◌, ◌↔◌, ℕ, ◌+◌, ◌<◌, ◌≤◌, [], Some, length, map, slice_get, vec_capacity};
ghost use Rattle.memory_node.specs.declared.node.Label.{Label};
ghost use Rattle.script_run.specs.Nodes.{AreGivenBack, node_label};
ghost use Rattle.script_run.specs.Running.{AreOutFrom, EachFrom, IsLabelled, IsOther, ended_as};
ghost use Rattle.run_report.specs.declared.ended.EndedIssue.{EndedIssue};

use crate::opening::node_no;
use issue_journal::Issue;
use memory_node::Rack;
use run_report::EndedIssue;

// Closes an issue, by its number, and gives its nodes back.
fn close_issue<R: Rack>(rack: &mut R, number: u16, issue: Issue<R::Node>) -> EndedIssue
    requires labelled { IsLabelled number issue }
    requires out { (k : ℕ) → k < 3 → R.is_out rack.old (node_label number k) }
    ensures ended { result ≡ ended_as issue }
    ensures given { AreGivenBack (R.given rack.new) number (ended_as issue) }
    ensures back { (k : ℕ) → k < 3 → R.is_out rack.new (node_label number k) → ⊥ }
    ensures others { (l : Label) → IsOther number l → (R.is_out rack.new l ↔ R.is_out rack.old l) × (R.given rack.new l ≡ R.given rack.old l) }
{
    let closed = issue.close();
    rack.give(number, node_no(0), closed.a);
    rack.give(number, node_no(1), closed.b);
    rack.give(number, node_no(2), closed.c);
    EndedIssue {
        journal: closed.log,
        halt: closed.halt,
    }
}

/// Closes issues 0 and on, 64 at most, in the order of their numbers, and gives their three nodes back, which were taken from the rack. The
/// list of their ends is empty and has room for them.
pub fn close_all<R: Rack>(rack: &mut R, issues: Vec<Issue<R::Node>>, ended: &mut Vec<EndedIssue>)
    requires labelled { EachFrom IsLabelled 0 issues.items }
    requires out { AreOutFrom (R.is_out rack.old) 0 (length issues.items) }
    requires few { length issues.items ≤ 64 }
    requires empty { ended.old.items ≡ [] }
    requires room { length issues.items ≤ vec_capacity ended.old }
    ensures ended { ended.new.items ≡ map ended_as issues.items }
    ensures given { (number : ℕ) (e : EndedIssue) → slice_get ended.new.items number ≡ Some e → AreGivenBack (R.given rack.new) number e }
    ensures back { (l : Label) → R.is_out rack.new l → ⊥ }
{
    for issue in issues {
        let number = ended.len() as u16;
        let closed = close_issue(rack, number, issue);
        ended.push_reserved(closed);
    }
}
