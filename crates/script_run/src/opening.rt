// The issues of the rules, opened over nodes of a rack.
ghost use Rattle.std.specs.Prelude.{◌≡◌, ◌↔◌, ℕ, ◌+◌, ◌<◌, ◌≤◌, [], None, length, All, IfOk, OnOk};
ghost use Rattle.memory_node.specs.declared.node.Label.{Label};
ghost use Rattle.rules_file.specs.Rules.{IsRules, issues_in};
ghost use Rattle.script_run.specs.Nodes.{node_label};
ghost use Rattle.script_run.specs.Running.{AreOutBelow, EachFrom, IsFresh, IsOpenedFor, IsOther};

use crate::RunFault;
use issue_journal::{Issue, IssueRoom, RoomFault};
use memory_node::{Rack, RackFault};
use mkt_base::NodeNo;
use rules_file::Rules;
use std::alloc::{AllocError, Global};

// The node number of a place below 3.
pub(crate) fn node_no(k: u8) -> NodeNo
    requires { k < 3 }
    ensures { result ≡ k }
{
    let Some(node) = NodeNo::new(k) else {
        unreachable!()
    };
    node
}

// Takes a node of an issue from the rack.
fn take_node<R: Rack>(
    alloc: Global,
    rack: &mut R,
    issue: u16,
    k: u8,
    capacity: u64,
) -> Result<R::Node, RunFault>
    requires node { k < 3 }
    requires here { R.is_out rack.old (node_label issue k) → ⊥ }
    ensures empty { IfOk result (λ n. R.Node.contents n ≡ []) }
    ensures room { IfOk result (λ n. capacity ≤ R.Node.spare n) }
    ensures label { IfOk result (λ n. R.Node.label n ≡ node_label issue k) }
    ensures most { IfOk result (λ n. R.Node.most n ≡ 0) }
    ensures out { OnOk result (R.is_out rack.new (node_label issue k)) }
    ensures others { OnOk result ((l : Label) → (l ≡ node_label issue k → ⊥) → (R.is_out rack.new l ↔ R.is_out rack.old l)) }
{
    match rack.take(alloc, issue, node_no(k), capacity) {
        Ok(node) => Ok(node),
        Err(RackFault::Memory) => Err(RunFault::Memory),
    }
}

// Opens an issue, by its number, for so many events.
fn open_issue<R: Rack>(
    alloc: Global,
    rules: &Rules,
    rack: &mut R,
    issue: u16,
    count: usize,
) -> Result<Issue<R::Node>, RunFault>
    requires rules { IsRules rules.now }
    requires number { issue < length (issues_in rules.now) }
    requires few { count ≤ 500000 }
    requires here { (k : ℕ) → R.is_out rack.old (node_label issue k) → ⊥ }
    ensures opened { IfOk result (IsOpenedFor rules.now issue count) }
    ensures empty { IfOk result (λ i. (i.entries ≡ []) × (i.halt ≡ None)) }
    ensures out { OnOk result ((k : ℕ) → k < 3 → R.is_out rack.new (node_label issue k)) }
    ensures others { OnOk result ((l : Label) → IsOther issue l → (R.is_out rack.new l ↔ R.is_out rack.old l)) }
{
    let capacity = 2 * count as u64 + 4;
    let room = match IssueRoom::make(alloc, rules, issue, capacity) {
        Ok(room) => room,
        Err(RoomFault::Memory) => return Err(RunFault::Memory),
    };
    let first = take_node(alloc, rack, issue, 0, capacity)?;
    let second = take_node(alloc, rack, issue, 1, capacity)?;
    let third = take_node(alloc, rack, issue, 2, capacity)?;
    Ok(Issue::begin(room, first, second, third))
}

/// Opens all issues of the rules, each for its count of events, at most 500,000, over three nodes of the rack, of which none is out. `Memory`
/// comes only where there is none, and nodes that were taken by then are not given back.
pub fn open_all<R: Rack>(
    alloc: Global,
    rules: &Rules,
    rack: &mut R,
    counts: &[usize],
) -> Result<Vec<Issue<R::Node>>, RunFault>
    requires rules { IsRules rules.now }
    requires each { length counts.now ≡ length (issues_in rules.now) }
    requires few { All (λ count. count ≤ 500000) counts.now }
    requires none_out { (l : Label) → R.is_out rack.old l → ⊥ }
    ensures each { IfOk result (λ issues. length issues.items ≡ length (issues_in rules.now)) }
    ensures fresh { IfOk result (λ issues. EachFrom (IsFresh rules.now counts.now) 0 issues.items) }
    ensures out { OnOk result (AreOutBelow (R.is_out rack.new) (length (issues_in rules.now))) }
{
    let mut issues = match Vec::with_capacity(alloc, counts.len()) {
        Ok(issues) => issues,
        Err(AllocError) => return Err(RunFault::Memory),
    };
    for i in 0..rules.issues() {
        let issue = open_issue(alloc, rules, rack, i, counts[usize::from(i)])?;
        issues.push_reserved(issue);
    }
    Ok(issues)
}
