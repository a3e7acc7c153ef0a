// Servers of issues over nodes in memory whose calls fail by their numbers.
ghost use Rattle.std.specs.Prelude.{◌≡◌, ◌<◌, ◌≤◌, [], None, IfOk, length};
ghost use Rattle.rules_file.specs.Rules.{IsRules, participants_in};
ghost use Rattle.server_tests.specs.Submitting.{IsFirst};

use issue_journal::{Issue, IssueRoom};
use issue_server::{Server, ServerFault};
use memory_node::{MemNode, MemoryNode};
use mkt_base::NodeNo;
use rules_file::{Rules, read_rules};
use std::alloc::Global;
use std::test::Fail;
use turn_cell::Pass;

const RULES: &str =
    "special_ms = 180000\nsequential_ms = 60000\nticks = [[30000, 10], [1000000000, 50]]\nlimits = [[15000, 3000], [20000, 4000], [30000, 5000], [1000000001, 7000]]\nranges = [[15000, 300], [20000, 400], [30000, 500], [1000000001, 700]]\nsessions = [[\"08:00:00\", \"09:00:00\", \"11:30:00\"], [\"12:05:00\", \"12:30:00\", \"15:00:00\"]]\nrounds = [\"1u\", \"1/3\", \"1/2\", \"all\"]\nparticipants = [\"p1\", \"p2\", \"p3\", \"p4\", \"p5\", \"p6\", \"p7\", \"p8\"]\ngateways = [\"g1\", \"g2\", \"g3\", \"g4\"]\n\n[[issue]]\ncode = \"AAAA\"\nbase = 20000\nunit = 100\n";

/// Rules with one issue.
pub(super) fn rules(alloc: Global) -> Result<Rules, Fail>
    ensures { IfOk result IsRules }
{
    match read_rules(alloc, RULES.as_bytes()) {
        Ok(rules) => Ok(rules),
        Err(_) => Err("the rules are refused")?,
    }
}

// The room for the issue of the rules.
fn room(alloc: Global, rules: &Rules, capacity: u64) -> Result<IssueRoom, Fail>
    requires rules { IsRules rules.now }
    requires capacity { (3 ≤ capacity) × (capacity ≤ 10000) }
    ensures capacity { IfOk result (λ made. made.capacity ≡ capacity) }
    ensures participants { IfOk result (λ made. made.participants ≡ length (participants_in rules.now)) }
{
    if rules.issues() == 0 {
        return Err("no issue")?;
    }
    let _issue = rules.issue(0);
    Ok(IssueRoom::make(alloc, rules, 0, capacity)?)
}

// A node of which the call with this number fails.
fn node(alloc: Global, n: u8, capacity: u64, call: Option<u64>) -> Result<MemNode, Fail>
    ensures empty { IfOk result (λ n. ⟦<MemNode as MemoryNode>⟧.contents n ≡ []) }
    ensures room { IfOk result (λ n. ⟦<MemNode as MemoryNode>⟧.spare n ≡ capacity) }
    ensures most { IfOk result (λ n. ⟦<MemNode as MemoryNode>⟧.most n ≡ 0) }
{
    let k = NodeNo::new(n).ok_or("a node")?;
    let mut fails = Vec::new(alloc);
    if let Some(call) = call {
        fails.push(call)?;
    }
    Ok(MemNode::make(alloc, 0, k, capacity, fails)?)
}

// Three nodes of each of which the call with a number fails.
fn nodes(
    alloc: Global,
    capacity: u64,
    calls: [Option<u64>; 3],
) -> Result<(MemNode, MemNode, MemNode), Fail>
    ensures first { IfOk result (λ n. (⟦<MemNode as MemoryNode>⟧.contents n.0 ≡ []) × (⟦<MemNode as MemoryNode>⟧.spare n.0 ≡ capacity)
        × (⟦<MemNode as MemoryNode>⟧.most n.0 ≡ 0)) }
    ensures second { IfOk result (λ n. (⟦<MemNode as MemoryNode>⟧.contents n.1 ≡ []) × (⟦<MemNode as MemoryNode>⟧.spare n.1 ≡ capacity)
        × (⟦<MemNode as MemoryNode>⟧.most n.1 ≡ 0)) }
    ensures third { IfOk result (λ n. (⟦<MemNode as MemoryNode>⟧.contents n.2 ≡ []) × (⟦<MemNode as MemoryNode>⟧.spare n.2 ≡ capacity)
        × (⟦<MemNode as MemoryNode>⟧.most n.2 ≡ 0)) }
{
    let a = node(alloc, 0, capacity, calls[0])?;
    let b = node(alloc, 1, capacity, calls[1])?;
    let c = node(alloc, 2, capacity, calls[2])?;
    Ok((a, b, c))
}

// An issue of the rules, of so many entries at most, over three such nodes.
fn issue_of(
    alloc: Global,
    rules: &Rules,
    capacity: u64,
    calls: [Option<u64>; 3],
) -> Result<Issue<MemNode>, Fail>
    requires rules { IsRules rules.now }
    requires capacity { (3 ≤ capacity) × (capacity ≤ 10000) }
    ensures participants { IfOk result (λ i. 3 ≤ i.fixed.participants) }
    ensures entries { IfOk result (λ i. i.entries ≡ []) }
    ensures halt { IfOk result (λ i. i.halt ≡ None) }
{
    if rules.participants() < 3 {
        return Err("too few participants")?;
    }
    let (a, b, c) = nodes(alloc, capacity, calls)?;
    let room = room(alloc, rules, capacity)?;
    Ok(Issue::begin(room, a, b, c))
}

fn issue(alloc: Global, capacity: u64, calls: [Option<u64>; 3]) -> Result<Issue<MemNode>, Fail>
    requires capacity { (3 ≤ capacity) × (capacity ≤ 10000) }
    ensures participants { IfOk result (λ i. 3 ≤ i.fixed.participants) }
    ensures entries { IfOk result (λ i. i.entries ≡ []) }
    ensures halt { IfOk result (λ i. i.halt ≡ None) }
{
    let rules = rules(alloc)?;
    issue_of(alloc, &rules, capacity, calls)
}

/// A server for so many callers, and the first pass, of an issue of so many entries at most over three nodes, of each of which the call
/// with a number fails.
pub(super) fn served(
    alloc: Global,
    capacity: u64,
    calls: [Option<u64>; 3],
    callers: u16,
) -> Result<(Server<MemNode>, Pass<Issue<MemNode>>), Fail>
    requires capacity { (3 ≤ capacity) × (capacity ≤ 10000) }
    requires callers { 0 < callers }
    ensures { IfOk result (λ made. IsFirst made.0 callers made.1) }
{
    let issue = issue(alloc, capacity, calls)?;
    match Server::make(alloc, issue, callers) {
        Ok(made) => Ok(made),
        Err(ServerFault::Memory(issue)) => {
            let _closed = issue.close();
            Err("no memory")?
        }
    }
}
