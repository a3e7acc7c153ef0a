// Tables of cases: an issue, what is done with it, and what it tells.
ghost use Rattle.std.specs.Prelude.{◌≡◌, ◌≤◌, None, IfOk, IfSome};
ghost use Rattle.rules_file.specs.Rules.{IsRules};
ghost use Rattle.journal_tests.specs.Rooms.{IsRoomOf};

use super::issues::{issue, nodes_text, played, rules, told_of_issue};
use issue_journal::{Issue, IssueRoom, NotAdopted};
use memory_node::MemNode;
use mkt_io::number_word;
use rules_file::Rules;
use std::alloc::Global;
use std::test::Fail;

// A case: how many entries at most, the calls of each node that fail, the acts, and what they tell.
#[derive(Clone, Copy)]
struct Case<'a> {
    capacity: u64,
    calls: [&'a str; 3],
    acts: &'a str,
    want: &'a str,
}

fn case_of(line: &str) -> Option<Case<'_>>
    ensures { IfSome result (λ c. (3 ≤ c.capacity) × (c.capacity ≤ 1000)) }
{
    let (capacity, rest) = line.split_once(" | ")?;
    let (first, rest) = rest.split_once(" | ")?;
    let (second, rest) = rest.split_once(" | ")?;
    let (third, rest) = rest.split_once(" | ")?;
    let (acts, want) = rest.split_once(" | ")?;
    let capacity = u64::from(number_word(capacity.as_bytes())?);
    if capacity < 3 || capacity > 1000 {
        return None;
    }
    Some(Case {
        capacity,
        calls: [first, second, third],
        acts,
        want,
    })
}

// The issue again, from the nodes that it left.
fn again(issue: Issue<MemNode>, room: IssueRoom) -> Result<Issue<MemNode>, NotAdopted<MemNode>>
    requires running { issue.halt ≡ None }
    requires room { IsRoomOf room issue.fixed }
    ensures { IfOk result (λ i. i.fixed.participants ≡ issue.fixed.participants) }
{
    let closed = issue.close();
    Issue::adopt(room, closed.a, closed.b, closed.c)
}

// Does the acts, of an issue that is not halted by them.
fn left_after(alloc: Global, issue: &mut Issue<MemNode>, acts: &str) -> Result<(), Fail>
    requires { 3 ≤ issue.old.fixed.participants }
    ensures running { IfOk result (λ _. issue.new.halt ≡ None) }
    ensures fixed { issue.new.fixed ≡ issue.old.fixed }
{
    let _answers = played(alloc, issue, acts.as_bytes())?;
    if issue.halted().is_some() {
        return Err("the issue is halted")?;
    }
    Ok(())
}

fn none_text(alloc: Global) -> Result<String, Fail> {
    Ok(String::from_str(alloc, "none")?)
}

// What the issue tells that is made again of the nodes that were left after some acts; or what these are, where no issue is made of
// them.
fn told_again(
    alloc: Global,
    mut issue: Issue<MemNode>,
    room: IssueRoom,
    acts: &str,
    more: &str,
) -> Result<String, Fail>
    requires participants { 3 ≤ issue.fixed.participants }
    requires room { IsRoomOf room issue.fixed }
{
    left_after(alloc, &mut issue, acts)?;
    match again(issue, room) {
        Ok(issue) => told_of_issue(alloc, issue, more),
        Err(given) => nodes_text(alloc, none_text(alloc), &given.a, &given.b, &given.c),
    }
}

// At a slash the issue is left, and made again of its nodes.
fn told(alloc: Global, rules: &Rules, case: &Case<'_>) -> Result<String, Fail>
    requires rules { IsRules rules.now }
    requires capacity { (3 ≤ case.now.capacity) × (case.now.capacity ≤ 1000) }
{
    let (issue, room) = issue(alloc, rules, case.capacity, case.calls)?;
    match case.acts.split_once("/") {
        Some((acts, more)) => told_again(alloc, issue, room, acts, more),
        None => told_of_issue(alloc, issue, case.acts),
    }
}

// What a case tells in place of what it is to tell; nothing where they are the same.
fn wrong_of_case(alloc: Global, rules: &Rules, line: &str) -> Result<String, Fail>
    requires { IsRules rules.now }
{
    let case = case_of(line).ok_or("a case")?;
    let told = told(alloc, rules, &case)?;
    if told.as_str() == case.want {
        return Ok(String::new(alloc));
    }
    Ok(format!(in alloc; "{told} in place of {line}\n")?)
}

fn wrong_by(alloc: Global, rules: &Rules, cases: &str) -> Result<String, Fail>
    requires { IsRules rules.now }
{
    let mut wrong = String::new(alloc);
    for line in cases.lines() {
        if !line.starts_with("#") {
            wrong.push_str(wrong_of_case(alloc, rules, line)?.as_str())?;
        }
    }
    Ok(wrong)
}

/// What the cases of a table tell that they are not to tell.
pub(super) fn wrong(alloc: Global, cases: &str) -> Result<String, Fail> {
    let rules = rules(alloc)?;
    wrong_by(alloc, &rules, cases)
}
