// Tables of cases: an issue, what its callers do, and what they are told.
ghost use Rattle.std.specs.Prelude.{◌≤◌, IfSome};

use super::issues::served;
use super::texts::{Text, issue_text, joined, pass_text};
use super::turns::{Playing, played};
use std::alloc::Global;
use std::sync::Wait;
use std::test::Fail;

// A case: how many entries at most, the call of each node that fails, the acts, and what they tell.
#[derive(Clone, Copy)]
struct Case<'a> {
    capacity: u64,
    calls: [Option<u64>; 3],
    acts: &'a str,
    want: &'a str,
}

fn case_of(line: &str) -> Option<Case<'_>>
    ensures { IfSome result (λ c. (3 ≤ c.capacity) × (c.capacity ≤ 10000)) }
{
    let (capacity, rest) = line.split_once(" | ")?;
    let (first, rest) = rest.split_once(" | ")?;
    let (second, rest) = rest.split_once(" | ")?;
    let (third, rest) = rest.split_once(" | ")?;
    let (acts, want) = rest.split_once(" | ")?;
    let capacity = capacity.parse::<u64>().ok()?;
    if capacity < 3 || capacity > 10_000 {
        return None;
    }
    Some(Case {
        capacity,
        calls: [
            first.parse::<u64>().ok(),
            second.parse::<u64>().ok(),
            third.parse::<u64>().ok(),
        ],
        acts,
        want,
    })
}

fn no_text(alloc: Global) -> Text {
    Ok(String::new(alloc))
}

// What the acts of the one caller of an issue tell, what its pass says then, and what the issue is when it is closed.
fn told_to_one<W: Wait>(
    rt: &W,
    alloc: Global,
    capacity: u64,
    calls: [Option<u64>; 3],
    acts: &str,
) -> Result<Text, Fail>
    requires { (3 ≤ capacity) × (capacity ≤ 10000) }
{
    let (server, pass) = served(alloc, capacity, calls, 1)?;
    let told = no_text(alloc);
    let Playing { pass, told } = played(rt, alloc, &server, Playing { pass, told }, acts);
    let told = joined(told, pass_text(alloc, &pass));
    let issue = server.close(pass);
    Ok(joined(told, issue_text(alloc, issue)))
}

// What acts of the first of two callers tell, then acts of the second, and then more acts of the first; what the second pass says then, and the
// first when it has met the second; and what the issue is when it is closed.
fn told_to_two<W: Wait>(
    rt: &W,
    alloc: Global,
    capacity: u64,
    calls: [Option<u64>; 3],
    acts: &str,
    others: &str,
    more: &str,
) -> Result<Text, Fail>
    requires { (3 ≤ capacity) × (capacity ≤ 10000) }
{
    let (server, mut pass) = served(alloc, capacity, calls, 2)?;
    let other = server.split(&mut pass);
    let told = no_text(alloc);
    let Playing { pass, told } = played(rt, alloc, &server, Playing { pass, told }, acts);
    let Playing { pass: other, told } = played(
        rt,
        alloc,
        &server,
        Playing { pass: other, told },
        others,
    );
    let Playing { mut pass, told } = played(rt, alloc, &server, Playing { pass, told }, more);
    let told = joined(told, pass_text(alloc, &other));
    server.meet(&mut pass, other);
    let told = joined(told, pass_text(alloc, &pass));
    let issue = server.close(pass);
    Ok(joined(told, issue_text(alloc, issue)))
}

// Strokes stand between the acts of two callers.
fn told<W: Wait>(rt: &W, alloc: Global, case: &Case<'_>) -> Result<Text, Fail>
    requires { (3 ≤ case.now.capacity) × (case.now.capacity ≤ 10000) }
{
    let Some((acts, rest)) = case.acts.split_once("/") else {
        return told_to_one(rt, alloc, case.capacity, case.calls, case.acts);
    };
    let Some((others, more)) = rest.split_once("/") else {
        return Err("two strokes")?;
    };
    told_to_two(rt, alloc, case.capacity, case.calls, acts, others, more)
}

// What a case tells in place of what it is to tell; nothing where they are the same.
fn wrong_of_case<W: Wait>(rt: &W, alloc: Global, line: &str) -> Result<String, Fail> {
    let case = case_of(line).ok_or("a case")?;
    let told = told(rt, alloc, &case)??;
    if told.as_str() == case.want {
        return Ok(String::new(alloc));
    }
    Ok(format!(in alloc; "{told} in place of {line}\n")?)
}

/// What the cases of a table tell that they are not to tell.
pub(super) fn wrong<W: Wait>(rt: &W, alloc: Global, cases: &str) -> Result<String, Fail> {
    let mut wrong = String::new(alloc);
    for line in cases.lines() {
        if !line.starts_with("#") {
            wrong.push_str(wrong_of_case(rt, alloc, line)?.as_str())?;
        }
    }
    Ok(wrong)
}
