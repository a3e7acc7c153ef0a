// A machine that does the entries of a journal again.
ghost use Rattle.std.specs.Prelude.{◌≡◌, ◌+◌, true, IfOk, IfSome};
ghost use Rattle.rules_file.specs.Rules.{IsRules};
ghost use Rattle.issue_machine.specs.Journal.{MayStep};
ghost use Rattle.server_tests.specs.Replaying.{HasDone};

use super::answers::{Row, row};
use super::events::is_known;
use super::issues::rules;
use issue_machine::Machine;
use mkt_base::{Entry, NoWatch};
use rules_file::Rules;
use std::alloc::Global;
use std::test::Fail;

// A machine for at most 10,000 entries of the issue of the rules.
fn machine_of(alloc: Global, rules: &Rules) -> Result<Machine, Fail>
    requires { IsRules rules.now }
    ensures { IfOk result (HasDone 0) }
{
    if rules.issues() == 0 {
        return Err("no issue")?;
    }
    if rules.participants() < 3 {
        return Err("too few participants")?;
    }
    let _issue = rules.issue(0);
    match Machine::make(alloc, rules, 0, 10_000) {
        Ok(machine) => Ok(machine),
        Err(_) => Err("no memory")?,
    }
}

fn machine(alloc: Global) -> Result<Machine, Fail>
    ensures { IfOk result (HasDone 0) }
{
    let rules = rules(alloc)?;
    machine_of(alloc, &rules)
}

// Whether the machine, which has done so many entries, may do this one.
fn may_come(machine: &Machine, done: u64, entry: &Entry) -> bool
    requires { HasDone done machine.now }
    ensures { result ≡ true → MayStep machine.now entry.now }
{
    if done >= 10_000 || entry.place != done || entry.caller.0 > 16 {
        return false;
    }
    machine.next_own(entry.caller) == entry.own && is_known(&entry.event)
}

// What the machine answers to an entry that it may do.
fn again(machine: &mut Machine, done: u64, entry: &Entry) -> Option<Row>
    requires { HasDone done machine.old }
    ensures { IfSome result (λ _. HasDone (done + 1) machine.new) }
{
    if !may_come(machine, done, entry) {
        return None;
    }
    let answer = Ok(machine.step(entry, &mut NoWatch));
    Some(row(entry.caller.0, entry.own, &answer))
}

// What the machine answers to the entries, up to the first that it may not do.
fn answers(alloc: Global, machine: &mut Machine, journal: &[Entry]) -> Vec<Row>
    requires { HasDone 0 machine.old }
{
    let mut rows = Vec::new(alloc);
    for i in 0..journal.len() {
        let Some(row) = again(machine, i as u64, &journal[i]) else {
            return rows;
        };
        let _ = rows.push(row);
    }
    rows
}

/// What a machine answers to the entries of the journal.
pub(super) fn replayed(alloc: Global, journal: &[Entry]) -> Result<Vec<Row>, Fail> {
    let mut machine = machine(alloc)?;
    Ok(answers(alloc, &mut machine, journal))
}
