// The boards that a report shows.
ghost use Rattle.std.specs.Prelude.{◌≡◌, ◌+◌, ◌<◌, ◌≤◌, ◌++◌, [], ◌∷◌, length, map, All, IfOk, OnOk};
ghost use Rattle.rules_file.specs.Rules.{IsRules, issues_in, participants_in};
ghost use Rattle.issue_machine.specs.History.{IsHistory};
ghost use Rattle.issue_machine.specs.Journal.{AreEntries};
ghost use Rattle.run_report.specs.Report.{IsEnded};
ghost use Rattle.audit.specs.Told.{IsAsked, boards_from, boards_in, boards_on, shown};

use crate::report::AuditFault;
use crate::told::Asked;
use issue_machine::{Machine, history_is_journal};
use mkt_base::{Board, Entry, NoWatch, Rows, ShowLine};
use rules_file::Rules;
use run_report::EndedIssue;
use std::alloc::Global;

// What each read of a board showed: the board of its issue behind as many entries as it names.
pub(crate) fn shows_of(
    alloc: Global,
    rules: &Rules,
    issues: &[EndedIssue],
    asked: &[Asked],
) -> Result<Vec<ShowLine>, AuditFault>
    requires rules { IsRules rules.now }
    requires each { length issues.now ≡ length (issues_in rules.now) }
    requires ended { All (IsEnded rules.now) issues.now }
    requires asked { All (IsAsked rules.now issues.now) asked.now }
    ensures { IfOk result (λ shows. shows.items ≡ map (shown rules.now issues.now) asked.now) }
{
    if asked.is_empty() {
        return Ok(Vec::new(alloc));
    }
    match boards_of_all(alloc, rules, issues) {
        Ok(boards) => pick(alloc, rules, issues, asked, boards.as_slice()),
        Err(AuditFault::Memory) => Err(AuditFault::Memory),
    }
}

// The reads of boards, by the boards of all issues.
fn pick(
    alloc: Global,
    rules: &Rules,
    issues: &[EndedIssue],
    asked: &[Asked],
    boards: &[Rows<Board>],
) -> Result<Vec<ShowLine>, AuditFault>
    requires each { length issues.now ≡ length (issues_in rules.now) }
    requires asked { All (IsAsked rules.now issues.now) asked.now }
    requires boards { boards.now ≡ boards_on rules.now 0 issues.now }
    ensures { IfOk result (λ shows. shows.items ≡ map (shown rules.now issues.now) asked.now) }
{
    let mut shows = Vec::new(alloc);
    for a in asked {
        let board = boards[usize::from(a.issue)].as_slice()[a.length as usize];
        push(&mut shows, show_with(a, board))?;
    }
    Ok(shows)
}

fn show_with(a: &Asked, board: Board) -> ShowLine
    ensures { result ≡ record { line = a.now.line; gateway = a.now.gateway; issue = a.now.issue; board = board } }
{
    ShowLine {
        line: a.line,
        gateway: a.gateway,
        issue: a.issue,
        board,
    }
}

// The boards of all issues.
fn boards_of_all(
    alloc: Global,
    rules: &Rules,
    issues: &[EndedIssue],
) -> Result<Vec<Rows<Board>>, AuditFault>
    requires rules { IsRules rules.now }
    requires each { length issues.now ≡ length (issues_in rules.now) }
    requires ended { All (IsEnded rules.now) issues.now }
    ensures { IfOk result (λ boards. boards.items ≡ boards_on rules.now 0 issues.now) }
{
    let mut all = Vec::new(alloc);
    for i in 0..rules.issues() {
        let boards = boards_of(alloc, rules, i, issues[usize::from(i)].journal.as_slice())?;
        let Ok(()) = all.push(Rows::new(boards)) else {
            return Err(AuditFault::Memory);
        };
    }
    Ok(all)
}

// The boards of an issue before each of its entries and behind the last.
#[tactic(auto, unfolding(crate::specs::Told::boards_in))]
fn boards_of(
    alloc: Global,
    rules: &Rules,
    issue: u16,
    journal: &[Entry],
) -> Result<Vec<Board>, AuditFault>
    requires rules { IsRules rules.now }
    requires number { issue < length (issues_in rules.now) }
    requires history { IsHistory (length (participants_in rules.now)) journal.now }
    requires few { length journal.now ≤ 100000000 }
    ensures { IfOk result (λ boards. boards.items ≡ boards_in rules.now issue journal.now) }
{
    history_is_journal();
    let Ok(mut machine) = Machine::make(alloc, rules, issue, journal.len() as u64) else {
        return Err(AuditFault::Memory);
    };
    let mut boards = Vec::new(alloc);
    boards_along(&mut machine, journal, &mut boards)?;
    Ok(boards)
}

// Adds the boards of a machine before each entry that it does, and behind the last.
fn boards_along(
    machine: &mut Machine,
    journal: &[Entry],
    boards: &mut Vec<Board>,
) -> Result<(), AuditFault>
    requires room { machine.old.issue.state.entries + length journal.now ≤ machine.old.issue.capacity }
    requires entries { AreEntries machine.old.participants machine.old.issue.state.entries machine.old.next_own journal.now }
    ensures { OnOk result (boards.new.items ≡ boards.old.items ++
        boards_from machine.old.issue.terms machine.old.issue.state journal.now) }
{
    for entry in journal {
        push(boards, machine.board())?;
        machine.step(entry, &mut NoWatch);
    }
    push(boards, machine.board())
}

// Adds an item, where there is memory.
fn push<T: Copy + Drop>(items: &mut Vec<T>, item: T) -> Result<(), AuditFault>
    ensures { OnOk result (items.new.items ≡ items.old.items ++ item ∷ []) }
{
    match items.push(item) {
        Ok(()) => Ok(()),
        Err(_) => Err(AuditFault::Memory),
    }
}
