// The sums of a run alone, with no line of its journals.
ghost use Rattle.std.specs.Prelude.{◌≡◌, ◌+◌, ◌<◌, ◌≤◌, [], ◌∷◌, All, IfErr, IfOk, IfSome, OnOk, length, slice_get};
ghost use Rattle.mkt_io.specs.Printed.{PrintsLines};
ghost use Rattle.rules_file.specs.Rules.{IsRules, issues_in, participants_in};
ghost use Rattle.issue_book.specs.IssueView.{terms_of};
ghost use Rattle.issue_machine.specs.History.{IsHistory};
ghost use Rattle.issue_machine.specs.Journal.{AreEntries, MayStep, stepped};
ghost use Rattle.issue_machine.specs.Step.{replay, state_from};
ghost use Rattle.run_report.specs.Issue.{PrintsFront, done_of};
ghost use Rattle.run_report.specs.Report.{IsEnded, trades_of};
ghost use Rattle.run_report.specs.Reported.{Reports};
ghost use Rattle.run_report.specs.Summed.{issue_totals, totals_by, totals_text};
ghost use Rattle.run_report.specs.Watched.{Counted};

use crate::report::print_end;
use crate::tally::Tally;
use crate::{EndedIssue, ReportFault, Totals, lines};
use issue_machine::{Machine, history_is_journal};
use mkt_base::{Entry, Moment, Outcome, Participant, Phase, Price, Quote, Sums, Trade, Watch};
use mkt_io::{Printer, Sink, WriteFault};
use rules_file::Rules;
use std::alloc::Global;

// Counts the trades that it is told, and keeps nothing else.
#[derive(Clone, Copy, Debug, PartialEq, Eq)]
pub(crate) struct CountingWatch {
    pub(crate) tally: Tally,
}

impl Watch for CountingWatch {
    ghost use Rattle.std.specs.Prelude.{None};
    ghost use Rattle.std.proofs.Common.{rules};
    ghost use Rattle.run_report.specs.Summed.{CountedOutputs};
    ghost use Rattle.run_report.specs.Watched.{nothing_counted};

    ghost told = { λ _. None };

    ghost faults = { λ _. 0 };

    ghost took = { λ from outputs w. CountedOutputs from outputs w };

    ghost begins = { λ w. nothing_counted };

    ghost stands = { Prim.search rules };

    fn wants_rejected(&self) -> bool {
        false
    }

    fn due(&mut self, _at: Moment) {}

    fn phase(&mut self, _phase: Phase) {}

    fn auction(&mut self, _reference: Price, _lo: Price, _hi: Price) {}

    fn rejected(&mut self, _sums: Sums) {}

    fn outcome(&mut self, _outcome: Outcome) {}

    fn share(&mut self, _participant: Participant, _qty: u64) {}

    fn trade(&mut self, trade: Trade) {
        self.tally.add(trade);
    }

    fn quote(&mut self, _quote: Option<Quote>) {}
}

/// Writes the sums of a run: of its report the line of each issue's totals, in file order, and the last line. At `Err` a front part of it is
/// written: whole lines at `Memory`, whatever the sink took at `Write`.
pub fn write_totals<O: Sink>(
    alloc: Global,
    out: &mut O,
    rules: &Rules,
    issues: &[EndedIssue],
) -> Result<(), ReportFault>
    requires rules { IsRules rules.now }
    requires each { length issues.now ≡ length (issues_in rules.now) }
    requires ended { All (IsEnded rules.now) issues.now }
    ensures { Reports O.contents O.faults out.old (totals_text rules.now issues.now) out.new result }
{
    let mut printer = Printer::new(out);
    let printed = print_sums(alloc, &mut printer, rules, issues);
    match printer.finish() {
        Ok(()) => printed,
        Err(WriteFault) => Err(ReportFault::Write),
    }
}

// Prints the sums.
fn print_sums<O: Sink>(
    alloc: Global,
    printer: &mut Printer<'_, O>,
    rules: &Rules,
    issues: &[EndedIssue],
) -> Result<(), ReportFault>
    requires rules { IsRules rules.now }
    requires each { length issues.now ≡ length (issues_in rules.now) }
    requires ended { All (IsEnded rules.now) issues.now }
    ensures front { PrintsFront O.contents O.faults printer.old printer.new (totals_text rules.now issues.now) }
    ensures whole { OnOk result (PrintsLines O.contents O.faults printer.old printer.new (totals_text rules.now issues.now)) }
    ensures cause { IfErr result (λ fault. fault ≡ ReportFault.Memory) }
{
    print_totals(alloc, printer, rules, issues)?;
    print_end(printer);
    Ok(())
}

// Prints the lines of the issues' totals.
fn print_totals<O: Sink>(
    alloc: Global,
    printer: &mut Printer<'_, O>,
    rules: &Rules,
    issues: &[EndedIssue],
) -> Result<(), ReportFault>
    requires rules { IsRules rules.now }
    requires each { length issues.now ≡ length (issues_in rules.now) }
    requires ended { All (IsEnded rules.now) issues.now }
    ensures front { PrintsFront O.contents O.faults printer.old printer.new (issue_totals rules.now 0 issues.now) }
    ensures whole { OnOk result (PrintsLines O.contents O.faults printer.old printer.new (issue_totals rules.now 0 issues.now)) }
    ensures cause { IfErr result (λ fault. fault ≡ ReportFault.Memory) }
{
    for i in 0..rules.issues() {
        let journal = issues[usize::from(i)].journal.as_slice();
        let totals = totals_of(alloc, rules, i, journal)?;
        lines::print_totals(printer, rules, i, &totals);
    }
    Ok(())
}

// What an issue with this journal adds up to. A machine of its own does the journal anew.
fn totals_of(
    alloc: Global,
    rules: &Rules,
    issue: u16,
    journal: &[Entry],
) -> Result<Totals, ReportFault>
    requires rules { IsRules rules.now }
    requires number { issue < length (issues_in rules.now) }
    requires history { IsHistory (length (participants_in rules.now)) journal.now }
    requires few { length journal.now ≤ 100000000 }
    ensures totals { IfOk result (λ totals. IfSome (slice_get (issues_in rules.now) issue)
        (λ r. totals ≡ totals_by (terms_of rules.now r) journal.now)) }
    ensures cause { IfErr result (λ fault. fault ≡ ReportFault.Memory) }
{
    history_is_journal();
    let entries = journal.len() as u64;
    let Ok(mut machine) = Machine::make(alloc, rules, issue, entries) else {
        return Err(ReportFault::Memory);
    };
    let tally = count_trades(&mut machine, journal);
    if tally.passed {
        return Err(ReportFault::Memory);
    }
    Ok(Totals {
        entries,
        trades: tally.trades,
        shares: tally.shares,
        last: machine.board().last,
    })
}

// Does the entries of a journal, one after another, and counts their trades.
fn count_trades(machine: &mut Machine, journal: &[Entry]) -> Tally
    requires room { machine.old.issue.state.entries + length journal.now ≤ machine.old.issue.capacity }
    requires entries { AreEntries machine.old.participants machine.old.issue.state.entries machine.old.next_own journal.now }
    ensures counted { Counted Tally.NONE
        (trades_of (replay machine.old.issue.terms machine.old.issue.state journal.now)) result }
    ensures state { machine.new.issue.state ≡ state_from machine.old.issue.terms journal.now machine.old.issue.state }
{
    let mut watch = CountingWatch { tally: Tally::NONE };
    for entry in journal {
        count_one(machine, entry, &mut watch);
    }
    watch.tally
}

// Does an entry, and counts its trades.
fn count_one(machine: &mut Machine, entry: &Entry, watch: &mut CountingWatch)
    requires { MayStep machine.old entry.now }
    ensures counted { Counted watch.old.tally (trades_of (done_of machine.old entry.now ∷ [])) watch.new.tally }
    ensures state { machine.new ≡ stepped machine.old entry.now }
    ensures count { machine.new.issue.state.entries ≡ machine.old.issue.state.entries + 1 }
{
    machine.step(entry, watch);
}
