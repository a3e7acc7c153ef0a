// The report of a run.
ghost use Rattle.std.specs.Prelude.{◌≡◌, [], ◌∷◌, codes, length, All, IfErr, OnOk};
ghost use Rattle.mkt_base.specs.Text.{line};
ghost use Rattle.mkt_base.specs.declared.script.ShowLine.{ShowLine};
ghost use Rattle.mkt_io.specs.Printed.{PrintsLines};
ghost use Rattle.rules_file.specs.Rules.{IsRules, issues_in};
ghost use Rattle.run_report.specs.Issue.{HadMemory, PrintsFront};
ghost use Rattle.run_report.specs.Report.{IsEnded, IsRun, issues_text, report_text};
ghost use Rattle.run_report.specs.Reported.{Reports};

use crate::{EndedIssue, ReportFault, print_issue, print_shows};
use mkt_base::ShowLine;
use mkt_io::{Printer, Sink, WriteFault};
use rules_file::Rules;
use std::alloc::Global;

/// Writes the report of a run: its issues in file order, and the reads of boards. At `Err` a front part of it is written: whole lines at
/// `Memory`, whatever the sink took at `Write`.
pub fn write_report<O: Sink>(
    alloc: Global,
    out: &mut O,
    rules: &Rules,
    issues: &[EndedIssue],
    shows: &[ShowLine],
) -> Result<(), ReportFault>
    requires rules { IsRules rules.now }
    requires run { IsRun rules.now (record { issues = issues.now; shows = shows.now }) }
    ensures { Reports O.contents O.faults out.old
        (report_text rules.now (record { issues = issues.now; shows = shows.now })) out.new result }
{
    let mut printer = Printer::new(out);
    let printed = print_report(alloc, &mut printer, rules, issues, shows);
    match printer.finish() {
        Ok(()) => printed,
        Err(WriteFault) => Err(ReportFault::Write),
    }
}

// Prints the report. A fault of the sink is left to the printer.
fn print_report<O: Sink>(
    alloc: Global,
    printer: &mut Printer<'_, O>,
    rules: &Rules,
    issues: &[EndedIssue],
    shows: &[ShowLine],
) -> Result<(), ReportFault>
    requires rules { IsRules rules.now }
    requires run { IsRun rules.now (record { issues = issues.now; shows = shows.now }) }
    ensures front { PrintsFront O.contents O.faults printer.old printer.new
        (report_text rules.now (record { issues = issues.now; shows = shows.now })) }
    ensures whole { OnOk result (PrintsLines O.contents O.faults printer.old printer.new
        (report_text rules.now (record { issues = issues.now; shows = shows.now }))) }
    ensures cause { IfErr result (λ fault. fault ≡ ReportFault.Memory) }
{
    print_begin(printer);
    print_parts(alloc, printer, rules, issues)?;
    // (a fault is kept by the printer, and told by its end)
    let _ = print_shows(rules, shows, printer);
    print_end(printer);
    Ok(())
}

// Prints the parts of the issues. A fault of the sink is left to the printer.
fn print_parts<O: Sink>(
    alloc: Global,
    printer: &mut Printer<'_, O>,
    rules: &Rules,
    issues: &[EndedIssue],
) -> Result<(), ReportFault>
    requires rules { IsRules rules.now }
    requires each { length issues.now ≡ length (issues_in rules.now) }
    requires ended { All (IsEnded rules.now) issues.now }
    ensures front { PrintsFront O.contents O.faults printer.old printer.new (issues_text rules.now 0 issues.now) }
    ensures whole { OnOk result (PrintsLines O.contents O.faults printer.old printer.new (issues_text rules.now 0 issues.now)) }
    ensures cause { IfErr result (λ fault. fault ≡ ReportFault.Memory) }
{
    match print_issues(alloc, printer, rules, issues) {
        Ok(()) => Ok(()),
        Err(ReportFault::Write) => Ok(()),
        Err(ReportFault::Memory) => Err(ReportFault::Memory),
    }
}

// Prints the parts of the issues, up to the first that meets a fault.
fn print_issues<O: Sink>(
    alloc: Global,
    printer: &mut Printer<'_, O>,
    rules: &Rules,
    issues: &[EndedIssue],
) -> Result<(), ReportFault>
    requires rules { IsRules rules.now }
    requires each { length issues.now ≡ length (issues_in rules.now) }
    requires ended { All (IsEnded rules.now) issues.now }
    ensures front { PrintsFront O.contents O.faults printer.old printer.new (issues_text rules.now 0 issues.now) }
    ensures whole { HadMemory result → PrintsLines O.contents O.faults printer.old printer.new (issues_text rules.now 0 issues.now) }
{
    for i in 0..rules.issues() {
        let ended = &issues[usize::from(i)];
        match print_issue(
            alloc,
            rules,
            i,
            ended.journal.as_slice(),
            ended.halt,
            printer,
        ) {
            Ok(_) => {}
            Err(fault) => return Err(fault),
        }
    }
    Ok(())
}

fn print_begin<O: Sink>(printer: &mut Printer<'_, O>)
    ensures { PrintsLines O.contents O.faults printer.old printer.new (line (codes "market" ∷ codes "1" ∷ [])) }
{
    printer.word("market");
    printer.word("1");
    printer.line_end();
}

pub(crate) fn print_end<O: Sink>(printer: &mut Printer<'_, O>)
    ensures { PrintsLines O.contents O.faults printer.old printer.new (line (codes "end" ∷ [])) }
{
    printer.word("end");
    printer.line_end();
}
