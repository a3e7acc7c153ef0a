// The audit of a report.
ghost use Rattle.std.specs.Prelude.{◌≡◌, ◌≤◌, [], length, map, All, IfOk, OnOk};
ghost use Rattle.rules_file.specs.Rules.{IsRules};
ghost use Rattle.run_report.specs.Report.{IsRun, report_text};
ghost use Rattle.text_match.specs.Lines.{lines_of};
ghost use Rattle.text_match.specs.Matched.{IsComparison};
ghost use Rattle.audit.specs.Reading.{scanned};
ghost use Rattle.audit.specs.Reports.{IsVerdict};
ghost use Rattle.audit.specs.State.{at_of};
ghost use Rattle.audit.specs.Told.{Going, IsAsked, asked_told, issues_told, shown};

use crate::shows::shows_of;
use crate::told::Told;
use mkt_base::ShowLine;
use rules_file::Rules;
use run_report::{EndedIssue, ReportFault, write_report};
use std::alloc::{AllocError, Global};
use text_match::{Matcher, Verdict, next_line};

/// Why there is no verdict.
#[derive(Clone, Copy, Debug, PartialEq, Eq)]
pub enum AuditFault {
    /// There is no memory for what the report tells, or for a machine; or an issue made more trades or shares than a u64 counts.
    Memory,
}

/// Tells whether a text of at most 268,435,456 bytes is a report under the rules: the text of well-formed journals, halts and reads of
/// boards. `No` gives the least number of lines, counted from 1, with which no report begins, and the number of lines plus one where
/// some report begins with all of them. A line is what LF ends. Takes memory in proportion to what the report tells.
pub fn audit(alloc: Global, rules: &Rules, report: &[u8]) -> Result<Verdict, AuditFault>
    requires rules { IsRules rules.now }
    requires size { length report.now ≤ 268435456 }
    ensures { IfOk result (IsVerdict rules.now report.now) }
{
    match read_report(alloc, rules, report) {
        Ok(told) => judge(alloc, rules, report, told),
        Err(_) => Err(AuditFault::Memory),
    }
}

// What a report tells, ended as soon as it may.
fn read_report(alloc: Global, rules: &Rules, report: &[u8]) -> Result<Told, AllocError>
    requires { IsRules rules.now }
    ensures issues { IfOk result (λ told. told.done.items ≡ issues_told rules.now (scanned rules.now (Going [] []) (lines_of report.now))) }
    ensures asked { IfOk result (λ told. told.asked.items ≡ asked_told (scanned rules.now (Going [] []) (lines_of report.now))) }
{
    let mut told = Told::new(alloc);
    read_lines(alloc, rules, report, &mut told)?;
    told.finish(alloc, rules)?;
    Ok(told)
}

// Takes the lines of a report, one after another.
fn read_lines(
    alloc: Global,
    rules: &Rules,
    report: &[u8],
    told: &mut Told,
) -> Result<(), AllocError>
    requires { IsRules rules.now }
    ensures { OnOk result (at_of told.new ≡ scanned rules.now (at_of told.old) (lines_of report.now)) }
{
    let mut rest = report;
    while let Some((line, more)) = next_line(rest) {
        told.take(alloc, rules, line)?;
        rest = more;
    }
    Ok(())
}

// Shows the boards of what is told, and holds its report against the text.
fn judge(alloc: Global, rules: &Rules, report: &[u8], told: Told) -> Result<Verdict, AuditFault>
    requires rules { IsRules rules.now }
    requires run { IsRun rules.now (record { issues = told.done.items; shows = map (shown rules.now told.done.items) told.asked.items }) }
    requires asked { All (IsAsked rules.now told.done.items) told.asked.items }
    ensures { IfOk result (IsComparison report.now (report_text rules.now
        (record { issues = told.done.items; shows = map (shown rules.now told.done.items) told.asked.items }))) }
{
    match shows_of(alloc, rules, told.done.as_slice(), told.asked.as_slice()) {
        Ok(shows) => hold(alloc, rules, report, told.done.as_slice(), shows.as_slice()),
        Err(AuditFault::Memory) => Err(AuditFault::Memory),
    }
}

// Holds the report of a run against a text.
fn hold(
    alloc: Global,
    rules: &Rules,
    report: &[u8],
    issues: &[EndedIssue],
    shows: &[ShowLine],
) -> Result<Verdict, AuditFault>
    requires rules { IsRules rules.now }
    requires run { IsRun rules.now (record { issues = issues.now; shows = shows.now }) }
    ensures { IfOk result (IsComparison report.now (report_text rules.now (record { issues = issues.now; shows = shows.now }))) }
{
    let mut matcher = Matcher::new(report);
    match write_report(alloc, &mut matcher, rules, issues, shows) {
        Ok(()) => Ok(matcher.verdict()),
        Err(ReportFault::Write) => Ok(matcher.verdict()),
        Err(ReportFault::Memory) => Err(AuditFault::Memory),
    }
}
