// How a run of a script is told, for the commands that make one.
ghost use Rattle.std.specs.Prelude.{◌≡◌, All, is_some};
ghost use Rattle.std.specs.List.{list_any};
ghost use Rattle.rules_file.specs.Rules.{IsRules};
ghost use Rattle.rules_file.specs.declared.rules.Rules.{Rules};
ghost use Rattle.run_report.specs.Report.{IsEnded, IsRun};
ghost use Rattle.run_report.specs.declared.ended.EndedIssue.{EndedIssue};
ghost use Rattle.script_run.specs.Running.{run_of};
ghost use Rattle.market_top.specs.Reporting.{IsReported, status_of};
ghost use Rattle.market_top.specs.Verdict.{Delivered, Verdict};

use crate::extent::{Extent, write_run};
use crate::program::{Status, tell};
use mkt_base::ShowLine;
use mkt_io::Sink;
use rules_file::Rules;
use run_report::{EndedIssue, ReportFault};
use std::alloc::Global;

// Tells a run, by its issues and its reads of boards, to this extent; and answers 0, or 6 where an issue is halted; 4 or 5 where it is not
// told whole.
pub(crate) fn report_run<O: Sink, E: Sink>(
    alloc: Global,
    rules: &Rules,
    issues: &[EndedIssue],
    shows: &[ShowLine],
    extent: Extent,
    out: &mut O,
    err: &mut E,
) -> Status
    requires rules { IsRules rules.now }
    requires run { IsRun rules.now (run_of issues.now shows.now) }
    ensures { (v : Verdict) × IsReported extent rules.now (run_of issues.now shows.now) v
        × Delivered O.contents O.faults E.contents E.faults v out.old err.old out.new err.new result.0 }
{
    match write_run(alloc, out, extent, rules, issues, shows) {
        Ok(()) => done_status(issues),
        Err(ReportFault::Write) => Status::NOT_WRITTEN,
        Err(ReportFault::Memory) => tell(err, "memory\n", Status::NO_MEMORY),
    }
}

// 6 where an issue is halted, and else 0: some node of an issue is synchronised as long as it is not halted.
fn done_status(issues: &[EndedIssue]) -> Status
    ensures { (rules : Rules) → All (IsEnded rules) issues.now → result.0 ≡ status_of issues.now }
{
    if is_any_halted(issues) {
        Status::HALTED
    } else {
        Status::DONE
    }
}

fn is_any_halted(issues: &[EndedIssue]) -> bool
    ensures { result ≡ list_any (λ (issue : EndedIssue). is_some issue.halt) issues.now }
{
    issues.iter().any(|issue| issue.halt.is_some())
}
