// How much is told of a run.
ghost use Rattle.mkt_io.specs.Faults.{Rises};
ghost use Rattle.rules_file.specs.Rules.{IsRules};
ghost use Rattle.run_report.specs.Report.{IsRun};
ghost use Rattle.run_report.specs.Reported.{Reports};
ghost use Rattle.script_run.specs.Running.{run_of};
ghost use Rattle.market_top.specs.Reporting.{text_of};

use mkt_base::ShowLine;
use mkt_io::Sink;
use rules_file::Rules;
use run_report::{EndedIssue, ReportFault, write_report, write_totals};
use std::alloc::Global;

// How much is told of a run: its report, or the totals of its issues alone.
#[derive(Clone, Copy, Debug, PartialEq, Eq)]
pub(crate) enum Extent {
    Whole,
    Totals,
}

// Writes what is told of a run.
#[tactic(auto, unfolding(crate::specs::Reporting::text_of))]
pub(crate) fn write_run<O: Sink>(
    alloc: Global,
    out: &mut O,
    extent: Extent,
    rules: &Rules,
    issues: &[EndedIssue],
    shows: &[ShowLine],
) -> Result<(), ReportFault>
    requires rules { IsRules rules.now }
    requires run { IsRun rules.now (run_of issues.now shows.now) }
    ensures { Reports O.contents O.faults out.old (text_of extent rules.now (run_of issues.now shows.now)) out.new result }
{
    match extent {
        Extent::Whole => write_report(alloc, out, rules, issues, shows),
        Extent::Totals => write_totals(alloc, out, rules, issues),
    }
}
