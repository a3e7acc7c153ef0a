// A script that is replayed: its lines one by one, in file order.
ghost use Rattle.std.specs.Prelude.{◌≡◌, ◌+◌, ◌<◌, ◌≤◌, [], ◌∷◌, ◌++◌, Some, true, length, filter, slice_get, All, IfOk, OnOk, vec_capacity};
ghost use Rattle.memory_node.specs.declared.node.Label.{Label};
ghost use Rattle.rules_file.specs.Rules.{IsRules, issues_in};
ghost use Rattle.script_file.specs.Script.{IsScript};
ghost use Rattle.script_file.specs.declared.script.GatewayScriptLine.{GatewayScriptLine};
ghost use Rattle.issue_machine.specs.Journal.{IsEventOf};
ghost use Rattle.run_report.specs.Report.{IsRun};
ghost use Rattle.run_law.specs.Replayed.{IsReplayOf};
ghost use Rattle.script_run.specs.Entering.{WasEntered};
ghost use Rattle.script_run.specs.Nodes.{AllGivenBack};
ghost use Rattle.script_run.specs.Running.{HasPlaceFor, MayDo, WasDone, WasRead, counts_for, read_of, run_of};
ghost use Rattle.run_law.specs.Run.{is_show};
ghost use Rattle.issue_journal.specs.Issue.{IssueNow};

use crate::RunFault;
use crate::closing::close_all;
use crate::counting::{count_events, count_shows};
use crate::opening::open_all;
use issue_journal::{Issue, losses_stay_few};
use memory_node::{MemoryNode, Rack};
use mkt_base::{Act, Caller, Event, ShowLine, TurnStop};
use rules_file::Rules;
use run_report::EndedIssue;
use script_file::{GatewayScriptLine, Script};
use std::alloc::Global;

/// What a script that was replayed made: its issues in file order, and its reads of boards in the order of lines.
#[derive(Debug, Drop)]
pub struct Replayed {
    pub issues: Vec<EndedIssue>,
    pub shows: Vec<ShowLine>,
}

// An event of a gateway is entered in an issue that has room for it, or that is halted.
fn enter<N: MemoryNode>(issue: &mut Issue<N>, gateway: Caller, event: &Event)
    requires gateway { (1 ≤ gateway.0) × (gateway.0 ≤ 16) }
    requires event { IsEventOf issue.old.fixed.participants event.now }
    requires place { HasPlaceFor event.now issue.old }
    ensures { WasEntered gateway event.now issue.old issue.new }
{
    let own = issue.next_own(gateway);
    match issue.turn(gateway, own, *event) {
        Ok(_) | Err(TurnStop::NoNode) => {}
        Err(TurnStop::JournalFull { .. }) => unreachable!(),
    }
}

// What a gateway reads of an issue's board at a line.
fn read<N: MemoryNode>(issue: &Issue<N>, of: &GatewayScriptLine) -> ShowLine
    ensures { result ≡ read_of of.now issue.now }
{
    ShowLine {
        line: of.line.line,
        gateway: of.gateway,
        issue: of.line.issue,
        board: issue.show(),
    }
}

// A line is done: its event is entered in its issue, or the issue's board is read.
fn do_line<N: MemoryNode>(
    issues: &mut [Issue<N>],
    of: &GatewayScriptLine,
    shows: &mut Vec<ShowLine>,
)
    requires line { of.now.line.issue < length issues.old }
    requires gateway { (1 ≤ of.now.gateway.0) × (of.now.gateway.0 ≤ 16) }
    requires may { (i : IssueNow) → slice_get issues.old of.now.line.issue ≡ Some i → MayDo of.now.gateway of.now.line.act i }
    requires room { is_show of.now ≡ true → length shows.old.items < vec_capacity shows.old }
    ensures issues { WasDone of.now of.now.line.act issues.old issues.new }
    ensures shows { WasRead of.now of.now.line.act issues.old shows.old.items shows.new.items }
    ensures room { vec_capacity shows.new ≡ vec_capacity shows.old }
{
    let at = usize::from(of.line.issue);
    match &of.line.act {
        Act::Do(event) => enter(&mut issues[at], of.gateway, event),
        Act::Show => shows.push_reserved(read(&issues[at], of)),
    }
}

// Replays a script over new issues of the rules, in room that was taken for their ends and for the reads of boards.
fn replay_lines<R: Rack>(
    alloc: Global,
    rules: &Rules,
    rack: &mut R,
    script: &Script,
    counts: &[usize],
    ended: Vec<EndedIssue>,
    shows: Vec<ShowLine>,
) -> Result<Replayed, RunFault>
    requires rules { IsRules rules.now }
    requires script { IsScript rules.now script.now }
    requires counts { counts.now ≡ counts_for (length (issues_in rules.now)) script.now.lines }
    requires none_out { (l : Label) → R.is_out rack.old l → ⊥ }
    requires ended { (ended.items ≡ []) × (length (issues_in rules.now) ≤ vec_capacity ended) }
    requires shows { (shows.items ≡ []) × (length (filter is_show script.now.lines) ≤ vec_capacity shows) }
    ensures printable { IfOk result (λ r. IsRun rules.now (run_of r.issues.items r.shows.items)) }
    ensures replayed { IfOk result (λ r. IsReplayOf script.now (run_of r.issues.items r.shows.items)) }
    ensures nodes { IfOk result (λ r. AllGivenBack (R.given rack.new) (run_of r.issues.items r.shows.items)) }
    ensures back { OnOk result ((l : Label) → R.is_out rack.new l → ⊥) }
{
    losses_stay_few();
    let mut issues = open_all(alloc, rules, rack, counts)?;
    let mut ended = ended;
    let mut shows = shows;
    for of in script.lines.as_slice() {
        do_line(issues.as_mut_slice(), of, &mut shows);
    }
    close_all(rack, issues, &mut ended);
    Ok(Replayed {
        issues: ended,
        shows,
    })
}

/// Replays a script: its lines are done one by one in file order, over an issue for each of the rules, whose journal is kept in three nodes
/// of the rack; at the end all nodes are given back. Nothing of the rack is out before it. A stage's end does nothing here, and a read of a
/// board is answered at its line, also in an issue that is halted.
///
/// The time is in proportion to the lines and the issues; all memory is taken before the first line is done. `Memory` comes only where there
/// is none, and nodes that were taken by then are not given back.
pub fn replay_script<R: Rack>(
    alloc: Global,
    rules: &Rules,
    script: &Script,
    rack: &mut R,
) -> Result<Replayed, RunFault>
    requires rules { IsRules rules.now }
    requires script { IsScript rules.now script.now }
    requires none_out { (l : Label) → R.is_out rack.old l → ⊥ }
    ensures printable { IfOk result (λ r. IsRun rules.now (run_of r.issues.items r.shows.items)) }
    ensures replayed { IfOk result (λ r. IsReplayOf script.now (run_of r.issues.items r.shows.items)) }
    ensures nodes { IfOk result (λ r. AllGivenBack (R.given rack.new) (run_of r.issues.items r.shows.items)) }
    ensures back { OnOk result ((l : Label) → R.is_out rack.new l → ⊥) }
{
    let lines = script.lines.as_slice();
    let issues = usize::from(rules.issues());
    let Ok(counts) = count_events(alloc, lines, issues) else {
        return Err(RunFault::Memory);
    };
    let Ok(ended) = Vec::with_capacity(alloc, issues) else {
        return Err(RunFault::Memory);
    };
    let Ok(shows) = Vec::with_capacity(alloc, count_shows(lines)) else {
        return Err(RunFault::Memory);
    };
    replay_lines(alloc, rules, rack, script, counts.as_slice(), ended, shows)
}
