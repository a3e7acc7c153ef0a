// A script that is run by its gateways in threads.
ghost use Rattle.std.specs.Prelude.{◌≡◌, ◌≤◌, [], length, filter, All, IfOk, OnOk, vec_capacity};
ghost use Rattle.memory_node.specs.declared.node.Label.{Label};
ghost use Rattle.rules_file.specs.Rules.{IsRules, gateways_in, issues_in};
ghost use Rattle.script_file.specs.Script.{IsScript};
ghost use Rattle.run_law.specs.Run.{IsRunOf, is_show};
ghost use Rattle.gateway_lines.specs.Making.{AreGatewaysOf};
ghost use Rattle.script_run.specs.Nodes.{AllGivenBack};
ghost use Rattle.script_run.specs.Running.{counts_for, run_of};

use crate::playing::{Played, play_issues};
use desk_law::end_is_played;
use gateway::Gateway;
use gateway_lines::{GatewaysFault, make_gateways};
use memory_node::Rack;
use mkt_base::ShowLine;
use mkt_io::Gate;
use rules_file::Rules;
use run_report::EndedIssue;
use script_file::Script;
use script_run::{RunFault, close_all, count_events, count_shows, open_all};
use show_merge::merge_shows;
use stage_law::{played_is_run, played_shows};
use std::alloc::Global;
use std::sync::Wait;
use std::thread::Threads;

/// What a script that was run made: its issues in file order, and its reads of boards in the order of lines.
#[derive(Debug, Drop)]
pub struct Ran {
    pub issues: Vec<EndedIssue>,
    pub shows: Vec<ShowLine>,
}

// Runs a script over new issues of the rules, by its gateways before their first lines, in room that was taken for the ends of issues and for the
// reads of boards.
fn run_lines<T: Threads + Wait + Sync, R: Rack, G: Gate + Sync>(
    rt: &T,
    alloc: Global,
    rules: &Rules,
    script: &Script,
    rack: &mut R,
    gate: &G,
    counts: &[usize],
    gateways: Vec<Gateway>,
    next: &mut [usize],
    ended: Vec<EndedIssue>,
    shows: Vec<ShowLine>,
) -> Result<Ran, RunFault>
    requires rules { IsRules rules.now }
    requires script { IsScript rules.now script.now }
    requires counts { counts.now ≡ counts_for (length (issues_in rules.now)) script.now.lines }
    requires gateways { AreGatewaysOf script.now.lines (length (gateways_in rules.now)) gateways.items }
    requires next { (length next.old ≡ length (gateways_in rules.now)) × All (λ n. n ≡ 0) next.old }
    requires none_out { (l : Label) → R.is_out rack.old l → ⊥ }
    requires ended { (ended.items ≡ []) × (length (issues_in rules.now) ≤ vec_capacity ended) }
    requires shows { (shows.items ≡ []) × (length (filter is_show script.now.lines) ≤ vec_capacity shows) }
    ensures run { IfOk result (λ r. IsRunOf rules.now script.now (run_of r.issues.items r.shows.items)) }
    ensures nodes { IfOk result (λ r. AllGivenBack (R.given rack.new) (run_of r.issues.items r.shows.items)) }
    ensures back { OnOk result ((l : Label) → R.is_out rack.new l → ⊥) }
{
    end_is_played();
    played_is_run();
    played_shows();
    let issues = open_all(alloc, rules, rack, counts)?;
    let callers = rules.gateways();
    let Played { issues, gateways } = play_issues(
        rt, alloc, script, issues, gateways, callers, gate,
    )?;
    let mut ended = ended;
    let mut shows = shows;
    close_all(rack, issues, &mut ended);
    merge_shows(
        script.lines.as_slice(),
        gateways.as_slice(),
        next,
        &mut shows,
    );
    Ok(Ran {
        issues: ended,
        shows,
    })
}

/// Runs a script: its gateways do their lines side by side, each in a thread of its own, stage by stage, over an issue for each of the rules, whose
/// journal is kept in three nodes of the rack; at the end all nodes are given back. Nothing of the rack is out before it. A stage begins when
/// all gateways have done the one before, and a gateway has then seen what any of them had seen. In which order the gateways of a stage
/// come is free. May wait.
///
/// Memory is taken before the first line is done, but for threads. `Memory` comes only where there is none, and nodes that were taken by then are
/// not given back.
pub fn run_script<T: Threads + Wait + Sync, R: Rack, G: Gate + Sync>(
    rt: &T,
    alloc: Global,
    rules: &Rules,
    script: &Script,
    rack: &mut R,
    gate: &G,
) -> Result<Ran, RunFault>
    requires rules { IsRules rules.now }
    requires script { IsScript rules.now script.now }
    requires none_out { (l : Label) → R.is_out rack.old l → ⊥ }
    ensures run { IfOk result (λ r. IsRunOf rules.now script.now (run_of r.issues.items r.shows.items)) }
    ensures nodes { IfOk result (λ r. AllGivenBack (R.given rack.new) (run_of r.issues.items r.shows.items)) }
    ensures back { OnOk result ((l : Label) → R.is_out rack.new l → ⊥) }
{
    let lines = script.lines.as_slice();
    let issues = usize::from(rules.issues());
    let many = rules.gateways();
    let Ok(counts) = count_events(alloc, lines, issues) else {
        return Err(RunFault::Memory);
    };
    let Ok(mut next) = vec![in alloc; 0usize; usize::from(many)] else {
        return Err(RunFault::Memory);
    };
    let Ok(ended) = Vec::with_capacity(alloc, issues) else {
        return Err(RunFault::Memory);
    };
    let Ok(shows) = Vec::with_capacity(alloc, count_shows(lines)) else {
        return Err(RunFault::Memory);
    };
    let gateways = match make_gateways(alloc, lines, many) {
        Ok(gateways) => gateways,
        Err(GatewaysFault::Memory) => return Err(RunFault::Memory),
    };
    run_lines(
        rt,
        alloc,
        rules,
        script,
        rack,
        gate,
        counts.as_slice(),
        gateways,
        next.as_mut_slice(),
        ended,
        shows,
    )
}
