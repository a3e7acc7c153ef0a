// Issues that are served, played and closed.
ghost use Rattle.std.specs.Prelude.{◌≡◌, ℕ, ◌≤◌, List, [], None, length, All, AllPairs, IfOk, vec_capacity};
ghost use Rattle.script_file.specs.declared.script.GatewayScriptLine.{GatewayScriptLine};
ghost use Rattle.issue_journal.specs.Issue.{IssueNow};
ghost use Rattle.gateway_lines.specs.Making.{AreGatewaysOf};
ghost use Rattle.issue_seats.specs.Seats.{AreServed};
ghost use Rattle.stage_run.specs.Played.{AreLinesFor, WereAtDesks, WerePlayed};

use gateway::Gateway;
use issue_journal::Issue;
use issue_seats::{SeatFault, Serving, close_servers, meet_all, seat_all, serve_all};
use issue_server::Server;
use memory_node::MemoryNode;
use mkt_io::Gate;
use script_file::Script;
use script_run::RunFault;
use stage_play::{Sight, play_stages};
use std::alloc::Global;
use std::sync::Wait;
use std::thread::Threads;
use turn_cell::Pass;

// The gateways do all their lines at the desks of the servers, and leave them. The lists for what comes back are empty and have room.
fn play_at_desks<T: Threads + Wait + Sync, N: MemoryNode + Send, G: Gate + Sync>(
    rt: &T,
    alloc: Global,
    script: &Script,
    servers: &[Server<N>],
    passes: Vec<Pass<Issue<N>>>,
    gateways: Vec<Gateway>,
    gate: &G,
    sights: &mut [Sight],
    back: &mut Vec<Gateway>,
    met: &mut Vec<Pass<Issue<N>>>,
) -> Result<(), RunFault>
    requires few { (1 ≤ length gateways.items) × (length gateways.items ≤ 16) }
    requires some_issue { 1 ≤ length servers.now }
    requires gateways { AreGatewaysOf script.now.lines (length gateways.items) gateways.items }
    requires stages { AllPairs (λ (a b : GatewayScriptLine). a.line.stage ≤ b.line.stage) script.now.lines }
    requires served { (issues : List IssueNow) × AreServed (length gateways.items) issues servers.now passes.items
        × ((participants : ℕ) × AreLinesFor participants script.now.stages script.now.lines issues) }
    requires sights { length sights.old ≡ length servers.now }
    requires back { (back.old.items ≡ []) × (length gateways.items ≤ vec_capacity back.old) }
    requires met { (met.old.items ≡ []) × (length servers.now ≤ vec_capacity met.old) }
    ensures { IfOk result (λ _. (participants : ℕ) (issues : List IssueNow) → AreServed (length gateways.items) issues servers.now passes.items
        → AreLinesFor participants script.now.stages script.now.lines issues → WereAtDesks script.now (length gateways.items) issues servers.now back.new.items met.new.items) }
{
    let parts = match seat_all(alloc, servers, passes, gateways) {
        Ok(parts) => parts,
        Err(SeatFault::Memory) => return Err(RunFault::Memory),
    };
    let parts = play_stages(rt, alloc, parts, script.stages, sights, gate);
    meet_all(servers, parts, back, met);
    Ok(())
}

/// Issues that were played, and their gateways.
#[derive(Drop)]
pub(crate) struct Played<N: MemoryNode> {
    pub issues: Vec<Issue<N>>,
    pub gateways: Vec<Gateway>,
}

// The gateways, callers 1 to `callers`, do all their lines in issues without an entry, each in a thread of its own, and the issues are
// closed.
pub(crate) fn play_issues<T: Threads + Wait + Sync, N: MemoryNode + Send, G: Gate + Sync>(
    rt: &T,
    alloc: Global,
    script: &Script,
    issues: Vec<Issue<N>>,
    gateways: Vec<Gateway>,
    callers: u16,
    gate: &G,
) -> Result<Played<N>, RunFault>
    requires callers { callers ≡ length gateways.items }
    requires few { (1 ≤ length gateways.items) × (length gateways.items ≤ 16) }
    requires some_issue { 1 ≤ length issues.items }
    requires gateways { AreGatewaysOf script.now.lines (length gateways.items) gateways.items }
    requires stages { AllPairs (λ (a b : GatewayScriptLine). a.line.stage ≤ b.line.stage) script.now.lines }
    requires fresh { All (λ i. (i.entries ≡ []) × (i.halt ≡ None)) issues.items }
    requires lines { (participants : ℕ) × AreLinesFor participants script.now.stages script.now.lines issues.items }
    ensures { IfOk result (λ p. WerePlayed script.now (length gateways.items) issues.items p.issues.items p.gateways.items) }
{
    let Ok(mut sights) = vec![in alloc; Sight {
        seen: 0,
        halted: false
    }; issues.len()] else {
        return Err(RunFault::Memory);
    };
    let Ok(mut back) = Vec::with_capacity(alloc, gateways.len()) else {
        return Err(RunFault::Memory);
    };
    let Ok(mut met) = Vec::with_capacity(alloc, issues.len()) else {
        return Err(RunFault::Memory);
    };
    let Ok(mut closed) = Vec::with_capacity(alloc, issues.len()) else {
        return Err(RunFault::Memory);
    };
    let Serving { servers, passes } = match serve_all(alloc, issues, callers) {
        Ok(serving) => serving,
        Err(SeatFault::Memory) => return Err(RunFault::Memory),
    };
    play_at_desks(
        rt,
        alloc,
        script,
        servers.as_slice(),
        passes,
        gateways,
        gate,
        sights.as_mut_slice(),
        &mut back,
        &mut met,
    )?;
    close_servers(servers, met, &mut closed);
    Ok(Played {
        issues: closed,
        gateways: back,
    })
}
