// The end of desks and servers.
ghost use Rattle.std.specs.Prelude.{◌≡◌, ℕ, ◌+◌, ◌<◌, ◌≤◌, [], length, map, slice_index_or, vec_capacity, All};
ghost use Rattle.atomic_table.specs.Seated.{TableId};
ghost use Rattle.turn_cell.specs.Passes.{Known};
ghost use Rattle.issue_journal.specs.Issue.{Fixed};
ghost use Rattle.issue_desk.specs.Desk.{DeskNow, IsDesk};
ghost use Rattle.stage_play.specs.declared.part.Part.{Part};
ghost use Rattle.issue_seats.specs.Back.{AreAtDesks, AreClosed, ArePassesOf};
ghost use Rattle.issue_seats.specs.Steps.{AreJoined, MayMeet};

use gateway::Gateway;
use issue_desk::IssueDesk;
use issue_journal::Issue;
use issue_server::Server;
use memory_node::MemoryNode;
use stage_play::Part;
use turn_cell::Pass;

// The passes of a gateway's desks.
fn take_passes<N: MemoryNode>(desks: Vec<IssueDesk<'_, N>>, passes: &mut Vec<Pass<Issue<N>>>)
    requires { (passes.old.items ≡ []) × (length desks.items ≤ vec_capacity passes.old) }
    ensures passes { passes.new.items ≡ map (λ (d : DeskNow). d.pass) desks.entry.items }
    ensures desks { All IsDesk desks.entry.items }
{
    for desk in desks {
        passes.push_reserved(desk.into_pass());
    }
}

// Ends a gateway's desks, the pass of each in the one of its issue.
fn meet_passes<N: MemoryNode>(
    servers: &[Server<N>],
    desks: Vec<IssueDesk<'_, N>>,
    passes: &mut [Pass<Issue<N>>],
)
    requires servers { length servers.now ≡ length passes.old }
    requires desks { length desks.items ≡ length passes.old }
    requires each { (n : ℕ) (s : TableId) (d : DeskNow) (q : Known Fixed) → n < length passes.old → MayMeet (slice_index_or servers.now n s) (slice_index_or desks.items n d) (slice_index_or passes.old n q) }
    ensures { AreJoined desks.entry.items passes.old passes.new }
{
    let mut desks = desks.into_iter();
    for (n, pass) in passes.iter_mut().enumerate() {
        let Some(desk) = desks.next() else {
            unreachable!()
        };
        servers[n].meet(pass, desk.into_pass());
    }
}

/// Ends all desks: of each issue the passes of all gateways meet in that of the first, and the gateways come back. Both lists are empty
/// and have room.
pub fn meet_all<N: MemoryNode>(
    servers: &[Server<N>],
    parts: Vec<Part<IssueDesk<'_, N>>>,
    gateways: &mut Vec<Gateway>,
    passes: &mut Vec<Pass<Issue<N>>>,
)
    requires desks { (fixed : ℕ → Fixed) × AreAtDesks fixed servers.now parts.items }
    requires gateways { (gateways.old.items ≡ []) × (length parts.items ≤ vec_capacity gateways.old) }
    requires passes { (passes.old.items ≡ []) × (length servers.now ≤ vec_capacity passes.old) }
    ensures gateways { gateways.new.items ≡ map (λ (p : Part DeskNow). p.gateway) parts.entry.items }
    ensures passes { ArePassesOf servers.now parts.entry.items passes.new.items }
{
    let mut parts = parts.into_iter();
    let Some(Part { gateway, desks }) = parts.next() else {
        unreachable!()
    };
    gateways.push_reserved(gateway);
    take_passes(desks, passes);
    for Part { gateway, desks } in parts {
        gateways.push_reserved(gateway);
        meet_passes(servers, desks, passes.as_mut_slice());
    }
}

/// Ends the servers, each with the pass in which all others have met, and gives the issues back in their order. The list is empty and has
/// room.
pub fn close_servers<N: MemoryNode>(
    servers: Vec<Server<N>>,
    passes: Vec<Pass<Issue<N>>>,
    issues: &mut Vec<Issue<N>>,
)
    requires each { length passes.items ≡ length servers.items }
    requires cells { (n : ℕ) (s : TableId) (q : Known Fixed) → n < length servers.items → (slice_index_or passes.items n q).cell ≡ slice_index_or servers.items n s }
    requires all_back { (n : ℕ) (q : Known Fixed) → n < length servers.items
        → length (slice_index_or passes.items n q).met + (slice_index_or passes.items n q).block + 1 ≡ (slice_index_or passes.items n q).callers }
    requires issues { (issues.old.items ≡ []) × (length servers.items ≤ vec_capacity issues.old) }
    ensures { AreClosed passes.items issues.new.items }
{
    for (server, pass) in servers.into_iter().zip(passes) {
        issues.push_reserved(server.close(pass));
    }
}
