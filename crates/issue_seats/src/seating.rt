// Gateways at their desks.
ghost use Rattle.std.specs.Prelude.{◌≡◌, ◌≤◌, List, length, map, All, IfOk, OnOk};
ghost use Rattle.std.specs.List.{AllZip};
ghost use Rattle.issue_journal.specs.Issue.{IssueNow};
ghost use Rattle.issue_seats.specs.Seats.{AreSeated, AreServed};
ghost use Rattle.issue_seats.specs.Steps.{AreSplit, MayBegin, MaySplit, desk_with};

use crate::SeatFault;
use gateway::Gateway;
use issue_desk::IssueDesk;
use issue_journal::Issue;
use issue_server::Server;
use memory_node::MemoryNode;
use stage_play::Part;
use std::alloc::{AllocError, Global};
use turn_cell::Pass;

// The desks of the first gateway, from the passes of the servers' callers 1.
fn first_desks<'a, N: MemoryNode>(
    alloc: Global,
    servers: &'a [Server<N>],
    passes: Vec<Pass<Issue<N>>>,
) -> Result<Vec<IssueDesk<'a, N>>, SeatFault>
    requires { AllZip MayBegin servers.now passes.items }
    ensures { IfOk result (λ desks. desks.items ≡ map desk_with passes.items) }
{
    let mut desks = match Vec::with_capacity(alloc, passes.len()) {
        Ok(desks) => desks,
        Err(AllocError) => return Err(SeatFault::Memory),
    };
    for (server, pass) in servers.iter().zip(passes) {
        desks.push_reserved(IssueDesk::make(server, pass));
    }
    Ok(desks)
}

// The desks of the next gateway, whose passes come from those of the first gateway's desks.
fn next_desks<'a, N: MemoryNode>(
    alloc: Global,
    first: &mut [IssueDesk<'a, N>],
) -> Result<Vec<IssueDesk<'a, N>>, SeatFault>
    requires { All MaySplit first.old }
    ensures { IfOk result (λ desks. AreSplit first.old first.new desks.items) }
{
    let mut desks = match Vec::with_capacity(alloc, first.len()) {
        Ok(desks) => desks,
        Err(AllocError) => return Err(SeatFault::Memory),
    };
    for desk in first.iter_mut() {
        desks.push_reserved(desk.another());
    }
    Ok(desks)
}

// The next gateway at its desks.
fn next_part<'a, N: MemoryNode>(
    alloc: Global,
    first: &mut Part<IssueDesk<'a, N>>,
    gateway: Gateway,
) -> Result<Part<IssueDesk<'a, N>>, SeatFault>
    requires { All MaySplit first.old.desks.items }
    ensures gateway { IfOk result (λ part. part.gateway ≡ gateway) }
    ensures split { IfOk result (λ part. AreSplit first.old.desks.items first.new.desks.items part.desks.items) }
    ensures same { OnOk result (first.new.gateway ≡ first.old.gateway) }
{
    let desks = next_desks(alloc, first.desks.as_mut_slice())?;
    Ok(Part { gateway, desks })
}

/// Seats 1 to 16 gateways, in the order of their numbers from 1: each gets a desk at the server of each issue, where nothing was done yet. The
/// servers are for as many callers as there are gateways, and the passes those of their callers 1, from which all others come.
pub fn seat_all<'a, N: MemoryNode>(
    alloc: Global,
    servers: &'a [Server<N>],
    passes: Vec<Pass<Issue<N>>>,
    gateways: Vec<Gateway>,
) -> Result<Vec<Part<IssueDesk<'a, N>>>, SeatFault>
    requires few { (1 ≤ length gateways.items) × (length gateways.items ≤ 16) }
    requires served { (issues : List IssueNow) × AreServed (length gateways.items) issues servers.now passes.items }
    ensures { IfOk result (λ parts. (issues : List IssueNow) → AreServed (length gateways.items) issues servers.now passes.items → AreSeated issues servers.now gateways.items parts.items) }
{
    let mut parts = match Vec::with_capacity(alloc, gateways.len()) {
        Ok(parts) => parts,
        Err(AllocError) => return Err(SeatFault::Memory),
    };
    let mut gateways = gateways.into_iter();
    let Some(gateway) = gateways.next() else {
        unreachable!()
    };
    let desks = first_desks(alloc, servers, passes)?;
    parts.push_reserved(Part { gateway, desks });
    for gateway in gateways {
        let part = next_part(alloc, &mut parts[0], gateway)?;
        parts.push_reserved(part);
    }
    Ok(parts)
}
