// Callers that enter events in threads of their own.
ghost use Rattle.std.specs.Prelude.{◌≡◌, ◌+◌, ◌≤◌, length};
ghost use Rattle.std.specs.Thread.{IsSync};
ghost use Rattle.server_tests.specs.Submitting.{HasTheCallers, MaySubmit};

use super::answers::{Row, row};
use super::events::nth;
use super::turns::submitted;
use issue_journal::Issue;
use issue_server::Server;
use memory_node::MemNode;
use std::alloc::Global;
use std::sync::Wait;
use std::thread::{Threads, join};
use turn_cell::Pass;

/// What a pass is after its caller's events, and what was answered to them.
#[derive(Drop)]
pub(super) struct Ran {
    pub pass: Pass<Issue<MemNode>>,
    pub told: Vec<Row>,
}

// So many events of the pass's caller.
fn submit_all<W: Wait>(
    rt: &W,
    alloc: Global,
    server: &Server<MemNode>,
    mut pass: Pass<Issue<MemNode>>,
    events: u32,
) -> Ran
    requires pass { MaySubmit server.now pass }
    ensures pass { MaySubmit server.now result.pass }
    ensures callers { HasTheCallers pass result.pass }
{
    let caller = pass.caller().0;
    let first = pass.next_own();
    let mut told = Vec::new(alloc);
    for n in 0..events {
        let own = pass.next_own();
        let served = submitted(rt, server, pass, nth(caller, first.wrapping_add(n)));
        let _ = told.push(row(caller, own, &served.result));
        pass = served.pass;
    }
    Ran { pass, told }
}

// The one list behind the other.
fn joined(mut told: Vec<Row>, more: &[Row]) -> Vec<Row> {
    for row in more {
        let _ = told.push(*row);
    }
    told
}

/// So many events of the pass's caller and of each caller of its block, each in a thread of its own. The pass that comes back has met
/// all of them.
pub(super) fn run_all<R: Threads + Wait + Sync>(
    rt: &R,
    alloc: Global,
    server: &Server<MemNode>,
    mut pass: Pass<Issue<MemNode>>,
    events: u32,
) -> Ran
    requires pass { MaySubmit server.now pass }
    requires callers { pass.callers ≤ 16 }
    ensures cell { result.pass.cell ≡ server.now }
    ensures all_back { (result.pass.callers ≡ pass.callers) × (result.pass.block ≡ 0) × (length result.pass.met ≡ length pass.met + pass.block) }
{
    if pass.block() == 0 {
        return submit_all(rt, alloc, server, pass, events);
    }
    let other = server.split(&mut pass);
    let (rest, ended) = join(
        rt,
        move || -> Ran
            requires { IsSync R.row × MaySubmit server.now pass × (pass.callers ≤ 16) }
            ensures { (result.pass.cell ≡ pass.cell) × (result.pass.callers ≡ pass.callers) × (result.pass.block ≡ 0) × (length result.pass.met ≡ length pass.met + pass.block) }
        { run_all(rt, alloc, server, pass, events) },
        move || -> Ran
            requires { MaySubmit server.now other }
            ensures { MaySubmit other.cell result.pass × HasTheCallers other result.pass }
        { submit_all(rt, alloc, server, other, events) },
    );
    let Ran { mut pass, told } = rest;
    let Ran {
        pass: other,
        told: more,
    } = ended;
    server.meet(&mut pass, other);
    Ran {
        pass,
        told: joined(told, more.as_slice()),
    }
}
