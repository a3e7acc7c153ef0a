// The calls of one caller, one after another.
ghost use Rattle.std.specs.Prelude.{◌≡◌, ◌+◌, ◌^◌, ◌<◌, ◌≤◌};
ghost use Rattle.issue_machine.specs.Journal.{IsEventOf};
ghost use Rattle.server_tests.specs.Submitting.{HasTheCallers, MaySubmit};

use super::answers::{numbers, try_numbers};
use super::events::event_of;
use super::texts::{Text, answer_text, board_text, joined};
use issue_journal::Issue;
use issue_server::{Served, Server, Shown, Tried};
use memory_node::MemNode;
use mkt_base::Event;
use std::alloc::Global;
use std::sync::Wait;
use turn_cell::Pass;

/// Enters an event of three participants.
pub(super) fn submitted<W: Wait>(
    rt: &W,
    server: &Server<MemNode>,
    pass: Pass<Issue<MemNode>>,
    event: Event,
) -> Served<MemNode>
    requires pass { MaySubmit server.now pass }
    requires event { IsEventOf 3 event }
    ensures pass { MaySubmit server.now result.pass }
    ensures callers { HasTheCallers pass result.pass }
    ensures caller { result.pass.caller ≡ pass.caller }
    ensures turns { result.pass.turns ≡ pass.turns + 1 }
{
    server.submit(rt, pass, event)
}

/// A caller's pass, and what the caller was told.
#[derive(Drop)]
pub(super) struct Playing {
    pub pass: Pass<Issue<MemNode>>,
    pub told: Text,
}

fn entered<W: Wait>(
    rt: &W,
    alloc: Global,
    server: &Server<MemNode>,
    pass: Pass<Issue<MemNode>>,
    event: Event,
) -> Playing
    requires pass { MaySubmit server.now pass }
    requires event { IsEventOf 3 event }
    ensures pass { MaySubmit server.now result.pass }
    ensures callers { HasTheCallers pass result.pass }
    ensures turns { result.pass.turns ≤ pass.turns + 1 }
{
    let Served { pass, result } = submitted(rt, server, pass, event);
    Playing {
        pass,
        told: answer_text(alloc, numbers(&result)),
    }
}

fn tried(
    alloc: Global,
    server: &Server<MemNode>,
    pass: Pass<Issue<MemNode>>,
    event: Event,
) -> Playing
    requires pass { MaySubmit server.now pass }
    requires event { IsEventOf 3 event }
    requires turns { pass.turns + 1 < 2 ^ 32 }
    ensures pass { MaySubmit server.now result.pass }
    ensures callers { HasTheCallers pass result.pass }
    ensures turns { result.pass.turns ≤ pass.turns + 1 }
{
    let Tried { pass, result } = server.try_submit(pass, event);
    Playing {
        pass,
        told: answer_text(alloc, try_numbers(&result)),
    }
}

fn shown<W: Wait>(
    rt: &W,
    alloc: Global,
    server: &Server<MemNode>,
    pass: Pass<Issue<MemNode>>,
) -> Playing
    requires pass { MaySubmit server.now pass }
    ensures pass { MaySubmit server.now result.pass }
    ensures callers { HasTheCallers pass result.pass }
    ensures turns { result.pass.turns ≤ pass.turns + 1 }
{
    let Shown { pass, board } = server.show(rt, pass);
    Playing {
        pass,
        told: board_text(alloc, &board),
    }
}

// One act: a try by a question mark, the board by a point, and else an event that is entered.
fn acted<W: Wait>(
    rt: &W,
    alloc: Global,
    server: &Server<MemNode>,
    pass: Pass<Issue<MemNode>>,
    how: u8,
    act: u8,
) -> Playing
    requires pass { MaySubmit server.now pass }
    requires turns { pass.turns + 1 < 2 ^ 32 }
    ensures pass { MaySubmit server.now result.pass }
    ensures callers { HasTheCallers pass result.pass }
    ensures turns { result.pass.turns ≤ pass.turns + 1 }
{
    if how == b'.' {
        return shown(rt, alloc, server, pass);
    }
    if how == b'?' {
        return tried(alloc, server, pass, event_of(act));
    }
    entered(rt, alloc, server, pass, event_of(act))
}

/// Does at most a hundred acts of the pass's caller, each of two bytes: how, and its event. What they tell stands behind what was told
/// before.
pub(super) fn played<W: Wait>(
    rt: &W,
    alloc: Global,
    server: &Server<MemNode>,
    before: Playing,
    acts: &str,
) -> Playing
    requires pass { MaySubmit server.now before.pass }
    requires turns { before.pass.turns ≤ 1000 }
    ensures pass { MaySubmit server.now result.pass }
    ensures callers { HasTheCallers before.pass result.pass }
    ensures turns { result.pass.turns ≤ before.pass.turns + 100 }
{
    let Playing { mut pass, mut told } = before;
    let acts = acts.as_bytes();
    for i in 0..(acts.len() / 2).min(100) {
        let act = acted(rt, alloc, server, pass, acts[2 * i], acts[2 * i + 1]);
        pass = act.pass;
        told = joined(told, act.told);
    }
    Playing { pass, told }
}
