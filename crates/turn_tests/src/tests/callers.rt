// Callers that take turns in threads of their own.
ghost use Rattle.std.specs.Prelude.{◌≡◌, ◌+◌, length};
ghost use Rattle.std.specs.Thread.{IsSync};

use super::journal::Journal;
use mkt_base::{Event, NodeNo};
use std::sync::Wait;
use std::thread::{Threads, join};
use turn_cell::{Pass, TurnCell};

// One turn that records a crash of node 0.
pub fn take_turn<R: Wait>(
    rt: &R,
    cell: &TurnCell<Journal>,
    pass: Pass<Journal>,
    node: NodeNo,
) -> Pass<Journal>
    requires { pass.cell ≡ cell.now }
    ensures { (result.cell ≡ pass.cell) × (result.callers ≡ pass.callers) × (result.block ≡ pass.block) × (result.met ≡ pass.met) }
{
    let caller = pass.caller();
    let own = pass.next_own();
    let mut turn = cell.enter(rt, pass);
    turn.value().record(caller, own, Event::Crash { node });
    cell.leave(turn)
}

pub fn take_turns<R: Wait>(
    rt: &R,
    cell: &TurnCell<Journal>,
    mut pass: Pass<Journal>,
    node: NodeNo,
    turns: u32,
) -> Pass<Journal>
    requires { pass.cell ≡ cell.now }
    ensures { (result.cell ≡ pass.cell) × (result.callers ≡ pass.callers) × (result.block ≡ pass.block) × (result.met ≡ pass.met) }
{
    for _ in 0..turns {
        pass = take_turn(rt, cell, pass, node);
    }
    pass
}

// So many turns of the pass's caller and of each caller of its block, each in a thread of its own. The pass that comes back
// has met all of them.
pub fn run_all<R: Threads + Wait + Sync>(
    rt: &R,
    cell: &TurnCell<Journal>,
    mut pass: Pass<Journal>,
    node: NodeNo,
    turns: u32,
) -> Pass<Journal>
    requires { pass.cell ≡ cell.now }
    ensures cell { result.cell ≡ pass.cell }
    ensures all_back { (result.callers ≡ pass.callers) × (result.block ≡ 0) × (length result.met ≡ length pass.met + pass.block) }
{
    if pass.block() == 0 {
        return take_turns(rt, cell, pass, node, turns);
    }
    let other = cell.split(&mut pass);
    let (mut rest, ended) = join(
        rt,
        move || -> Pass<Journal>
            requires { IsSync R.row × (pass.cell ≡ cell.now) }
            ensures { (result.cell ≡ pass.cell) × (result.callers ≡ pass.callers) × (result.block ≡ 0) × (length result.met ≡ length pass.met + pass.block) }
        { run_all(rt, cell, pass, node, turns) },
        move || -> Pass<Journal>
            requires { other.cell ≡ cell.now }
            ensures { (result.cell ≡ other.cell) × (result.block ≡ other.block) × (result.met ≡ other.met) }
        { take_turns(rt, cell, other, node, turns) },
    );
    cell.meet(&mut rest, ended);
    rest
}
