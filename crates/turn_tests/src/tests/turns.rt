// The calls of a cell, one after another and in many threads.
ghost use Rattle.std.specs.Prelude.{◌<◌};

use super::callers::run_all;
use super::journal::Journal;
use mkt_base::{Caller, Event, NodeNo};
use std::alloc::Global;
use std::sync::Wait;
use std::test::Fail;
use std::thread::Threads;
use turn_cell::TurnCell;

#[test]
fn a_try_while_a_turn_is_out_is_busy(rt: HostRuntime) -> Result<(), Fail> {
    let Some(node) = NodeNo::new(0) else {
        panic!(rt; "a node")
    };
    let Ok((cell, mut first)) = TurnCell::make(rt.alloc(), Journal::new(rt.alloc(), 7), 2) else {
        panic!(rt; "memory")
    };
    let second = cell.split(&mut first);
    assert!(rt; first.caller() == Caller(1) && second.caller() == Caller(2));
    assert!(rt; first.block() == 0 && second.block() == 0 && first.met() == 0);
    let Ok(mut turn) = cell.try_enter(first) else {
        panic!(rt; "nobody else has a turn")
    };
    turn.value().record(Caller(1), 0, Event::Crash { node });
    match cell.try_enter(second) {
        Ok(other) => {
            let _ = cell.leave(other);
            let _ = cell.leave(turn);
            panic!(rt; "two turns at once")
        }
        Err(busy) => {
            assert_eq!(rt; (busy.served, busy.ticket), (0, 1));
            let mut first = cell.leave(turn);
            assert_eq!(rt; (first.seen(), first.next_own()), (1, 1));
            let Ok(mut turn) = cell.try_enter(busy.pass) else {
                panic!(rt; "the turn was given back")
            };
            turn.value().stop(Caller(2), 0, Event::Crash { node });
            let second = cell.leave(turn);
            assert_eq!(rt; (second.seen(), second.next_own()), (1, 0));
            assert!(rt; second.halted().is_some() && first.halted().is_none());
            cell.meet(&mut first, second);
            assert_eq!(rt; (first.seen(), first.met()), (1, 1));
            assert!(rt; first.halted().is_some());
            let journal = cell.close(first);
            assert_eq!(rt; (journal.entries.len(), journal.name), (1, 7));
        }
    }
    Ok(())
}

// Makes a cell, lets each caller take so many turns in a thread of its own, and closes the cell.
fn journal_of<R: Threads + Wait + Sync>(
    rt: &R,
    alloc: Global,
    callers: u16,
    turns: u32,
) -> Option<Journal>
    requires { 0 < callers }
{
    let node = NodeNo::new(0)?;
    let (cell, pass) = TurnCell::make(alloc, Journal::new(alloc, 7), callers).ok()?;
    let pass = run_all(rt, &cell, pass, node, turns);
    Some(cell.close(pass))
}

#[test]
fn every_turn_is_there_once_and_in_its_callers_order(rt: HostRuntime) -> Result<(), Fail> {
    // A million turns of 16 callers on few processors, so that they look, sleep and are woken.
    for (callers, turns) in [(1, 100_000), (2, 100_000), (4, 50_000), (16, 31_250)] {
        let Some(journal) = journal_of(&rt, rt.alloc(), callers, turns) else {
            panic!(rt; "memory")
        };
        let mut owns = [0u32; 17];
        for (place, entry) in journal.entries.iter().enumerate() {
            let caller = usize::from(entry.caller.0);
            assert!(rt; 0 < caller && caller <= usize::from(callers));
            assert_eq!(rt;
                (entry.place, entry.own),
                (place as u64, owns[caller]),
                "{callers} callers, place {place}"
            );
            owns[caller] = entry.own.wrapping_add(1);
        }
        for own in owns.iter().skip(1).take(usize::from(callers)) {
            assert_eq!(rt; *own, turns, "{callers} callers");
        }
    }
    Ok(())
}
