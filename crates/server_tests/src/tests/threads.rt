// Four callers in threads of their own, and what was answered to them beside a replay of the journal.
use super::answers::{Row, row};
use super::callers::{Ran, run_all};
use super::counts::{Counts, count_all};
use super::events::clock;
use super::issues::served;
use super::machines::replayed;
use super::turns::submitted;
use issue_journal::Issue;
use issue_server::Served;
use memory_node::MemNode;
use mkt_base::Entry;
use std::alloc::Global;
use std::sync::Wait;
use std::test::Fail;
use std::thread::Threads;

// Closes an issue, and keeps its journal alone.
fn journal_of(issue: Issue<MemNode>) -> Vec<Entry> {
    let closed = issue.close();
    closed.log.into_vec()
}

// The clock, and then a thousand events of each of four callers, while two nodes fail: the journal, and what was answered.
fn ran<R: Threads + Wait + Sync>(rt: &R, alloc: Global) -> Result<(Vec<Entry>, Vec<Row>), Fail> {
    let (server, pass) = served(alloc, 5_000, [None, Some(700), Some(2_500)], 4)?;
    let Served { pass, result } = submitted(rt, &server, pass, clock(32_400_000));
    let Ran { pass, mut told } = run_all(rt, alloc, &server, pass, 1_000);
    let _ = told.push(row(1, 0, &result));
    let issue = server.close(pass);
    Ok((journal_of(issue), told))
}

fn counted<R: Threads + Wait + Sync>(rt: &R, alloc: Global) -> Result<Counts, Fail> {
    let (journal, told) = ran(rt, alloc)?;
    let replayed = replayed(alloc, journal.as_slice())?;
    Ok(count_all(journal.as_slice(), told.as_slice(), replayed.as_slice()))
}

#[test]
fn a_replay_gives_every_answer(rt: HostRuntime) -> Result<(), Fail> {
    let wanted = Counts {
        entries: 4_003,
        losses: 2,
        in_order: [1_001, 1_000, 1_000, 1_000],
        told: 4_001,
        told_again: 4_001,
        replayed: 4_003,
        replayed_told: 4_001,
    };
    assert_eq!(rt; counted(&rt, rt.alloc())?, wanted);
    Ok(())
}
