// What gateways do over several stages, by a table.
ghost use Rattle.std.specs.Prelude.{◌+◌, length, IfOk};
ghost use Rattle.gateway_tests.specs.Left.{AreLeft};

use super::desk::{ListDesk, Turn};
use super::lines::Lines;
use gateway::Gateway;
use mkt_base::{Caller, Desk, Event, Stopped, TurnStop};
use mkt_io::NoGate;
use std::alloc::Global;
use std::sync::Wait;
use std::test::Fail;

// Two desks, of the issues 0 and 1, whose turns are given by a digit each: so many entries of others, or 9 where the journal is full.
fn desk(alloc: Global, issue: u16, turns: &str) -> Result<ListDesk, Fail> {
    let mut list = Vec::new(alloc);
    for digit in turns.as_bytes() {
        if list.len() < 20 {
            list.push(match digit {
                b'9' => Turn::Full,
                _ => Turn::Entered { others: digit & 7 },
            })?;
        }
    }
    Ok(ListDesk::make(alloc, issue, list, None)?)
}

// The lines of a case, two letters each: `d` submits an event and `s` reads the board, of issue 0 or 1; `||` begins a stage.
fn gateway(alloc: Global, acts: &[u8]) -> Result<Gateway, Fail>
    ensures { IfOk result (λ g. AreLeft 0 2 g.lines) }
{
    let mut lines = Lines::begin(alloc);
    for i in 0..acts.len() / 2 {
        let Ok(line) = u32::try_from(i) else {
            return Err("a line")?;
        };
        let act = acts[2 * i];
        if act == b'|' {
            lines.barrier();
        } else {
            lines.add(line, u16::from(acts[2 * i + 1] & 1), act == b's')?;
        }
    }
    Ok(Gateway::make(alloc, Caller(4), lines.end())?)
}

// A stage of the gateway. All lines before it are done.
fn run_stage<W: Wait>(rt: &W, gateway: &mut Gateway, desks: &mut [ListDesk], stage: u32)
    requires { AreLeft stage (length desks.old) gateway.old.lines }
    ensures { AreLeft (stage + 1) (length desks.new) gateway.new.lines }
{
    gateway.run(rt, desks, stage, &NoGate);
}

// The number of the line that entered an event.
fn line_of(event: &Event) -> u32 {
    match event {
        Event::Cancel { target, .. } => *target,
        _ => 0,
    }
}

// The lines whose events a desk has entered, and the one that it stopped first, with the cause.
fn told_of_desk(alloc: Global, desk: &ListDesk) -> Result<String, Fail> {
    let mut told = String::new(alloc);
    for event in desk.made() {
        told.push_str(format!(in alloc; " {}", line_of(event))?.as_str())?;
    }
    if let Some(Stopped { event, cause }) = &desk.stop() {
        let cause = match cause {
            TurnStop::NoNode => "gone",
            TurnStop::JournalFull { .. } => "full",
        };
        told.push_str(format!(in alloc; " {}:{cause}", line_of(event))?.as_str())?;
    }
    Ok(told)
}

// The boards that a gateway has kept: the line, the issue that the board is of, and its length.
fn told_of_shows(alloc: Global, gateway: &Gateway) -> Result<String, Fail> {
    let mut told = String::new(alloc);
    for show in gateway.shows() {
        if show.gateway != Caller(4) || u32::from(show.issue) != show.board.last.0 {
            return Err("a show of another")?;
        }
        let text = format!(in alloc; " {}.{}.{}", show.line, show.issue, show.board.length)?;
        told.push_str(text.as_str())?;
    }
    Ok(told)
}

// What becomes of a gateway and its desks: how many lines are left after each stage, the boards, and the desks.
fn told_of_stages<W: Wait>(
    rt: &W,
    alloc: Global,
    gateway: &mut Gateway,
    desks: &mut [ListDesk],
) -> Result<String, Fail>
    requires { AreLeft 0 (length desks.old) gateway.old.lines }
{
    let mut told = String::new(alloc);
    for stage in 0..3u32 {
        run_stage(rt, gateway, desks, stage);
        told.push_str(format!(in alloc; "{} ", gateway.rest())?.as_str())?;
    }
    told.push_str(format!(in alloc; "|{}", told_of_shows(alloc, gateway)?)?.as_str())?;
    for desk in desks.iter() {
        told.push_str(format!(in alloc; " |{}", told_of_desk(alloc, desk)?)?.as_str())?;
    }
    Ok(told)
}

// What a case tells in place of what it is to tell; nothing where they are the same.
fn wrong_of_case<W: Wait>(rt: &W, alloc: Global, case: &str) -> Result<String, Fail> {
    let (first, rest) = case.split_once(" , ").ok_or("a case")?;
    let (second, rest) = rest.split_once(" , ").ok_or("a case")?;
    let (acts, want) = rest.split_once(" , ").ok_or("a case")?;
    let mut desks = [desk(alloc, 0, first)?, desk(alloc, 1, second)?];
    let mut gateway = gateway(alloc, acts.as_bytes())?;
    let told = told_of_stages(rt, alloc, &mut gateway, &mut desks)?;
    if told.as_str() == want {
        return Ok(String::new(alloc));
    }
    Ok(format!(in alloc; "{told} in place of {case}\n")?)
}

// The turns of the two desks; the lines; how many are left after each of three stages, the boards kept, and what each desk has
// entered and stopped.
const CASES: &str = "\
- , - ,  , 0 0 0 | | |
00 , 00 , d0d1d0d1 , 0 0 0 | | 0 2 | 1 3
02 , 19 , d0s0d0s0d1s1||d1s1d0||s0 , 4 1 0 | 1.0.1 3.0.4 5.1.2 8.1.2 11.0.4 | 0 2 9:gone | 4 7:full
090 , 3 , d0d0d0s0s1||||d1s1 , 2 2 0 | 3.0.2 4.1.0 8.1.4 | 0 2 1:full | 7
0 , 990 , s1d1d1d1d1s1||d0d0s0d1||d0s0s1 , 7 3 0 | 0.1.0 5.1.1 9.0.1 13.0.1 14.1.1 | 7 8:gone | 3 1:full
";

#[test]
fn a_table_of_stages(rt: HostRuntime) -> Result<(), Fail> {
    let alloc = rt.alloc();
    let mut wrong = String::new(alloc);
    for case in CASES.lines() {
        wrong.push_str(wrong_of_case(&rt, alloc, case)?.as_str())?;
    }
    assert_eq!(rt; wrong.as_str(), "");
    Ok(())
}
