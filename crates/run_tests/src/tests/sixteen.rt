// A long day of sixteen gateways, in several hundred stages.
ghost use Rattle.std.specs.Prelude.{◌<◌};

use super::call::{Answer, Call, RUN, answer_and_nodes, audited};
use super::report::{
    SYNCHRONISED, count_of, entries_in, entry_of, line_of, part_of, wrong_gateways,
};
use super::samples::sixteen_gateways;
use mkt_io::number_word;
use std::alloc::{AllocError, Global};
use std::sync::Wait;
use std::test::Fail;
use std::thread::Threads;

const GATEWAYS: u32 = 16;

const STAGES: u32 = 300;

// Numbers that look as if they were drawn.
#[derive(Drop)]
struct Draws(u32);

impl Draws {
    // A number below this one.
    fn below(&mut self, n: u32) -> u32
        requires { 0 < n }
        ensures { result < n }
    {
        self.0 = self.0.wrapping_mul(1_103_515_245).wrapping_add(12_345) & 0x7fff_ffff;
        (self.0 >> 16) % n
    }
}

// A line of some gateway: a read of a board, a loss or a rejoin of a node now and then, and mostly an order.
fn push_line(alloc: Global, script: &mut String, draws: &mut Draws) -> Result<(), AllocError> {
    let gateway = draws.below(GATEWAYS) + 1;
    let participant = draws.below(8) + 1;
    let (code, least) = if draws.below(2) == 0 {
        ("AAAA", 19_800u32)
    } else {
        ("BBBB", 11_800u32)
    };
    let line = match draws.below(12) {
        0 => format!(in alloc; "g{gateway} {code} show\n")?,
        1 => format!(in alloc; "g{gateway} * show\n")?,
        _ => {
            let side = if draws.below(2) == 0 { "buy" } else { "sell" };
            let price = least.wrapping_add(10 * draws.below(41));
            let quantity = 100 * (draws.below(10) + 1);
            format!(in alloc; "g{gateway} {code} order p{participant} {side} {price} {quantity}\n")?
        }
    };
    script.push_str(line.as_str())
}

// The lines of a stage: of no gateway, of one, or of several. Some stages move the clock or lose a node and bring it back.
fn push_stage(
    alloc: Global,
    script: &mut String,
    stage: u32,
    draws: &mut Draws,
) -> Result<(), AllocError> {
    match stage {
        0 => return script.push_str("g1 * clock 08:00:00.000\n"),
        40 => script.push_str("g9 * clock 09:00:00.000\n")?,
        41 | 43 => script.push_str("g16 * crash 1\n")?,
        42 | 80 => script.push_str("g3 * rejoin 1\n")?,
        150 => script.push_str("g5 * clock 11:30:00.000\n")?,
        151 => script.push_str("g12 * clock 12:30:00.000\n")?,
        299 => return script.push_str("g16 * clock 15:00:00.000\n"),
        _ => {}
    }
    let lines = match stage % 8 {
        0 => 0,
        1 => 1,
        _ => draws.below(10) + 2,
    };
    for _line in 0..lines {
        push_line(alloc, script, draws)?;
    }
    Ok(())
}

fn script_of(alloc: Global) -> Result<String, AllocError> {
    let mut script = String::new(alloc);
    let mut draws = Draws(7);
    for stage in 0..STAGES {
        if stage > 0 {
            script.push_str("barrier\n")?;
        }
        push_stage(alloc, &mut script, stage, &mut draws)?;
    }
    Ok(script)
}

// The number in a gateway's name, from 1 on; 0 where it is no gateway's.
fn gateway_number(name: &str) -> usize {
    let digits = name.strip_prefix("g").unwrap_or("0");
    number_word(digits.as_bytes()).unwrap_or(0) as usize
}

// The stages of the events in an issue by a script, for each gateway in the order of its own numbers.
fn stages_asked<'a>(alloc: Global, script: &'a str, code: &'a str) -> Result<Vec<Vec<u32>>, Fail> {
    let mut stages = Vec::new(alloc);
    for _gateway in 0..GATEWAYS + 1 {
        stages.push(Vec::new(alloc))?;
    }
    let mut stage = 0u32;
    for line in script.lines() {
        if line == "barrier" {
            stage = stage.wrapping_add(1);
        }
        if let Some((by, does)) = line_of(line, code)
            && does != "show"
            && let Some(own) = stages.get_mut(gateway_number(by))
        {
            own.push(stage)?;
        }
    }
    Ok(stages)
}

// The stage of an entry: that of its gateway's event with its own number.
fn stage_of(stages: &[Vec<u32>], gateway: &str, event: &str) -> Option<u32> {
    let (own, _event) = event.split_once(" ")?;
    let own = number_word(own.as_bytes())? as usize;
    stages.get(gateway_number(gateway))?.get(own).copied()
}

// The stages of an issue's entries by a report, in the order of their places.
fn stages_entered<'a>(
    alloc: Global,
    stages: &[Vec<u32>],
    report: &'a str,
    code: &'a str,
) -> Result<Vec<u32>, Fail> {
    let mut entered = Vec::new(alloc);
    for line in part_of(alloc, report, code)?.lines() {
        if let Some((by, event)) = entry_of(line) {
            entered.push(stage_of(stages, by, event).ok_or("no such event")?)?;
        }
    }
    Ok(entered)
}

fn is_rising(stages: &[u32]) -> bool {
    let mut last = 0;
    for stage in stages {
        if *stage < last {
            return false;
        }
        last = *stage;
    }
    true
}

// How many of the stages are before this one.
fn count_before(stages: &[u32], stage: u32) -> usize {
    stages.iter().filter(|at| **at < stage).count()
}

// A read of an issue's board, as reports have it: the number of its line, and the length.
fn show_of<'a>(line: &'a str, code: &'a str) -> Option<(u32, usize)> {
    let rest = line.strip_prefix("show ")?;
    let (number, rest) = rest.split_once(" ")?;
    let (_gateway, rest) = rest.split_once(" ")?;
    let (of, rest) = rest.split_once(" ")?;
    let (length, _rest) = rest.split_once(" ")?;
    if of != code {
        return None;
    }
    let number = number_word(number.as_bytes())?;
    let length = number_word(length.as_bytes())?;
    Some((number, length as usize))
}

// The stage of a script's line, by its number.
fn stage_at(script: &str, number: u32) -> u32 {
    let mut stage = 0u32;
    for line in script.lines().take(number as usize) {
        if line == "barrier" {
            stage = stage.wrapping_add(1);
        }
    }
    stage
}

// How many boards of an issue were read, and how many of them hold an entry of a later stage or lack one of an earlier stage.
fn shows_of<'a>(
    script: &'a str,
    report: &'a str,
    code: &'a str,
    entered: &[u32],
) -> (usize, usize) {
    let mut shows = 0usize;
    let mut wrong = 0usize;
    for line in report.lines() {
        if let Some((number, length)) = show_of(line, code) {
            let stage = stage_at(script, number);
            let earlier = count_before(entered, stage);
            let by_then = count_before(entered, stage.wrapping_add(1));
            shows = shows.wrapping_add(1);
            if length < earlier || length > by_then {
                wrong = wrong.wrapping_add(1);
            }
        }
    }
    (shows, wrong)
}

// How many boards of an issue the script reads.
fn shows_asked<'a>(script: &'a str, code: &'a str) -> usize {
    script
        .lines()
        .filter(|line| matches!(line_of(line, code), Some((_by, "show"))))
        .count()
}

// What is wrong of an issue by a report.
fn wrong_of_issue<'a>(
    alloc: Global,
    script: &'a str,
    report: &'a str,
    code: &'a str,
) -> Result<String, Fail> {
    let mut wrong = wrong_gateways(alloc, script, report, code, GATEWAYS)?;
    let asked = stages_asked(alloc, script, code)?;
    let entered = stages_entered(alloc, &asked, report, code)?;
    if !is_rising(&entered) {
        wrong.push_str("stages that fall\n")?;
    }
    let (shows, apart) = shows_of(script, report, code, &entered);
    if shows != shows_asked(script, code) || apart != 0 {
        wrong.push_str("other boards\n")?;
    }
    Ok(wrong)
}

// What is wrong of an answer to the script: its status and texts, the nodes that were given back, each issue, and the audit.
fn wrong_of_answer<'a>(
    alloc: Global,
    rules: &'a str,
    script: &'a str,
    answer: &'a Answer,
    held: &'a str,
) -> Result<String, Fail> {
    let report = answer.out.as_str();
    let first = entries_in(alloc, report, "AAAA")?;
    let second = entries_in(alloc, report, "BBBB")?;
    let wanted = format!(in alloc; "{first} {first} {first} | {second} {second} {second} ")?;
    let mut wrong = wrong_of_issue(alloc, script, report, "AAAA")?;
    let others = wrong_of_issue(alloc, script, report, "BBBB")?;
    wrong.push_str(others.as_str())?;
    if answer.status != 0 || answer.err.as_str() != "" {
        wrong.push_str("the status\n")?;
    }
    if held != wanted.as_str() || count_of(report, SYNCHRONISED) != 2 {
        wrong.push_str("the nodes\n")?;
    }
    if first <= 500 || second <= 500 {
        wrong.push_str("a short day\n")?;
    }
    let audit = audited(alloc, rules, report)?;
    if audit.as_str() != "yes\n" {
        wrong.push_str("the audit\n")?;
    }
    Ok(wrong)
}

// What is wrong of a run of the script.
fn wrong_of_run<'a, T: Threads + Wait + Sync>(
    rt: &T,
    alloc: Global,
    rules: &'a str,
    script: &'a str,
) -> Result<String, Fail> {
    let call = Call {
        rules,
        script,
        ..RUN
    };
    let (answer, held) = answer_and_nodes(rt, alloc, call)?;
    wrong_of_answer(alloc, rules, script, &answer, held.as_str())
}

#[test]
fn sixteen_gateways_in_three_hundred_stages(rt: HostRuntime) -> Result<(), Fail> {
    let alloc = rt.alloc();
    let rules = sixteen_gateways(alloc)?;
    let script = script_of(alloc)?;
    let wrong = wrong_of_run(&rt, alloc, rules.as_str(), script.as_str())?;
    assert_eq!(rt; wrong.as_str(), "");
    Ok(())
}
