// A day of four gateways.
use super::call::{Call, RUN, answer_and_nodes, audited};
use super::report::{SYNCHRONISED, count_of, part_of, wrong_gateways};
use super::samples::{DAY, RULES};
use mkt_io::number_word;
use std::alloc::Global;
use std::sync::Wait;
use std::test::Fail;
use std::thread::Threads;

// What the report holds in any order of the gateways.
const SUMS: [&str; 3] = [
    "total AAAA entries 9 trades 1 shares 300 last 20010",
    "total BBBB entries 8 trades 2 shares 400 last 12000",
    "end",
];

// The reads of boards, up to the length.
const SHOWS: [&str; 4] = [
    "show 4 g1 AAAA ",
    "show 6 g2 AAAA ",
    "show 8 g3 BBBB ",
    "show 10 g4 BBBB ",
];

// The length of the board that is read in a line which begins so; none where there is no such line.
fn length_at(report: &str, first: &str) -> Option<u32> {
    for line in report.lines() {
        if let Some(rest) = line.strip_prefix(first) {
            let (length, _rest) = rest.split_once(" ")?;
            return number_word(length.as_bytes());
        }
    }
    None
}

// Each gateway reads its own order back, and the clock's event before it.
fn are_read_back(report: &str) -> bool {
    for first in SHOWS {
        if length_at(report, first).unwrap_or(0) < 2 {
            return false;
        }
    }
    true
}

// The script with times as reports have them.
fn printed_script(alloc: Global) -> Result<String, Fail> {
    let script = DAY.replace(alloc, ":00:00\n", ":00:00.000\n")?;
    Ok(script)
}

fn one_day<T: Threads + Wait + Sync>(rt: &T, alloc: Global) -> Result<String, Fail> {
    let day = Call { script: DAY, ..RUN };
    let (answer, held) = answer_and_nodes(rt, alloc, day)?;
    let report = answer.out.as_str();
    let script = printed_script(alloc)?;
    let mut wrong = format!(in alloc; "{} {}{held}", answer.status, answer.err)?;
    for line in SUMS {
        if count_of(report, line) != 1 {
            wrong.push_str(line)?;
        }
    }
    for code in ["AAAA", "BBBB"] {
        let part = part_of(alloc, report, code)?;
        if count_of(part, SYNCHRONISED) != 1 {
            wrong.push_str(part)?;
        }
        let gateways = wrong_gateways(alloc, script.as_str(), report, code, 4)?;
        wrong.push_str(gateways.as_str())?;
    }
    if !are_read_back(report) {
        wrong.push_str(report)?;
    }
    wrong.push_str(audited(alloc, RULES, report)?.as_str())?;
    Ok(wrong)
}

// The order of the gateways is another one from day to day.
#[test]
fn days_of_four_gateways(rt: HostRuntime) -> Result<(), Fail> {
    for _day in 0..20 {
        let day = one_day(&rt, rt.alloc())?;
        assert_eq!(rt; day.as_str(), "0 9 9 9 | 8 8 8 yes\n");
    }
    Ok(())
}
