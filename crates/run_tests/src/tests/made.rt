// Scripts that are made of a number, run by four gateways.
use super::call::{Answer, Call, RUN, answer_of, audited, plain_answer};
use super::report::{SYNCHRONISED, count_of, entries_in, wrong_gateways};
use super::samples::RULES;
use std::alloc::Global;
use std::sync::Wait;
use std::test::Fail;
use std::thread::Threads;

// The script that these words make.
fn script_of(alloc: Global, words: &str) -> Result<String, Fail> {
    Ok(plain_answer(alloc, Call { words, ..RUN })?.out)
}

/// What is wrong of an answer to the run of a script under the sample rules in which no node is lost: nothing where its report is audited, has
/// every gateway's events in its order, and has as many entries in all as a replay.
pub(super) fn wrong_of_run<'a>(
    alloc: Global,
    script: &'a str,
    answer: &'a Answer,
) -> Result<String, Fail> {
    let report = answer.out.as_str();
    let replayed = Call {
        words: "replay|rules|script",
        script,
        ..RUN
    };
    let replayed = plain_answer(alloc, replayed)?;
    let replayed = replayed.out.as_str();
    let mut wrong = String::new(alloc);
    for code in ["AAAA", "BBBB"] {
        let gateways = wrong_gateways(alloc, script, report, code, 4)?;
        wrong.push_str(gateways.as_str())?;
        if entries_in(alloc, report, code)? != entries_in(alloc, replayed, code)? {
            wrong.push_str("more or less entries than a replay")?;
        }
    }
    let audit = audited(alloc, RULES, report)?;
    if answer.status != 0 || !answer.err.is_empty() || audit.as_str() != "yes\n" {
        let end = format!(in alloc; "{} {}{audit}", answer.status, answer.err)?;
        wrong.push_str(end.as_str())?;
    }
    Ok(wrong)
}

fn wrong_of_words<T: Threads + Wait + Sync>(
    rt: &T,
    alloc: Global,
    words: &str,
) -> Result<String, Fail> {
    let script = script_of(alloc, words)?;
    let script = script.as_str();
    let answer = answer_of(rt, alloc, Call { script, ..RUN })?;
    wrong_of_run(alloc, script, &answer)
}

const MADE: &str = "gen|0|300
gen|1|300
gen|7|300
gen|12345|300
gen|1000000007|300
gen|2147483647|300
gen|0|1
gen|7|3000
";

#[test]
fn made_scripts(rt: HostRuntime) -> Result<(), Fail> {
    for words in MADE.lines() {
        let wrong = wrong_of_words(&rt, rt.alloc(), words)?;
        assert_eq!(rt; wrong.as_str(), "", "at {words}");
    }
    Ok(())
}

// In a made script a node is lost in the first stage and joins again in the next, when the journals are longer than a piece that it takes at
// one entry; what it lacks is brought by the entries of the gateways behind.
const OPENING: &str = "barrier\ng1 * clock 09:00:00.000\n";

const WITH_LOSS: &str = "g2 * crash 1\nbarrier\ng1 * clock 09:00:00.000\ng3 * rejoin 1\n";

#[test]
fn a_node_that_joins_under_load(rt: HostRuntime) -> Result<(), Fail> {
    let alloc = rt.alloc();
    let made = script_of(alloc, "gen|5|800")?;
    let script = made.replace(alloc, OPENING, WITH_LOSS)?;
    let script = script.as_str();
    let answer = answer_of(&rt, alloc, Call { script, ..RUN })?;
    let nodes = count_of(answer.out.as_str(), SYNCHRONISED);
    assert_eq!(rt; nodes, 2);
    let wrong = wrong_of_run(alloc, script, &answer)?;
    assert_eq!(rt; wrong.as_str(), "");
    Ok(())
}
