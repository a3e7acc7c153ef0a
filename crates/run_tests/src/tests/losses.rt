// Nodes that gateways lose together, or that fail, and what becomes of the issues.
use super::call::{Call, RUN, answer_and_nodes, audited};
use super::report::{
    count_of, entries_in, events_asked, events_by, part_of, sums_of, wrong_gateways,
};
use std::alloc::Global;
use std::sync::Wait;
use std::test::Fail;
use std::thread::Threads;

// Two gateways lose two nodes in one stage, and two others bring them back in the next; then two lose the same node, and two bring it back.
const LOST: &str = "g1 * clock 08:00:00.000
barrier
g1 AAAA order p1 buy 19900 100
g1 * crash 0
g2 * crash 1
g2 AAAA order p2 sell 20100 100
g3 AAAA show
g4 BBBB order p4 buy 11900 100
barrier
g3 * rejoin 0
g4 * rejoin 1
g4 * show
g1 AAAA order p1 buy 19800 100
barrier
g1 * crash 2
g2 * crash 2
g3 * show
barrier
g3 * rejoin 2
g4 * rejoin 2
g2 * show
barrier
g2 * clock 09:00:00.000
g3 * show
";

// Lines that its report has so often, in whatever order the gateways came.
const LOST_LINES: [(&str, usize); 12] = [
    ("= out 0", 2),
    ("= out 1", 2),
    ("= out 2", 2),
    ("= refused 7 2", 2),
    ("= joined 0", 2),
    ("= joined 1", 2),
    ("= joined 2", 2),
    ("= refused 8 2", 2),
    ("nodes synchronised synchronised synchronised", 2),
    ("total AAAA entries 13 trades 0 shares 0 last 20000", 1),
    ("total BBBB entries 11 trades 0 shares 0 last 12000", 1),
    ("end", 1),
];

// What is told of a run: its status, its fault, what the nodes hold, which lines of the report stand there otherwise than so often, and its audit.
fn told_of_run<T: Threads + Wait + Sync>(
    rt: &T,
    alloc: Global,
    call: Call,
    lines: &[(&str, usize)],
) -> Result<(String, String), Fail> {
    let (answer, held) = answer_and_nodes(rt, alloc, call)?;
    let report = answer.out.as_str();
    let mut told = format!(in alloc; "{} {}{held}", answer.status, answer.err)?;
    for (line, wanted) in lines {
        let found = count_of(report, line);
        if found != *wanted {
            let text = format!(in alloc; "{found} times {line} ")?;
            told.push_str(text.as_str())?;
        }
    }
    told.push_str(audited(alloc, call.rules, report)?.as_str())?;
    Ok((told, answer.out))
}

#[test]
fn losses_and_rejoins(rt: HostRuntime) -> Result<(), Fail> {
    let alloc = rt.alloc();
    let call = Call {
        script: LOST,
        ..RUN
    };
    for _run in 0..10 {
        let (told, report) = told_of_run(&rt, alloc, call, &LOST_LINES)?;
        assert_eq!(rt; told.as_str(), "0 13 13 13 | 11 11 11 yes\n");
        for code in ["AAAA", "BBBB"] {
            let wrong = wrong_gateways(alloc, LOST, report.as_str(), code, 4)?;
            assert_eq!(rt; wrong.as_str(), "");
        }
    }
    Ok(())
}

// Three gateways lose all nodes of an issue in one stage. In the next stage every gateway has seen that.
const HALTED: &str = "g1 * clock 08:00:00.000
barrier
g1 AAAA crash 0
g2 AAAA crash 1
g3 AAAA crash 2
g4 AAAA order p4 buy 20000 100
g1 BBBB order p1 buy 11900 100
g2 BBBB order p2 sell 12100 100
g4 BBBB crash 0
barrier
g1 AAAA order p1 buy 20000 100
g1 AAAA show
g2 * show
g3 BBBB order p3 buy 11800 100
g4 BBBB rejoin 0
barrier
g1 * clock 09:00:00.000
";

const HALTED_LINES: [(&str, usize); 4] = [
    ("nodes lost lost lost", 1),
    ("nodes synchronised synchronised synchronised", 1),
    ("total BBBB entries 7 trades 0 shares 0 last 12000", 1),
    ("end", 1),
];

// The line of the halt in an issue's part, without its first word; it stands before the one with the nodes.
fn halt_of<'a>(alloc: Global, report: &'a str, code: &'a str) -> Result<&'a str, Fail> {
    let part = part_of(alloc, report, code)?;
    let (_before, rest) = part.split_once("\nhalted ").ok_or("no halt")?;
    let (halt, nodes) = rest.split_once("\n").ok_or("no nodes")?;
    if nodes != "nodes lost lost lost" {
        return Err("other nodes")?;
    }
    Ok(halt)
}

// A gateway's entries are a front part of its events, and where the halt is its own, that is its next event.
fn is_front<'a>(
    alloc: Global,
    script: &'a str,
    report: &'a str,
    code: &'a str,
    gateway: &'a str,
) -> Result<bool, Fail> {
    let asked = events_asked(alloc, script, code, gateway)?;
    let entered = events_by(alloc, report, code, gateway)?;
    let Some(rest) = asked.as_str().strip_prefix(entered.as_str()) else {
        return Ok(false);
    };
    match halt_of(alloc, report, code)?.split_once(" ") {
        Some((by, event)) if by == gateway => Ok(rest.lines().next() == Some(event)),
        _ => Ok(true),
    }
}

// The boards of a halted issue that are read in a later stage are those of its whole journal.
fn are_whole<'a>(alloc: Global, report: &'a str, shows: &[&str]) -> Result<bool, Fail> {
    let entries = entries_in(alloc, report, "AAAA")?;
    for show in shows {
        let first = format!(in alloc; "\n{show} AAAA {entries} ")?;
        if !report.contains(first.as_str()) {
            return Ok(false);
        }
    }
    Ok(true)
}

#[test]
fn a_halted_issue_and_one_that_lives(rt: HostRuntime) -> Result<(), Fail> {
    let alloc = rt.alloc();
    let call = Call {
        script: HALTED,
        ..RUN
    };
    for _run in 0..10 {
        let (told, report) = told_of_run(&rt, alloc, call, &HALTED_LINES)?;
        let report = report.as_str();
        assert_eq!(rt; told.as_str(), "6 0 0 0 | 7 7 7 yes\n");
        for gateway in ["g1", "g2", "g3", "g4"] {
            assert!(rt;
                is_front(alloc, HALTED, report, "AAAA", gateway)?,
                "at {gateway} in {report}"
            );
        }
        assert!(rt;
            are_whole(alloc, report, &["show 12 g1", "show 13 g2"])?,
            "in {report}"
        );
        let wrong = wrong_gateways(alloc, HALTED, report, "BBBB", 4)?;
        assert_eq!(rt; wrong.as_str(), "");
    }
    Ok(())
}

const FAILING: &str = "g1 * clock 08:00:00.000
g1 AAAA order p1 buy 19900 100
g2 AAAA order p2 buy 19800 100
g3 AAAA order p3 sell 20100 100
g4 AAAA order p4 sell 20200 100
g4 BBBB order p4 sell 12200 100
";

// Nodes that fail at calls, and what is told then, whichever gateway comes to such a call: a node that fails is lost, and its loss is recorded
// behind the entry; where all of them fail at one entry, the issue is halted before it.
#[test]
fn failing_nodes(rt: HostRuntime) -> Result<(), Fail> {
    let alloc = rt.alloc();
    let one: &[(u16, u8, u64)] = &[(0, 1, 2)];
    let two: &[(u16, u8, u64)] = &[(0, 2, 1), (0, 0, 4), (1, 1, 0)];
    let all: &[(u16, u8, u64)] = &[(0, 0, 3), (0, 1, 3), (0, 2, 3)];
    let cases: [(&[(u16, u8, u64)], &str, &[(&str, usize)], &str); 4] = [
        (&[], "0 5 5 5 | 2 2 2 yes\n", &[], "AAAA entries 5"),
        (
            one,
            "0 6 0 6 | 2 2 2 yes\n",
            &[("3 - 0 crash 1", 1), ("= out 1", 1)],
            "AAAA entries 6",
        ),
        (
            two,
            "0 0 7 0 | 3 0 3 yes\n",
            &[
                ("2 - 0 crash 2", 1),
                ("5 - 1 crash 0", 1),
                ("1 - 0 crash 1", 1),
            ],
            "AAAA entries 7",
        ),
        (
            all,
            "6 0 0 0 | 2 2 2 yes\n",
            &[("nodes lost lost lost", 1)],
            "AAAA entries 3",
        ),
    ];
    for (nodes, wanted, lines, entries) in cases {
        let call = Call {
            script: FAILING,
            nodes,
            ..RUN
        };
        let (told, report) = told_of_run(&rt, alloc, call, lines)?;
        assert_eq!(rt; told.as_str(), wanted);
        let sums = sums_of(alloc, report.as_str(), "AAAA")?;
        assert!(rt; sums.contains(entries), "in {report}");
    }
    Ok(())
}
