// What the command refuses: as `replay` refuses the same files, and in the same order.
use super::call::{Call, RUN, plain_answer, told};
use super::samples::RULES;
use std::alloc::Global;
use std::sync::Wait;
use std::test::Fail;
use std::thread::Threads;

// Changes of the rules that are refused: what is replaced, by what, and the line of the fault.
const RULES_REFUSED: &str = "special_ms = 180000 || special_ms = || rules 1
special_ms = 180000 || special = 180000 || rules 2 special_ms
special_ms = 180000 || special_ms = 0 || rules 3 special_ms
[1000000000, 50] || [1000000000, 70] || rules 4 ticks 1
base = 20000 || base = 20005 || rules 5 AAAA
\"12:05:00\" || \"11:30:00\" || rules 7 2
\"1/3\" || \"3/1\" || rules 3 rounds
BBBB || AAAA || rules 10 AAAA
\"g4\" || \"g1\" || rules 10 g1
";

// Scripts that are refused, one a line, with the line of the fault; `^` stands for a line end.
const SCRIPTS_REFUSED: &str = "g1 AAAA cancel p1 0^ || script 1 6
g9 AAAA show^ || script 1 4
g1 ZZZZ show^ || script 1 3
g1 * order p1 buy 100 100^ || script 1 3
g1 AAAA order p9 buy 100 100^ || script 1 5
g1 AAAA sell p1 buy 100 100^ || script 1 1
g1 AAAA order p1 buy 100 -1^ || script 1 2
g1 AAAA clock 24:00:00^ || script 1 2
barrier^barrier barrier^ || script 2 4
g1 AAAA order p1 buy 100 100^barrier^g2 AAAA change p1 0 market 100^ || script 3 6
#^^g1 AAAA clock 08:00:00^x || script 4 4
";

// What a run and a replay of these files tell.
fn told_of_both<'a, T: Threads + Wait + Sync>(
    rt: &T,
    alloc: Global,
    rules: &'a str,
    script: &'a str,
) -> Result<(String, String), Fail> {
    let run = Call {
        rules,
        script,
        ..RUN
    };
    let words = "replay|rules|script";
    let replayed = plain_answer(alloc, Call { words, ..run })?;
    let (out, err) = (replayed.out.as_str(), replayed.err.as_str());
    let replayed = format!(in alloc; "{} {out}|{err}", replayed.status)?;
    Ok((told(rt, alloc, run)?, replayed))
}

#[test]
fn refused_rules(rt: HostRuntime) -> Result<(), Fail> {
    let alloc = rt.alloc();
    for line in RULES_REFUSED.lines() {
        let (from, rest) = line.split_once(" || ").ok_or("no change")?;
        let (to, fault) = rest.split_once(" || ").ok_or("no fault")?;
        let rules = RULES.replace(alloc, from, to)?;
        let (ran, replayed) = told_of_both(&rt, alloc, rules.as_str(), "x")?;
        let wanted = format!(in alloc; "1 |{fault}\n")?;
        assert_eq!(rt; ran.as_str(), wanted.as_str(), "at {line}");
        assert_eq!(rt; ran.as_str(), replayed.as_str(), "at {line}");
    }
    Ok(())
}

#[test]
fn refused_scripts(rt: HostRuntime) -> Result<(), Fail> {
    let alloc = rt.alloc();
    for line in SCRIPTS_REFUSED.lines() {
        let (script, fault) = line.split_once(" || ").ok_or("no fault")?;
        let script = script.replace(alloc, "^", "\n")?;
        let (ran, replayed) = told_of_both(&rt, alloc, RULES, script.as_str())?;
        let wanted = format!(in alloc; "1 |{fault}\n")?;
        assert_eq!(rt; ran.as_str(), wanted.as_str(), "at {line}");
        assert_eq!(rt; ran.as_str(), replayed.as_str(), "at {line}");
    }
    Ok(())
}

// Words that are no command, one call a line, with a bar between two words.
const WORDS_REFUSED: &str = "run
run|rules
run|rules|
run||script
run|rules|-
run|-rules|script
run|--|rules|script
run|rules|script|script
run|--gen|7|2000|rules
run --gen|rules|script
Run|rules|script
run |rules|script
rules|run|script
run rules script
";

const USAGE: &str =
    "2 |usage: auction FILE | check RULES | replay RULES SCRIPT | replay --gen NUMBER ORDERS RULES | run RULES SCRIPT | audit RULES REPORT | gen NUMBER ORDERS\n";

#[test]
fn refused_words(rt: HostRuntime) -> Result<(), Fail> {
    for words in WORDS_REFUSED.lines() {
        let refused = told(&rt, rt.alloc(), Call { words, ..RUN })?;
        assert_eq!(rt; refused.as_str(), USAGE, "at {words}");
    }
    Ok(())
}

const EMPTY: &str = "0 market 1
issue AAAA base 20000 unit 100 low 15000 high 25000 prices 1001
nodes synchronised synchronised synchronised
total AAAA entries 0 trades 0 shares 0 last 20000
issue BBBB base 12000 unit 100 low 9000 high 15000 prices 601
nodes synchronised synchronised synchronised
total BBBB entries 0 trades 0 shares 0 last 12000
end
|";

// A shelf that fails at each of its calls: the choice of the rules, a read of them and one of their end, and the same of the script.
#[test]
fn faults_of_the_shelf(rt: HostRuntime) -> Result<(), Fail> {
    let alloc = rt.alloc();
    let call = Call {
        script: "# no line\n",
        ..RUN
    };
    for n in 0..6u64 {
        let shelf: &[u64] = &[n];
        let read = told(&rt, alloc, Call { shelf, ..call })?;
        assert_eq!(rt; read.as_str(), "3 |read\n", "at {n}");
    }
    let behind: &[u64] = &[6];
    let cases: [(&str, &str, &[u64], &str); 6] = [
        ("run|rules|script", RULES, behind, EMPTY),
        ("run|absent|script", RULES, &[], "3 |read\n"),
        ("run|rules|absent", RULES, &[], "3 |read\n"),
        ("run|rules|absent", "", &[], "1 |rules 2 special_ms\n"),
        ("run|rules|script", "", &[3], "1 |rules 2 special_ms\n"),
        ("run|absent|absent", "", &[], "3 |read\n"),
    ];
    for (words, rules, shelf, text) in cases {
        let call = Call {
            words,
            rules,
            shelf,
            ..call
        };
        assert_eq!(rt; told(&rt, alloc, call)?.as_str(), text, "at {words}");
    }
    Ok(())
}
