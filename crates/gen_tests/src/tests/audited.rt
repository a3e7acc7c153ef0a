// Reports that `replay` prints, and the audits of them and of changed ones.
use super::call::{Call, NONE, told};
use super::made::{FIRST, NAMES, report_of, rules_of, sample};
use std::alloc::{AllocError, Global};
use std::test::Fail;

const SCRIPT: &str = "g1 * clock 08:00:00
g1 AAAA order p1 buy 20010 300
g2 AAAA order p2 sell 19990 200
g3 AAAA show
g1 * clock 09:00:00
g2 AAAA order p3 sell market 100
g1 AAAA cancel p1 1
g4 BBBB order p4 sell 12000 100
";

// Its report, of 43 lines.
const REPORT: &str = "market 1
issue AAAA base 20000 unit 100 low 15000 high 25000 prices 1001
0 g1 0 clock 08:00:00.000
due 08:00:00.000
phase collecting
= moment 1
1 g1 1 order p1 buy 20010 300
= accepted 1 0 300
2 g2 0 order p2 sell 19990 200
= accepted 2 0 200
3 g1 2 clock 09:00:00.000
due 09:00:00.000
phase trading
auction 20000 19500 20500
rejected 20000 300 300 200 200
rejected 19990 300 300 200 0
price 20010 200 300 0 200 200
trade 20010 200 1 2
= moment 1
4 g2 1 order p3 sell market 100
trade 20010 100 1 4
= accepted 4 100 0
5 g1 3 cancel p1 1
= refused 4 1
nodes synchronised synchronised synchronised
total AAAA entries 6 trades 2 shares 300 last 20010
issue BBBB base 12000 unit 100 low 9000 high 15000 prices 601
0 g1 0 clock 08:00:00.000
due 08:00:00.000
phase collecting
= moment 1
1 g1 1 clock 09:00:00.000
due 09:00:00.000
phase trading
auction 12000 11700 12300
calm - -
= moment 1
2 g4 0 order p4 sell 12000 100
= accepted 2 0 100
nodes synchronised synchronised synchronised
total BBBB entries 3 trades 0 shares 0 last 12000
show 4 g3 AAAA 3 collecting 20000 20010 19990 -
end
";

// Changes of it: what is replaced, by what, and what is told of the changed report; `^` stands for a line end. Numbers are changed, lines
// left out, doubled and exchanged, line ends made CR LF, and the end is cut off; and another board is read, which could have been.
const CHANGES: &str = "market 1^ ||  || 7 no 1
trade 20010 200 1 2 || trade 20010 300 1 2 || 7 no 18
buy 20010 300 || buy 20010 400 || 7 no 8
2 g2 0 order || 2 g2 1 order || 7 no 9
shares 300 || shares 301 || 7 no 26
low 9000 || low 9001 || 7 no 27
= accepted 2 0 200^ ||  || 7 no 10
rejected 19990 300 300 200 0^ ||  || 7 no 16
^= refused 4 1^ || ^= refused 4 1^= refused 4 1^ || 7 no 25
trade 20010 100 1 4^ || trade 20010 100 1 4^trade 20010 100 1 4^ || 7 no 22
trade 20010 100 1 4^= accepted 4 100 0^ || = accepted 4 100 0^trade 20010 100 1 4^ || 7 no 21
^ || \r^ || 7 no 1
auction 20000 19500 20500^ || auction 20000 19500 20500\r^ || 7 no 14
^end^ || ^end\r^ || 7 no 43
^end^ || ^end^end^ || 7 no 44
^end^ || ^end^^ || 7 no 44
^end^ || ^end || 7 no 43
^end^ || ^ || 7 no 43
^end^ ||  || 7 no 42
 19990 -^end^ ||  || 7 no 42
AAAA 3 collecting 20000 20010 19990 - || AAAA 3 collecting 20000 20010 19980 - || 7 no 42
AAAA 3 collecting 20000 20010 19990 - || AAAA 2 collecting 20000 20010 - - || 0 yes
";

const DAY: &str = "g1 AAAA clock 09:00:00
g1 AAAA order p2 sell 20010 100
g1 AAAA order p3 sell 20400 100
g1 AAAA order p1 buy market 200
";

// Its report where two nodes fail while the third entry is written.
const LOST: &str = "market 1
issue AAAA base 20000 unit 100 low 15000 high 25000 prices 1001
0 g1 0 clock 09:00:00.000
due 08:00:00.000
phase collecting
due 09:00:00.000
phase trading
auction 20000 19500 20500
calm - -
= moment 2
1 g1 1 order p2 sell 20010 100
= accepted 1 0 100
2 g1 2 order p3 sell 20400 100
= accepted 2 0 100
3 - 0 crash 0
= out 0
4 - 1 crash 1
= out 1
5 g1 3 order p1 buy market 200
trade 20010 100 5 1
trade 20400 100 5 2
= accepted 5 200 0
nodes lost lost synchronised
total AAAA entries 6 trades 2 shares 200 last 20400
end
";

const LOST_CHANGES: &str = "3 - 0 crash 0 || 3 - 1 crash 0 || 7 no 15
3 - 0 crash 0^= out 0^ ||  || 7 no 15
4 - 1 crash 1 || 4 - 1 crash 0 || 7 no 17
4 - 1 crash 1^= out 1^ || 4 - 1 crash 2^= out 2^ || 7 no 23
4 - 1 crash 1^ || 4 - 1 show^ || 7 no 17
";

// Its report where all nodes fail at that entry.
const HALTED: &str = "market 1
issue AAAA base 20000 unit 100 low 15000 high 25000 prices 1001
0 g1 0 clock 09:00:00.000
due 08:00:00.000
phase collecting
due 09:00:00.000
phase trading
auction 20000 19500 20500
calm - -
= moment 2
1 g1 1 order p2 sell 20010 100
= accepted 1 0 100
halted g1 2 order p3 sell 20400 100
nodes lost lost lost
total AAAA entries 2 trades 0 shares 0 last 20000
end
";

const HALTED_CHANGES: &str = "halted g1 2 || halted g1 3 || 7 no 13
halted g1 2 order p3 || halted g1 2 order p9 || 7 no 13
halted g1 2 order p3 sell 20400 100^ ||  || 7 no 13
nodes lost lost lost || nodes lost lost synchronised || 7 no 14
halted g1 2 order p3 sell 20400 100 || halted g2 0 order p1 buy market 4294967295 || 0 yes
";

// What is told of the audit of a report under rules.
fn told_of_audit<'a>(alloc: Global, rules: &'a str, report: &'a str) -> Result<String, Fail> {
    let call = Call {
        words: "audit|rules|script",
        rules: rules.as_bytes(),
        script: report.as_bytes(),
        ..NONE
    };
    told(alloc, call)
}

// A report with one part in place of another.
fn changed(alloc: Global, report: &str, from: &str, to: &str) -> Result<String, AllocError> {
    let from = from.replace(alloc, "^", "\n")?;
    let to = to.replace(alloc, "^", "\n")?;
    report.replace(alloc, from.as_str(), to.as_str())
}

// Adds a line that says of which change of a report something else is told than its own line wants.
fn add_wrong(
    alloc: Global,
    rules: &str,
    report: &str,
    change: &str,
    wrong: &mut String,
) -> Result<(), Fail> {
    let (from, more) = change.split_once(" || ").ok_or("no change")?;
    let (to, wanted) = more.split_once(" || ").ok_or("no audit")?;
    let report = changed(alloc, report, from, to)?;
    let found = told_of_audit(alloc, rules, report.as_str())?;
    let wanted = format!(in alloc; "{wanted}\n|")?;
    if found.as_str() != wanted.as_str() {
        wrong.push_str(change)?;
        wrong.push_str(": ")?;
        wrong.push_str(found.as_str())?;
    }
    Ok(())
}

// Which audits are wrong: of the report itself, and of its changes. Nothing where none is.
fn wrong_audits(alloc: Global, rules: &str, report: &str, changes: &str) -> Result<String, Fail> {
    let mut wrong = String::new(alloc);
    add_wrong(alloc, rules, report, "^ || ^ || 0 yes", &mut wrong)?;
    for change in changes.lines() {
        add_wrong(alloc, rules, report, change, &mut wrong)?;
    }
    Ok(wrong)
}

// What is told of the replay of a script of which some calls of the nodes fail.
fn told_of_replay<'a>(
    alloc: Global,
    rules: &'a str,
    script: &'a str,
    nodes: &'a [(u8, u64)],
) -> Result<String, Fail> {
    let call = Call {
        words: "replay|rules|script",
        rules: rules.as_bytes(),
        script: script.as_bytes(),
        nodes,
        ..NONE
    };
    told(alloc, call)
}

#[test]
fn audits_of_a_day(rt: HostRuntime) -> Result<(), Fail> {
    let alloc = rt.alloc();
    let rules = sample(alloc)?;
    let rules = rules.as_str();
    let printed = told_of_replay(alloc, rules, SCRIPT, &[])?;
    let wanted = format!(in alloc; "0 {REPORT}|")?;
    assert_eq!(rt; printed.as_str(), wanted.as_str());
    assert_eq!(rt; wrong_audits(alloc, rules, REPORT, CHANGES)?.as_str(), "");
    Ok(())
}

#[test]
fn audits_of_lost_nodes(rt: HostRuntime) -> Result<(), Fail> {
    let alloc = rt.alloc();
    let rules = rules_of(alloc, &[NAMES, FIRST])?;
    let rules = rules.as_str();
    let cases: [(u8, &[(u8, u64)], &str, &str); 2] = [
        (0, &[(0, 2), (1, 2)], LOST, LOST_CHANGES),
        (6, &[(0, 2), (1, 2), (2, 2)], HALTED, HALTED_CHANGES),
    ];
    for (status, nodes, report, changes) in cases {
        let printed = told_of_replay(alloc, rules, DAY, nodes)?;
        let wanted = format!(in alloc; "{status} {report}|")?;
        assert_eq!(rt; printed.as_str(), wanted.as_str());
        assert_eq!(rt; wrong_audits(alloc, rules, report, changes)?.as_str(), "");
    }
    Ok(())
}

#[test]
fn audit_of_a_made_script(rt: HostRuntime) -> Result<(), Fail> {
    let alloc = rt.alloc();
    let rules = sample(alloc)?;
    let report = report_of(alloc, "gen|7|2000", rules.as_str())?;
    let wrong = wrong_audits(alloc, rules.as_str(), report.as_str(), "")?;
    assert_eq!(rt; wrong.as_str(), "");
    Ok(())
}

// Texts that are hardly a report, and refusals: the rules are read and tested first, and then the report is read.
#[test]
fn other_audits(rt: HostRuntime) -> Result<(), Fail> {
    let alloc = rt.alloc();
    let good = sample(alloc)?;
    let refused = rules_of(alloc, &[NAMES])?;
    let (good, refused) = (good.as_bytes(), refused.as_bytes());
    let cases: [(&str, &[u8], &[u8], &str); 8] = [
        ("audit|rules|script", good, b"", "7 no 1\n|"),
        ("audit|rules|script", good, b"market 2\n", "7 no 1\n|"),
        ("audit|rules|script", good, b"market 1\n", "7 no 2\n|"),
        ("audit|rules|script", good, b"market 1\nend\n", "7 no 2\n|"),
        ("audit|rules|script", refused, b"", "1 |rules 2 issue\n"),
        ("audit|rules|absent", refused, b"", "1 |rules 2 issue\n"),
        ("audit|rules|absent", good, b"", "3 |read\n"),
        ("audit|absent|script", good, b"", "3 |read\n"),
    ];
    for (words, rules, script, text) in cases {
        let call = Call {
            words,
            rules,
            script,
            ..NONE
        };
        assert_eq!(rt; told(alloc, call)?.as_str(), text);
    }
    Ok(())
}
