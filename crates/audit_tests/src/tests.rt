// Reports, whole and broken, and the verdicts on them.
ghost use Rattle.std.specs.Prelude.{IfOk};
ghost use Rattle.rules_file.specs.Rules.{IsRules};

mod certificates;
mod edits;

use audit::{Verdict, audit};
use rules_file::{Rules, read_rules};
use std::alloc::Global;
use std::test::Fail;

const RULES: &str =
    "special_ms = 180000\nsequential_ms = 60000\nticks = [[30000, 10], [1000000000, 50]]\nlimits = [[15000, 3000], [20000, 4000], [30000, 5000], [1000000001, 7000]]\nranges = [[15000, 300], [20000, 400], [30000, 500], [1000000001, 700]]\nsessions = [[\"08:00:00\", \"09:00:00\", \"11:30:00\"]]\nrounds = [\"all\"]\nparticipants = [\"p1\", \"p2\"]\ngateways = [\"g1\", \"g2\"]\n\n[[issue]]\ncode = \"AAAA\"\nbase = 20000\nunit = 100\n";

// A report of 19 lines.
const REPORT: &str = "market 1
issue AAAA base 20000 unit 100 low 15000 high 25000 prices 1001
0 g1 0 clock 08:00:00.000
due 08:00:00.000
phase collecting
= moment 1
1 g1 1 order p1 buy 19990 100
= accepted 1 0 100
2 g1 2 order p2 sell 20010 100
= accepted 2 0 100
3 g1 3 clock 09:00:00.000
due 09:00:00.000
phase trading
auction 20000 19500 20500
calm 19990 20010
= moment 1
nodes synchronised synchronised synchronised
total AAAA entries 4 trades 0 shares 0 last 20000
end
";

// Changes to the report. Each has a line `: VERDICT FIRST LAST`: the number of the bad line, or 0; and which lines are taken out.
// The lines behind it stand in their place.
const CHANGES: &str = ": 0 1 0
: 1 1 1
market 2
: 1 1 1
market  1
: 1 1 1
: 2 2 2
issue AAAA base 20000 unit 100 low 15000 high 25000 prices 1002
: 3 3 3
0 g1 1 clock 08:00:00.000
: 3 3 3
1 g1 0 clock 08:00:00.000
: 3 3 3
0 g1 0 clock 08:00:00
: 3 3 3
0 g3 0 clock 08:00:00.000
: 3 3 3
0 - 0 crash 0
: 7 3 3
0 g2 0 clock 08:00:00.000
: 4 4 4
due 08:00:01.000
: 5 5 5
phase trading
: 6 6 6
= moment 2
: 7 7 7
1 g1 1 order p1 buy 19990 0100
: 7 7 7
1 g1 1 order p1 buy 19990 100 plain
: 7 7 7
1 g1 1 order p3 buy 19990 100
: 7 7 8
: 8 7 7
1 g1 1 order p1 buy 19990 200
: 8 7 7
1 g1 1 order p1 buy 4294967295 4294967295
: 7 7 7
1 g1 1 order p1 buy 4294967296 100
: 8 8 8
: 8 8 8
= accepted 1 0 200
: 15 9 9
2 g1 2 order p2 sell 19990 100
: 12 11 11
3 g1 3 clock 08:59:59.000
: 15 15 15
calm 19990 20020
: 17 17 17
nodes lost synchronised synchronised
: 18 18 18
total AAAA entries 5 trades 0 shares 0 last 20000
: 19 19 19
END
: 20 20 19
end
: 20 20 19
show 9 g1 AAAA 0 idle 20000 - - -
: 0 17 18
4 - 0 crash 0
= out 0
nodes lost synchronised synchronised
total AAAA entries 5 trades 0 shares 0 last 20000
: 19 17 18
4 - 0 crash 0
= out 0
5 - 1 crash 0
= refused 7 0
nodes lost synchronised synchronised
total AAAA entries 6 trades 0 shares 0 last 20000
: 21 17 18
4 - 0 crash 0
= out 0
5 g1 4 crash 1
= out 1
6 g2 0 crash 2
= out 2
nodes lost lost lost
total AAAA entries 7 trades 0 shares 0 last 20000
: 0 17 17
halted g1 4 order p2 buy market 7
nodes lost lost lost
: 17 17 17
halted g1 5 order p2 buy market 7
nodes lost lost lost
: 17 17 17
halted - 0 crash 0
nodes lost lost lost
: 18 17 17
halted g1 4 order p2 buy market 7
nodes synchronised synchronised synchronised
: 0 19 18
show 7 g2 AAAA 2 collecting 20000 19990 - -
show 7000000 g1 AAAA 4 trading 20000 19990 20010 -
: 20 19 18
show 7 g2 AAAA 2 collecting 20000 19990 - -
show 7 g1 AAAA 4 trading 20000 19990 20010 -
: 19 19 18
show 7 g2 AAAA 5 trading 20000 19990 20010 -
: 19 19 18
show 7 g2 AAAA 2 collecting 20000 19980 - -
: 19 19 18
show 7 - AAAA 0 idle 20000 - - -
";

// The rules of one issue.
fn rules_of(alloc: Global) -> Result<Rules, Fail>
    ensures { IfOk result IsRules }
{
    match read_rules(alloc, RULES.as_bytes()) {
        Ok(rules) => Ok(rules),
        Err(_) => Err("the rules are refused")?,
    }
}

// The number of the bad line, or 0.
fn bad_line(alloc: Global, rules: &Rules, report: &[u8]) -> Result<u64, Fail>
    requires { IsRules rules.now }
{
    if report.len() > 268_435_456 {
        return Err("too long")?;
    }
    match audit(alloc, rules, report) {
        Ok(Verdict::Yes) => Ok(0),
        Ok(Verdict::No { line }) => Ok(line),
        Err(_) => Err("no memory")?,
    }
}

// Adds the lines of the report from one to another, counted from 1.
fn add_lines(text: &mut String, first: usize, last: usize) -> Result<(), Fail> {
    for (i, line) in REPORT.lines().enumerate() {
        if first <= i + 1 && i < last {
            text.push_str(line)?;
            text.push_str("\n")?;
        }
    }
    Ok(())
}

// Adds the lines of the report from one on, and the verdict on the text.
fn add_verdict(
    alloc: Global,
    rules: &Rules,
    text: &mut String,
    from: usize,
    found: &mut String,
) -> Result<(), Fail>
    requires { IsRules rules.now }
{
    add_lines(text, from, 19)?;
    let line = bad_line(alloc, rules, text.as_bytes())?;
    found.push_str(format!(in alloc; "{line}\n")?.as_str())?;
    Ok(())
}

// The verdicts on the changed reports, and those that are wanted.
fn verdicts(alloc: Global, rules: &Rules) -> Result<(String, String), Fail>
    requires { IsRules rules.now }
{
    let mut wanted = String::new(alloc);
    let mut found = String::new(alloc);
    let mut text = String::new(alloc);
    let mut rest = 0;
    for line in CHANGES.lines() {
        match line.strip_prefix(": ") {
            None => {
                text.push_str(line)?;
                text.push_str("\n")?;
            }
            Some(head) => {
                if rest > 0 {
                    add_verdict(alloc, rules, &mut text, rest, &mut found)?;
                }
                let mut words = head.split(' ');
                wanted.push_str(words.next().ok_or("no verdict")?)?;
                wanted.push_str("\n")?;
                let first = words.next().ok_or("no first line")?.parse::<usize>()?;
                let last = words.next().ok_or("no last line")?.parse::<usize>()?;
                text.clear();
                add_lines(&mut text, 1, first.saturating_sub(1))?;
                rest = last.saturating_add(1);
            }
        }
    }
    add_verdict(alloc, rules, &mut text, rest, &mut found)?;
    Ok((wanted, found))
}

#[test]
fn changed_reports(rt: HostRuntime) -> Result<(), Fail> {
    let alloc = rt.alloc();
    let rules = rules_of(alloc)?;
    let (wanted, found) = verdicts(alloc, &rules)?;
    assert_eq!(rt; found.as_str(), wanted.as_str());
    Ok(())
}

// How often the verdict on a front part of the report is another than the number of its whole lines and one more.
fn wrong_cuts(alloc: Global, rules: &Rules) -> Result<u64, Fail>
    requires { IsRules rules.now }
{
    let report = REPORT.as_bytes();
    let mut lines = 0u64;
    let mut wrong = 0u64;
    for (n, byte) in report.iter().enumerate() {
        let line = bad_line(alloc, rules, report.get(..n).unwrap_or(&[]))?;
        if line != lines.saturating_add(1) {
            wrong = wrong.saturating_add(1);
        }
        if *byte == b'\n' {
            lines = lines.saturating_add(1);
        }
    }
    Ok(wrong)
}

#[test]
fn cut_reports(rt: HostRuntime) -> Result<(), Fail> {
    let alloc = rt.alloc();
    let rules = rules_of(alloc)?;
    let wrong = wrong_cuts(alloc, &rules)?;
    assert_eq!(rt; wrong, 0);
    Ok(())
}
