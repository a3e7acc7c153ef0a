// Rules files as they are read: the tables, and names by number.
ghost use Rattle.std.specs.Prelude.{IfOk};
ghost use Rattle.rules_file.specs.Rules.{IsRules};

use rules_file::{Rules, read_rules};
use std::alloc::{AllocError, Global};
use std::test::Fail;

const SAMPLE: &str =
    "special_ms = 180000\nsequential_ms = 60000\nticks = [[30000, 10], [1000000000, 50]]\nlimits = [[15000, 3000], [20000, 4000], [30000, 5000], [1000000001, 7000]]\nranges = [[15000, 300], [20000, 400], [30000, 500], [1000000001, 700]]\nsessions = [[\"08:00:00\", \"09:00:00\", \"11:30:00\"], [\"12:05:00\", \"12:30:00\", \"15:00:00\"]]\nrounds = [\"1u\", \"1/3\", \"1/2\", \"all\"]\nparticipants = [\"p1\", \"p2\", \"p3\", \"p4\", \"p5\", \"p6\", \"p7\", \"p8\"]\ngateways = [\"g1\", \"g2\", \"g3\", \"g4\"]\n\n[[issue]]\ncode = \"AAAA\"\nbase = 20000\nunit = 100\n\n[[issue]]\ncode = \"BBBB\"\nbase = 12000\nunit = 100\n";

// The rules of the sample.
fn sample(alloc: Global) -> Result<Rules, Fail>
    ensures { IfOk result IsRules }
{
    match read_rules(alloc, SAMPLE.as_bytes()) {
        Ok(rules) => Ok(rules),
        Err(_) => Err("the sample is refused")?,
    }
}

// The tables of the rules, as they are printed for tests.
fn tables_text(alloc: Global, rules: &Rules) -> Result<String, AllocError> {
    let quotes = format!(in alloc; "{} {}\n", rules.special_ms, rules.sequential_ms)?;
    let ticks = format!(in alloc; "{:?}\n", rules.ticks.as_slice())?;
    let ranges = format!(in alloc; "{:?}\n", rules.ranges.as_slice())?;
    let rounds = format!(in alloc; "{:?}\n", rules.rounds.as_slice())?;
    format!(in alloc; "{quotes}{ticks}{ranges}{rounds}")
}

const TABLES: &str = "\
180000 60000
[TickRow { upto: 30000, tick: 10 }, TickRow { upto: 1000000000, tick: 50 }]
[BandRow { below: 15000, value: 300 }, BandRow { below: 20000, value: 400 }, BandRow { below: 30000, value: 500 }, BandRow { below: 1000000001, value: 700 }]
[Units(1), Part { n: 1, d: 3 }, Part { n: 1, d: 2 }, All]
";

// The code and the rules of each issue.
fn issues_text(alloc: Global, rules: &Rules) -> Result<String, AllocError>
    requires { IsRules rules.now }
{
    let mut text = String::new(alloc);
    for i in 0..rules.issues() {
        let issue = rules.issue(i);
        let name = rules.issue_name(i);
        let line = format!(in alloc;
            "{name} {} {} {} {} {};",
            issue.base.0, issue.unit, issue.low.0, issue.high.0, issue.prices
        )?;
        text.push_str(line.as_str())?;
    }
    Ok(text)
}

// The names of the participants and of the gateways.
fn names_text(alloc: Global, rules: &Rules) -> Result<String, AllocError>
    requires { IsRules rules.now }
{
    let mut text = String::new(alloc);
    for i in 0..rules.participants() {
        text.push_str(rules.participant_name(i))?;
    }
    for i in 0..rules.gateways() {
        text.push_str(rules.gateway_name(i))?;
    }
    Ok(text)
}

// The numbers of an issue, a participant and a gateway of this name.
fn numbers_text(alloc: Global, rules: &Rules, name: &str) -> Result<String, AllocError>
    requires { IsRules rules.now }
{
    let issue = rules.issue_named(name);
    let participant = rules.participant_named(name);
    let gateway = rules.gateway_named(name);
    format!(in alloc; "{issue:?} {participant:?} {gateway:?}")
}

// Names of one list each, in a wrong case, of no list, and too long for any.
const NAMES: &str = "AAAA BBBB aaaa p8 g4 AAAAAAAAAAAAAAAAAAAA";

const NUMBERS: &str = "\
Some(0) None None
Some(1) None None
None None None
None Some(7) None
None None Some(3)
None None None
";

fn all_numbers_text(alloc: Global, rules: &Rules) -> Result<String, AllocError>
    requires { IsRules rules.now }
{
    let mut text = String::new(alloc);
    for name in NAMES.split_whitespace() {
        text.push_str(numbers_text(alloc, rules, name)?.as_str())?;
        text.push_str("\n")?;
    }
    Ok(text)
}

// All that the tests look at. (A function that lets rules go has a step of the prover for each of their parts at each
// of its ends, so only one has them.)
fn sample_text(alloc: Global) -> Result<String, Fail> {
    let rules = sample(alloc)?;
    Ok(text_of(alloc, &rules)?)
}

fn text_of(alloc: Global, rules: &Rules) -> Result<String, AllocError>
    requires { IsRules rules.now }
{
    let tables = tables_text(alloc, rules)?;
    let issues = issues_text(alloc, rules)?;
    let names = names_text(alloc, rules)?;
    let numbers = all_numbers_text(alloc, rules)?;
    format!(in alloc; "{tables}{issues}\n{names}\n{numbers}")
}

#[test]
fn the_sample_is_read(rt: HostRuntime) -> Result<(), Fail> {
    let text = sample_text(rt.alloc())?;
    let want = format!(in rt.alloc();
        "{TABLES}AAAA 20000 100 15000 25000 1001;BBBB 12000 100 9000 15000 601;\np1p2p3p4p5p6p7p8g1g2g3g4\n{NUMBERS}"
    )?;
    assert_eq!(rt; text.as_str(), want.as_str());
    Ok(())
}
