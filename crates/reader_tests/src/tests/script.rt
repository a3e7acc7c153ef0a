// Scripts, and their faults.
ghost use Rattle.std.specs.Prelude.{IfOk};
ghost use Rattle.rules_file.specs.Rules.{IsRules};

use mkt_base::{Act, Caller, Event, Kind, Participant, Price, Qty, Side};
use mkt_io::number_in;
use rules_file::{Rules, read_rules};
use script_file::{GatewayScriptLine, Script, ScriptFault, read_script};
use std::alloc::{AllocError, Global};
use std::test::Fail;

const HEAD: &str =
    "special_ms = 180000\nsequential_ms = 60000\nticks = [[1000000000, 10]]\nlimits = [[1000000001, 5000]]\nranges = [[1000000001, 400]]\nsessions = [[\"08:00:00\", \"09:00:00\", \"11:30:00\"]]\nrounds = [\"all\"]\nparticipants = [\"p1\", \"p2\", \"p3\"]\n";

const TAIL: &str =
    "[[issue]]\ncode = \"AAAA\"\nbase = 20000\nunit = 100\n[[issue]]\ncode = \"BBBB\"\nbase = 12000\nunit = 100\n";

// Three participants, p1 to p3, and these gateways and issues.
fn rules_of(alloc: Global, gateways: &str, issues: &str) -> Result<Rules, Fail>
    ensures { IfOk result IsRules }
{
    let mut text = Vec::new(alloc);
    for part in [HEAD, gateways, issues] {
        text.extend_from_slice(part.as_bytes())?;
    }
    match read_rules(alloc, &text) {
        Ok(rules) => Ok(rules),
        Err(_) => Err("the rules are refused")?,
    }
}

// The same with two issues, AAAA and BBBB.
fn rules(alloc: Global, gateways: &str) -> Result<Rules, Fail>
    ensures { IfOk result IsRules }
{
    rules_of(alloc, gateways, TAIL)
}

fn two_gateways(alloc: Global) -> Result<Rules, Fail>
    ensures { IfOk result IsRules }
{
    rules(alloc, "gateways = [\"g1\", \"barrier\"]\n")
}

// What a text reads as.
fn script(alloc: Global, rules: &Rules, text: &[u8]) -> Result<Script, ScriptFault>
    requires { IsRules rules.now }
{
    if text.len() > 1 << 30 {
        return Err(ScriptFault::Memory);
    }
    read_script(alloc, text, rules)
}

// What a text reads as: `read` and how many lines it has, or the line and the number of its first fault.
fn told(alloc: Global, rules: &Rules, text: &[u8]) -> Result<String, AllocError>
    requires { IsRules rules.now }
{
    match script(alloc, rules, text) {
        Ok(script) => format!(in alloc; "read {}", script.lines.as_slice().len()),
        Err(ScriptFault::At { line, number }) => format!(in alloc; "{line} {number}"),
        Err(ScriptFault::Memory) => format!(in alloc; "memory"),
    }
}

// A text so many times.
fn repeated(alloc: Global, text: &[u8], times: u32) -> Result<Vec<u8>, AllocError> {
    let mut all = Vec::new(alloc);
    for _ in 0..times {
        all.extend_from_slice(text)?;
    }
    Ok(all)
}

// Scripts with a fault, a line each: the line and the number of the fault, and behind a colon the script, in which `^` stands
// for a line end.
const FAULTS: &str = "
# the gateway
1 4: g9 AAAA order p1 buy 20010 500^
1 4: barrier AAAA order p1 buy 20010 500^
1 4: G1 AAAA order p1 buy 20010 500
1 4: barrier barrier^
1 4: barrier x^
1 4: barriers^
1 1: g1^
# the issue
1 3: g1 ZZZZ order p1 buy 20010 500^
1 3: g1 ** clock 08:00:00^
1 1: g1 *^
1 1: g1 AAAA^
# the command
1 1: g1 AAAA foo p1 buy 20010 500^
1 1: g1 AAAA orders p1 buy 20010 500^
1 6: g1 AAAA cancel p1 0^
1 1: g1 AAAA cancels p1 0^
1 1: g1 * foo^
1 3: g1 * order^
1 3: g1 * order p9 hold x^
1 3: g1 * change^
1 3: g1 * cancel p9 x x x^
1 1: g1 AAAA order^
1 1: g1 * clock^
# the words of an order
1 5: g1 AAAA order p9 buy 20010 500^
1 1: g1 AAAA order p1^
1 1: g1 AAAA order p1 hold 20010 500^
1 1: g1 AAAA order p1 buy^
1 2: g1 AAAA order p1 buy limit 500^
1 2: g1 AAAA order p1 buy +20010 500^
1 2: g1 AAAA order p1 buy 020010 500^
1 2: g1 AAAA order p1 buy 4294967296 500^
1 1: g1 AAAA order p1 sell market^
1 2: g1 AAAA order p1 sell market -5^
1 2: g1 AAAA order p1 sell market 4294967296^
1 1: g1 AAAA order p1 sell market 500 open^
# an order line that ends too early
1 5: g1 AAAA order p
1 1: g1 AAAA order p1
1 1: g1 AAAA order p1\t
1 1: g1 AAAA order p1 b
1 1: g1 AAAA order p1 bu
1 1: g1 AAAA order p1 buy
1 1: g1 AAAA order p1 buy\t
1 1: g1 AAAA order p1 buy 2
1 1: g1 AAAA order p1 buy 20
1 1: g1 AAAA order p1 buy 200
1 1: g1 AAAA order p1 buy 2001
1 1: g1 AAAA order p1 buy 20010
1 1: g1 AAAA order p1 buy 20010\t
read 1: g1 AAAA order p1 buy 20010 5
# the words of a change and a cancellation
1 1: g1 AAAA change
1 5: g1 AAAA change p9 x x x x
1 1: g1 AAAA change p1
1 2: g1 AAAA change p1 x
1 2: g1 AAAA cancel p1 00
1 2: g1 AAAA cancel p1 4294967296
1 6: g1 AAAA cancel p1 4294967295
1 6: g1 AAAA change p1 0 x x x
2 1: g1 AAAA order p1 buy 1 1^g1 AAAA change p1 0
2 2: g1 AAAA order p1 buy 1 1^g1 AAAA change p1 0 x x
2 1: g1 AAAA order p1 buy 1 1^g1 AAAA change p1 0 market
2 2: g1 AAAA order p1 buy 1 1^g1 AAAA change p1 0 1 x x
2 1: g1 AAAA order p1 buy 1 1^g1 AAAA change p1 0 1 1 1
2 1: g1 AAAA order p1 buy 1 1^g1 AAAA cancel p1 0 0
# a moment
1 2: g1 * clock 24:00:00^
1 2: g1 * clock 8:00:00^
1 2: g1 AAAA clock 08:00:00.00^
1 1: g1 AAAA clock 08:00:00 500^
# a node
1 1: g1 AAAA crash
1 1: g1 * crash^
1 2: g1 AAAA crash 3^
1 2: g1 * crash 00^
1 2: g1 AAAA crash x 1
1 1: g1 AAAA crash 0 x^
1 1: g1 AAAA crashes 0^
1 1: g1 AAAA rejoin^
1 2: g1 * rejoin 3
1 1: g1 AAAA rejoin 2 2^
1 1: g1 AAAA rejoins 2^
read 6: g1 * crash 0^g1 * rejoin 1^g1 AAAA crash 2^g1 BBBB rejoin 0
# a read of the board
1 1: g1 AAAA show x^
1 1: g1 * show 0^
1 1: g1 AAAA shows^
1 4: g9 AAAA show^
1 3: g1 ZZZZ show^
read 3: g1 AAAA show^\tg1  *  show\t
# bytes
1 9: g1 AAAA clock 08:00:00\r\r^
1 9: # \u{7f}^
# two faults in a line
1 4: g9 * foo^
1 4: g9 ZZZZ show x^
1 3: g1 ZZZZ crash 3^
1 3: g1 ZZ foo^
1 3: g1 ZZZZ order p9 hold x x^
1 5: g1 AAAA order p9 hold x x^
1 1: g1 AAAA order p1 hold x x^
1 2: g1 AAAA order p1 buy x 500 500^
1 9: g9 AAAA \u{1}^
# a later line, and faults in two lines
4 2: # one^^ \t\r^g1 AAAA order p1 buy 1 x^
2 3: g1 * clock 08:00:00^g1 ZZZZ foo^g9 AAAA foo^
1 5: g1 AAAA order p9 buy 1 1^g9 AAAA foo^
3 4: g1 * clock 08:00:00^g1 * clock 08:00:00^g9
2 4: barrier^g9
3 4: barrier^ barrier\t ^barrier .
read 0: barrier^\tbarrier ^^barrier
";

// Own numbers, with two gateways, in the same form.
const OWN: &str = "
read 3: g1 AAAA order p1 buy 1 1^g1 AAAA change p2 0 market 0^g1 AAAA cancel p3 0
read 3: g1 AAAA order p1 buy 1 1^g1 AAAA cancel p1 0^g1 AAAA cancel p1 0
read 4: g1 AAAA order p1 buy 1 1^g1 BBBB order p1 buy 1 1^g1 BBBB cancel p1 0^g1 AAAA cancel p1 0
# all events of the gateway in the issue are counted
2 6: g1 AAAA clock 08:00:00^g1 AAAA cancel p1 0
read 3: g1 AAAA clock 08:00:00^g1 AAAA order p1 buy 1 1^g1 AAAA cancel p1 1
3 6: g1 AAAA order p1 buy 1 1^g1 AAAA cancel p1 0^g1 AAAA cancel p1 1
4 6: g1 AAAA order p1 buy 1 1^g1 AAAA change p1 0 1 1^g1 AAAA order p1 buy 1 1^g1 AAAA cancel p1 1
read 4: g1 AAAA order p1 buy 1 1^g1 AAAA change p1 0 1 1^g1 AAAA order p1 buy 1 1^g1 AAAA cancel p1 2
# a line for all issues is an event in each
read 6: g1 * clock 08:00:00^barrier * clock 08:00:00^g1 BBBB order p1 buy 1 1^\tg1 BBBB cancel p1 1
read 4: barrier * clock 08:00:00^g1 BBBB order p1 buy 1 1^g1 BBBB cancel p1 0
3 6: g1 * clock 08:00:00^g1 BBBB order p1 buy 1 1^g1 BBBB cancel p1 0
# a read of the board is no event, and a barrier none either
read 3: g1 AAAA order p1 buy 1 1^g1 AAAA show^g1 AAAA change p1 0 2 2
read 6: g1 AAAA show^g1 * show^g1 AAAA order p1 buy 1 1^g1 AAAA show^g1 AAAA cancel p1 0
3 6: g1 AAAA show^g1 AAAA order p1 buy 1 1^g1 AAAA cancel p1 1
read 2: g1 AAAA order p1 buy 1 1^barrier^g1 AAAA cancel p1 0
3 6: barrier^g1 AAAA order p1 buy 1 1^g1 AAAA cancel p1 1
# a crash and a rejoin are
2 6: g1 AAAA crash 1^g1 AAAA cancel p1 0
read 5: g1 * crash 1^g1 AAAA rejoin 2^g1 AAAA order p1 buy 1 1^g1 AAAA cancel p1 2
# a gateway with the name barrier
read 3: barrier AAAA clock 08:00:00^barrier^barrier * show
1 3: barrier barrier^
1 1: barrier AAAA^
# another gateway, another issue, a later line
2 6: g1 AAAA order p1 buy 1 1^barrier AAAA cancel p1 0
2 6: g1 AAAA order p1 buy 1 1^g1 BBBB cancel p1 0
1 6: g1 AAAA cancel p1 0^g1 AAAA order p1 buy 1 1
2 6: g1 AAAA order p1 buy 1 1^g1 AAAA cancel p1 1^g1 AAAA order p1 buy 1 1
";

// What the script of a case reads as, behind the case.
fn told_of_case(alloc: Global, rules: &Rules, case: &str) -> Result<String, Fail>
    requires { IsRules rules.now }
{
    let Some((want, text)) = case.split_once(": ") else {
        return Err("a case without a colon")?;
    };
    let text = text.replace(alloc, "^", "\n")?;
    let told = told(alloc, rules, text.as_bytes())?;
    if told.as_str() == want {
        return Ok(String::new(alloc));
    }
    Ok(format!(in alloc; "{told} in place of {case}\n")?)
}

// The cases that read as something else than is wanted.
fn wrong_cases(alloc: Global, rules: &Rules, cases: &str) -> Result<String, Fail>
    requires { IsRules rules.now }
{
    let mut wrong = String::new(alloc);
    for case in cases.lines() {
        if case.is_empty() || case.starts_with("#") {
            continue;
        }
        wrong.push_str(told_of_case(alloc, rules, case)?.as_str())?;
    }
    Ok(wrong)
}

// (Functions that own rules are few and short, since each of their ends lets all parts of the rules go.)
fn wrong_faults(alloc: Global) -> Result<String, Fail> {
    let rules = rules(alloc, "gateways = [\"g1\"]\n")?;
    wrong_cases(alloc, &rules, FAULTS)
}

fn wrong_own(alloc: Global) -> Result<String, Fail> {
    let rules = two_gateways(alloc)?;
    wrong_cases(alloc, &rules, OWN)
}

#[test]
fn faults(rt: HostRuntime) -> Result<(), Fail> {
    let wrong = wrong_faults(rt.alloc())?;
    assert_eq!(rt; wrong.as_str(), "");
    Ok(())
}

#[test]
fn own_numbers(rt: HostRuntime) -> Result<(), Fail> {
    let wrong = wrong_own(rt.alloc())?;
    assert_eq!(rt; wrong.as_str(), "");
    Ok(())
}

// A piece so many times, with an end.
fn long(alloc: Global, piece: &str, times: u32, end: &str) -> Result<Vec<u8>, AllocError> {
    let mut text = repeated(alloc, piece.as_bytes(), times)?;
    text.extend_from_slice(end.as_bytes())?;
    Ok(text)
}

// Long scripts, a line each: what the script reads as, and behind a colon how often a piece stands, a star, the piece, a bar, and
// what stands behind the last piece.
const LIMITS: &str = "
read 0: 0*|
read 0: 500000*^|
500001 8: 500001*^|
read 0: 200*#|\r^
1 7: 201*#|^
1 7: 201*\u{1}|^g9^
read 500000: 250000*g1 * clock 08:00:00^|
250001 8: 250001*g1 * clock 08:00:00^|
250001 2: 250000*g1 * clock 08:00:00^|g1 AAAA clock 24:00:00
500000 8: 499999*g1 AAAA order p1 buy 20010 500^|g1 * clock 08:00:00
";

// The same, with lines that make no event.
const COUNTS: &str = "
read 0: 500000*barrier^|
500001 8: 500001*barrier^|
250001 8: 250001*g1 * crash 1^|
read 500002: 250000*g1 * crash 1^|g1 * show
250002 8: 250000*g1 * crash 1^|barrier^g1 BBBB rejoin 1
read 1000000: 499999*g1 * show^|g1 * clock 08:00:00
500001 8: 500001*g1 * show^|
";

// The script of such a case.
fn text_of_limit(alloc: Global, text: &str) -> Result<Vec<u8>, Fail> {
    let Some((times, pieces)) = text.split_once("*") else {
        return Err("a case without a star")?;
    };
    let Some((piece, end)) = pieces.split_once("|") else {
        return Err("a case without a bar")?;
    };
    let Ok(times) = number_in(times.as_bytes(), 0, 1_000_000) else {
        return Err("a case without a number")?;
    };
    let piece = piece.replace(alloc, "^", "\n")?;
    let end = end.replace(alloc, "^", "\n")?;
    Ok(long(alloc, piece.as_str(), times, end.as_str())?)
}

fn told_of_limit(alloc: Global, rules: &Rules, case: &str) -> Result<String, Fail>
    requires { IsRules rules.now }
{
    let Some((want, text)) = case.split_once(": ") else {
        return Err("a case without a colon")?;
    };
    let text = text_of_limit(alloc, text)?;
    let told = told(alloc, rules, &text)?;
    if told.as_str() == want {
        return Ok(String::new(alloc));
    }
    Ok(format!(in alloc; "{told} in place of {case}\n")?)
}

// The limits that are not met.
fn wrong_limits(alloc: Global, rules: &Rules, cases: &str) -> Result<String, Fail>
    requires { IsRules rules.now }
{
    let mut wrong = String::new(alloc);
    for case in cases.lines() {
        if !case.is_empty() {
            wrong.push_str(told_of_limit(alloc, rules, case)?.as_str())?;
        }
    }
    Ok(wrong)
}

fn wrong_limits_of_two(alloc: Global, cases: &str) -> Result<String, Fail> {
    let rules = two_gateways(alloc)?;
    wrong_limits(alloc, &rules, cases)
}

#[test]
fn limits(rt: HostRuntime) -> Result<(), Fail> {
    let wrong = wrong_limits_of_two(rt.alloc(), LIMITS)?;
    assert_eq!(rt; wrong.as_str(), "");
    Ok(())
}

#[test]
fn counts(rt: HostRuntime) -> Result<(), Fail> {
    let wrong = wrong_limits_of_two(rt.alloc(), COUNTS)?;
    assert_eq!(rt; wrong.as_str(), "");
    Ok(())
}

// The tables of 64 issues, of the codes A0 to A63.
fn tables_of_64(alloc: Global) -> Result<String, AllocError> {
    let mut text = String::new(alloc);
    for number in 0..64u32 {
        let issue = format!(in alloc;
            "[[issue]]\ncode = \"A{number}\"\nbase = 20000\nunit = 100\n"
        )?;
        text.push_str(issue.as_str())?;
    }
    Ok(text)
}

fn many_issues(alloc: Global) -> Result<Rules, Fail>
    ensures { IfOk result IsRules }
{
    let tables = tables_of_64(alloc)?;
    rules_of(alloc, "gateways = [\"g1\"]\n", tables.as_str())
}

fn told_of_shows(alloc: Global) -> Result<String, Fail> {
    let rules = many_issues(alloc)?;
    told_of_long(alloc, &rules)
}

fn told_of_long(alloc: Global, rules: &Rules) -> Result<String, Fail>
    requires { IsRules rules.now }
{
    let text = long(alloc, "g1 * show\n", 500_000, "")?;
    Ok(told(alloc, rules, &text)?)
}

#[test]
fn shows_of_every_issue(rt: HostRuntime) -> Result<(), Fail> {
    let told = told_of_shows(rt.alloc())?;
    assert_eq!(rt; told.as_str(), "read 32000000");
    Ok(())
}

// The lines of a script, as they are printed for tests.
fn lines_text(alloc: Global, script: &Script) -> Result<String, AllocError> {
    let mut text = String::new(alloc);
    for line in script.lines.as_slice() {
        let one = format!(in alloc; "{} {:?}\n", line.gateway.0, line.line)?;
        text.push_str(one.as_str())?;
    }
    Ok(text)
}

const WHOLE: &str =
    "g1 * clock 08:00:00\n# an order\n\tbarrier  BBBB order p3 buy market 0 \ng1 AAAA order p1 sell 4294967295 4294967295\r\ng1 BBBB clock 23:59:59.999\ng1 AAAA change p2 1 market 7\ng1 AAAA change p2 1 9 4294967295\ng1 AAAA cancel p3 1";

const WHOLE_LINES: &str = "\
1 ScriptLine { line: 1, stage: 0, issue: 0, act: Do(Clock { at: Moment { ms: 28800000 } }) }
1 ScriptLine { line: 1, stage: 0, issue: 1, act: Do(Clock { at: Moment { ms: 28800000 } }) }
2 ScriptLine { line: 3, stage: 0, issue: 1, act: Do(Order { participant: Participant(2), side: Buy, kind: Market, qty: Qty(0) }) }
1 ScriptLine { line: 4, stage: 0, issue: 0, act: Do(Order { participant: Participant(0), side: Sell, kind: Limit(Price(4294967295)), qty: Qty(4294967295) }) }
1 ScriptLine { line: 5, stage: 0, issue: 1, act: Do(Clock { at: Moment { ms: 86399999 } }) }
1 ScriptLine { line: 6, stage: 0, issue: 0, act: Do(Change { participant: Participant(1), target: 1, kind: Market, qty: Qty(7) }) }
1 ScriptLine { line: 7, stage: 0, issue: 0, act: Do(Change { participant: Participant(1), target: 1, kind: Limit(Price(9)), qty: Qty(4294967295) }) }
1 ScriptLine { line: 8, stage: 0, issue: 0, act: Do(Cancel { participant: Participant(2), target: 1 }) }
1
";

const STAGES: &str =
    "barrier\ng1 * crash 1\n barrier \t\nbarrier BBBB rejoin 2\n# barrier\nbarrier\nbarrier\r\ng1 * show\nbarrier AAAA clock 08:00:00\nbarrier";

const STAGES_LINES: &str = "\
1 ScriptLine { line: 2, stage: 1, issue: 0, act: Do(Crash { node: NodeNo { n: 1 } }) }
1 ScriptLine { line: 2, stage: 1, issue: 1, act: Do(Crash { node: NodeNo { n: 1 } }) }
2 ScriptLine { line: 4, stage: 2, issue: 1, act: Do(Rejoin { node: NodeNo { n: 2 } }) }
1 ScriptLine { line: 8, stage: 4, issue: 0, act: Show }
1 ScriptLine { line: 8, stage: 4, issue: 1, act: Show }
2 ScriptLine { line: 9, stage: 4, issue: 0, act: Do(Clock { at: Moment { ms: 28800000 } }) }
6
";

// The lines of a script, and behind them how many stages it has.
fn text_of_two(alloc: Global, text: &str) -> Result<String, Fail> {
    let rules = two_gateways(alloc)?;
    text_of(alloc, &rules, text)
}

fn text_of(alloc: Global, rules: &Rules, text: &str) -> Result<String, Fail>
    requires { IsRules rules.now }
{
    let script = script(alloc, rules, text.as_bytes()).map_err(|_| "the script is refused")?;
    let lines = lines_text(alloc, &script)?;
    Ok(format!(in alloc; "{lines}{}\n", script.stages)?)
}

#[test]
fn a_script_is_read_whole(rt: HostRuntime) -> Result<(), Fail> {
    let text = text_of_two(rt.alloc(), WHOLE)?;
    assert_eq!(rt; text.as_str(), WHOLE_LINES);
    Ok(())
}

#[test]
fn stages(rt: HostRuntime) -> Result<(), Fail> {
    let text = text_of_two(rt.alloc(), STAGES)?;
    assert_eq!(rt; text.as_str(), STAGES_LINES);
    Ok(())
}

// The pieces of an order line of 30 bytes.
const PIECES: [&str; 8] = [
    "g1", " AAAA", " order", " p1", " buy", " 20010", " 500", "\n",
];

// Adds the order line with so many blanks more before one of its pieces.
fn add_padded(
    alloc: Global,
    text: &mut Vec<u8>,
    wide: usize,
    blanks: u32,
) -> Result<(), AllocError> {
    for (at, piece) in PIECES.iter().enumerate() {
        if at == wide {
            text.extend_from_slice(&repeated(alloc, b" ", blanks)?)?;
        }
        text.extend_from_slice(piece.as_bytes())?;
    }
    Ok(())
}

// The order line with 0 to 34 blanks more before each of its pieces in turn: lines of 30 to 64 bytes.
fn padded_lines(alloc: Global) -> Result<Vec<u8>, AllocError> {
    let mut text = Vec::new(alloc);
    for i in 0..280u32 {
        add_padded(alloc, &mut text, (i / 35) as usize, i % 35)?;
    }
    Ok(text)
}

// Whether a line is this order in the first issue.
fn is_the_order(line: &GatewayScriptLine) -> bool {
    let order = Event::Order {
        participant: Participant(0),
        side: Side::Buy,
        kind: Kind::Limit(Price(20010)),
        qty: Qty(500),
    };
    line.gateway == Caller(1) && line.line.issue == 0 && line.line.act == Act::Do(order)
}

// How many of these lines read as the order.
fn orders_of(alloc: Global, rules: &Rules) -> Result<usize, Fail>
    requires { IsRules rules.now }
{
    let text = padded_lines(alloc)?;
    let script = script(alloc, rules, &text).map_err(|_| "the script is refused")?;
    let lines = script.lines.as_slice();
    Ok(lines.iter().filter(|line| is_the_order(line)).count())
}

fn orders_of_two(alloc: Global) -> Result<usize, Fail> {
    let rules = two_gateways(alloc)?;
    orders_of(alloc, &rules)
}

#[test]
fn blanks_of_any_number(rt: HostRuntime) -> Result<(), Fail> {
    let orders = orders_of_two(rt.alloc())?;
    assert_eq!(rt; orders, 280);
    Ok(())
}
