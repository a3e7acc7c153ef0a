// The report with a line or a digit changed, each in turn.
ghost use Rattle.rules_file.specs.Rules.{IsRules};

use super::{REPORT, add_lines, bad_line, rules_of};
use rules_file::Rules;
use std::alloc::{AllocError, Global};
use std::test::Fail;

// For each line, the verdicts where it is left out, where it stands twice, where it and the next one are exchanged, and where it ends with
// CR LF: the number of the bad line, or 0.
const LINES: &str = "1: 1 2 1 1
2: 2 3 2 2
3: 3 4 3 3
4: 4 5 4 4
5: 5 6 5 5
6: 6 7 6 6
7: 7 8 7 7
8: 8 9 8 8
9: 9 10 9 9
10: 10 11 10 10
11: 11 12 11 11
12: 12 13 12 12
13: 13 14 13 13
14: 14 15 14 14
15: 15 16 15 15
16: 16 17 16 16
17: 17 18 17 17
18: 18 19 18 18
19: 19 20 0 19
";

// For each line, the verdicts where its first digit is another one, its second, and so on.
const DIGITS: &str = " 1
 2 2 2 2 2 2 2 2 2 2 2 2 2 2 2 2 2 2 2 2 2 2
 3 7 3 6 6 0 0 0 0 0 0 0
 4 4 4 4 4 4 4 4 4

 6
 7 7 7 0 8 8 15 15 8 8 8 8
 8 8 8 8 8
 9 9 9 9 10 15 15 15 10 10 10 10
 10 10 10 10 10
 11 11 11 16 12 0 0 0 0 0 0 0
 12 12 12 12 12 12 12 12 12

 14 14 14 14 14 14 14 14 14 14 14 14 14 14 14
 15 15 15 15 15 15 15 15 15 15
 16

 18 18 18 18 18 18 18 18

";

// The lines from which the report with a changed line is made, in this order: each part from one line to another, counted from 1.
fn parts(change: u8, number: usize) -> [(usize, usize); 4] {
    let before = number.saturating_sub(1);
    let behind = number.saturating_add(1);
    match change {
        0 => [(1, before), (behind, 19), (1, 0), (1, 0)],
        1 => [(1, number), (number, 19), (1, 0), (1, 0)],
        _ => [
            (1, before),
            (behind, behind),
            (number, number),
            (number.saturating_add(2), 19),
        ],
    }
}

// The report with a line left out, doubled or exchanged.
fn with_parts(alloc: Global, parts: [(usize, usize); 4]) -> Result<String, Fail> {
    let mut text = String::new(alloc);
    for (first, last) in parts {
        add_lines(&mut text, first, last)?;
    }
    Ok(text)
}

// The report with a line that ends with CR LF.
fn with_return(alloc: Global, number: usize) -> Result<String, Fail> {
    let mut text = String::new(alloc);
    for (i, line) in REPORT.lines().enumerate() {
        text.push_str(line)?;
        text.push_str(if i + 1 == number { "\r\n" } else { "\n" })?;
    }
    Ok(text)
}

// Adds the verdict on a text behind a space.
fn add_verdict(alloc: Global, rules: &Rules, text: &[u8], found: &mut String) -> Result<(), Fail>
    requires { IsRules rules.now }
{
    let line = bad_line(alloc, rules, text)?;
    found.push_str(format!(in alloc; " {line}")?.as_str())?;
    Ok(())
}

// Adds the verdicts on the changes of a line.
fn add_changes(alloc: Global, rules: &Rules, number: usize, found: &mut String) -> Result<(), Fail>
    requires { IsRules rules.now }
{
    for change in 0..3 {
        let text = with_parts(alloc, parts(change, number))?;
        add_verdict(alloc, rules, text.as_bytes(), found)?;
    }
    let text = with_return(alloc, number)?;
    add_verdict(alloc, rules, text.as_bytes(), found)
}

// The verdicts on the changes of each line.
fn line_verdicts(alloc: Global, rules: &Rules) -> Result<String, Fail>
    requires { IsRules rules.now }
{
    let mut found = String::new(alloc);
    for number in 1..20 {
        found.push_str(format!(in alloc; "{number}:")?.as_str())?;
        add_changes(alloc, rules, number, &mut found)?;
        found.push_str("\n")?;
    }
    Ok(found)
}

#[test]
fn changed_lines(rt: HostRuntime) -> Result<(), Fail> {
    let alloc = rt.alloc();
    let rules = rules_of(alloc)?;
    let found = line_verdicts(alloc, &rules)?;
    assert_eq!(rt; found.as_str(), LINES);
    Ok(())
}

// The next digit, and 0 behind 9.
fn other_digit(digit: u8) -> u8 {
    match digit {
        b'0'..=b'8' => digit + 1,
        _ => b'0',
    }
}

// The report with another byte at a place.
fn with_byte(alloc: Global, at: usize, byte: u8) -> Result<Vec<u8>, AllocError> {
    let mut text = REPORT.as_bytes().to_vec(alloc)?;
    if let Some(place) = text.get_mut(at) {
        *place = byte;
    }
    Ok(text)
}

// The verdicts on the changes of each digit.
fn digit_verdicts(alloc: Global, rules: &Rules) -> Result<String, Fail>
    requires { IsRules rules.now }
{
    let mut found = String::new(alloc);
    for (at, byte) in REPORT.as_bytes().iter().enumerate() {
        if *byte == b'\n' {
            found.push_str("\n")?;
        }
        if byte.is_ascii_digit() {
            let text = with_byte(alloc, at, other_digit(*byte))?;
            add_verdict(alloc, rules, text.as_slice(), &mut found)?;
        }
    }
    Ok(found)
}

#[test]
fn changed_digits(rt: HostRuntime) -> Result<(), Fail> {
    let alloc = rt.alloc();
    let rules = rules_of(alloc)?;
    let found = digit_verdicts(alloc, &rules)?;
    assert_eq!(rt; found.as_str(), DIGITS);
    Ok(())
}
