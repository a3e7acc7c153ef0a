// Scripts that are made of a number, and the sums of their replay.
use super::call::{Call, NONE, answer_of, told};
use std::alloc::{AllocError, Global};
use std::test::Fail;

const HEAD: &str =
    "special_ms = 180000\nsequential_ms = 60000\nticks = [[30000, 10], [1000000000, 50]]\nlimits = [[15000, 3000], [20000, 4000], [30000, 5000], [1000000001, 7000]]\nranges = [[15000, 300], [20000, 400], [30000, 500], [1000000001, 700]]\nsessions = [[\"08:00:00\", \"09:00:00\", \"11:30:00\"], [\"12:05:00\", \"12:30:00\", \"15:00:00\"]]\nrounds = [\"1u\", \"1/3\", \"1/2\", \"all\"]\n";

pub(super) const NAMES: &str =
    "participants = [\"p1\", \"p2\", \"p3\", \"p4\", \"p5\", \"p6\", \"p7\", \"p8\"]\ngateways = [\"g1\", \"g2\", \"g3\", \"g4\"]\n";

pub(super) const FIRST: &str = "\n[[issue]]\ncode = \"AAAA\"\nbase = 20000\nunit = 100\n";

const SECOND: &str = "\n[[issue]]\ncode = \"BBBB\"\nbase = 12000\nunit = 100\n";

/// Rules with these names and issues.
pub(super) fn rules_of(alloc: Global, parts: &[&str]) -> Result<String, AllocError> {
    let mut text = String::from_str(alloc, HEAD)?;
    for part in parts {
        text.push_str(part)?;
    }
    Ok(text)
}

/// The rules of the sample.
pub(super) fn sample(alloc: Global) -> Result<String, AllocError> {
    rules_of(alloc, &[NAMES, FIRST, SECOND])
}

// What is told of words under rules.
fn told_under<'a>(alloc: Global, words: &'a str, rules: &'a str) -> Result<String, Fail> {
    let rules = rules.as_bytes();
    let call = Call {
        words,
        rules,
        ..NONE
    };
    told(alloc, call)
}

const ONE: &str = "0 g1 * clock 08:00:00.000
barrier
g1 * clock 09:00:00.000
barrier
g1 AAAA order p5 sell 20000 600
barrier
g1 * clock 15:00:00.000
|";

const FIVE: &str = "0 g1 * clock 08:00:00.000
g2 BBBB order p7 buy 12140 100
barrier
g1 * clock 09:00:00.000
barrier
g4 AAAA order p7 sell 20090 700
g2 AAAA order p8 buy 20280 600
g1 AAAA order p7 buy 19930 300
g4 BBBB order p2 sell 12010 900
barrier
g1 * clock 15:00:00.000
|";

// The values of this test and of the next were computed by other programs.
#[test]
fn small_scripts(rt: HostRuntime) -> Result<(), Fail> {
    let alloc = rt.alloc();
    for (words, text) in [("gen|0|1", ONE), ("gen|2147483647|5", FIVE)] {
        assert_eq!(rt; told_under(alloc, words, "")?.as_str(), text);
    }
    let words = "gen|0|1";
    let out: &[u64] = &[0];
    let failed = told(alloc, Call { words, out, ..NONE })?;
    assert_eq!(rt; failed.as_str(), "4 |");
    Ok(())
}

// The bytes of a text, each with its place, in one number.
fn sum_of(bytes: &[u8]) -> u32 {
    let mut sum = 0u32;
    for byte in bytes {
        sum = sum.wrapping_mul(31).wrapping_add(u32::from(*byte));
    }
    sum
}

// The status of `gen` for the largest script, the length of what it wrote, and the sum of its bytes.
fn large_script(alloc: Global) -> Result<(u8, usize, u32), Fail> {
    let words = "gen|7|200000";
    let answer = answer_of(alloc, Call { words, ..NONE })?;
    let bytes = answer.out.as_bytes();
    Ok((answer.status, bytes.len(), sum_of(bytes)))
}

#[test]
fn largest_script(rt: HostRuntime) -> Result<(), Fail> {
    for _time in 0..2 {
        let (status, length, sum) = large_script(rt.alloc())?;
        assert_eq!(rt; status, 0);
        assert_eq!(rt; length, 6_340_413);
        assert_eq!(rt; sum, 3_202_849_403);
    }
    Ok(())
}

// The report of a script under rules.
fn report_under<'a>(alloc: Global, rules: &'a str, script: &'a str) -> Result<String, Fail> {
    let call = Call {
        words: "replay|rules|script",
        rules: rules.as_bytes(),
        script: script.as_bytes(),
        ..NONE
    };
    Ok(answer_of(alloc, call)?.out)
}

/// The report of the script that these words make, under rules.
pub(super) fn report_of(alloc: Global, words: &str, rules: &str) -> Result<String, Fail> {
    let made = answer_of(alloc, Call { words, ..NONE })?;
    report_under(alloc, rules, made.out.as_str())
}

// The lines of a report that begin with `total`, and its last one.
fn sums_of(alloc: Global, report: &str) -> Result<String, AllocError> {
    let mut sums = String::new(alloc);
    for line in report.lines() {
        if line.starts_with("total ") || line == "end" {
            sums.push_str(line)?;
            sums.push_str("\n")?;
        }
    }
    Ok(sums)
}

const NO_TRADES: &str = "0 total AAAA entries 4 trades 0 shares 0 last 20000
total BBBB entries 3 trades 0 shares 0 last 12000
end
|";

const MANY_TRADES: &str = "0 total AAAA entries 1021 trades 746 shares 224900 last 20150
total BBBB entries 985 trades 760 shares 229000 last 12020
end
|";

#[test]
fn sums_of_a_replay(rt: HostRuntime) -> Result<(), Fail> {
    let alloc = rt.alloc();
    let rules = sample(alloc)?;
    let rules = rules.as_str();
    for (words, text) in [
        ("replay|--gen|0|1|rules", NO_TRADES),
        ("replay|--gen|7|2000|rules", MANY_TRADES),
        ("replay|--gen|7|2000|rules", MANY_TRADES),
    ] {
        assert_eq!(rt; told_under(alloc, words, rules)?.as_str(), text);
    }
    Ok(())
}

// What a replay of the printed script tells is the same.
#[test]
fn sums_of_a_printed_script(rt: HostRuntime) -> Result<(), Fail> {
    let alloc = rt.alloc();
    let rules = sample(alloc)?;
    let report = report_of(alloc, "gen|7|2000", rules.as_str())?;
    let sums = sums_of(alloc, report.as_str())?;
    let text = format!(in alloc; "0 {sums}|")?;
    assert_eq!(rt; text.as_str(), MANY_TRADES);
    Ok(())
}

const SEVEN: &str =
    "participants = [\"p1\", \"p2\", \"p3\", \"p4\", \"p5\", \"p6\", \"p7\"]\ngateways = [\"g1\", \"g2\", \"g3\", \"g4\"]\n";

const THREE: &str =
    "participants = [\"p1\", \"p2\", \"p3\", \"p4\", \"p5\", \"p6\", \"p7\", \"p8\"]\ngateways = [\"g1\", \"g2\", \"g3\"]\n";

// Rules that lack a name of the script, and rules that are refused before it is made.
#[test]
fn rules_without_a_name(rt: HostRuntime) -> Result<(), Fail> {
    let alloc = rt.alloc();
    let cases: [(&str, &str, &str, &str); 5] = [
        (NAMES, FIRST, "", "1 |script 3 3\n"),
        (NAMES, SECOND, "", "1 |script 2 3\n"),
        (THREE, FIRST, SECOND, "1 |script 8 4\n"),
        (SEVEN, FIRST, SECOND, "1 |script 5 5\n"),
        (NAMES, "", "", "1 |rules 2 issue\n"),
    ];
    for (names, first, second, text) in cases {
        let rules = rules_of(alloc, &[names, first, second])?;
        let refused = told_under(alloc, "replay|--gen|7|2000|rules", rules.as_str())?;
        assert_eq!(rt; refused.as_str(), text);
    }
    let absent = told_under(alloc, "replay|--gen|7|2000|absent", "")?;
    assert_eq!(rt; absent.as_str(), "3 |read\n");
    Ok(())
}
