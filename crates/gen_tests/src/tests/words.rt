// The words of the commands over scripts that are made: the numbers that they take, and words that are refused.
use super::call::{Call, NONE, answer_of, told};
use std::alloc::Global;
use std::test::Fail;

// Words that are no command, one call a line, with a bar between two words.
const REFUSED: &str = "gen
gen|7
gen|7|0
gen|7|200001
gen|7|4294967295
gen|7|4294967296
gen|7|4294967297
gen|2147483648|1
gen|4294967296|1
gen|18446744073709551616|1
gen|-1|1
gen|-0|1
gen|7|-1
gen|+7|1
gen|7|+1
gen|07|1
gen|00|1
gen|7|01
gen|7|00
gen||1
gen|7|
gen||
gen| 7|1
gen|7 |1
gen|7|1 
gen|7 1
gen|7\t|1
gen|1_0|1
gen|7|1,0
gen|0x7|1
gen|7|1e3
gen|7.0|1
gen|7|1.
gen|x|1
gen|7|x
gen|\u{667}|1
gen|7|\u{ff11}
gen|7|1|1
gen|7|1|rules
gen|rules|script
gen|--gen|7|1
--gen|7|1
Gen|7|1
GEN|7|1
gen |7|1
replay|--gen
replay|--gen|7
replay|--gen|7|2000
replay|--gen|7|rules
replay|--gen|7|2000|
replay|--gen|7|2000|-
replay|--gen|7|2000|-rules
replay|--gen|7|2000|rules|rules
replay|--gen|7|2000|rules|script
replay|--gen|7|0|rules
replay|--gen|7|200001|rules
replay|--gen|7|4294967297|rules
replay|--gen|2147483648|2000|rules
replay|--gen|4294967303|2000|rules
replay|--gen|-7|2000|rules
replay|--gen|07|2000|rules
replay|--gen|7|02000|rules
replay|--gen|+7|2000|rules
replay|--gen|x|2000|rules
replay|--gen|7|x|rules
replay|--gen||2000|rules
replay|--gen|7||rules
replay|--gen|rules|7|2000
replay|-gen|7|2000|rules
replay|gen|7|2000|rules
replay|--Gen|7|2000|rules
replay|--gen=7|2000|rules
replay|7|2000|--gen|rules
replay|rules|--gen|7|2000
replay|rules|--gen
replay|7|2000|rules
--gen|7|2000|replay|rules
Replay|--gen|7|2000|rules
check|--gen|7|2000|rules
audit|--gen|7|2000|rules
";

const USAGE: &str =
    "2 |usage: auction FILE | check RULES | replay RULES SCRIPT | replay --gen NUMBER ORDERS RULES | run RULES SCRIPT | audit RULES REPORT | gen NUMBER ORDERS\n";

#[test]
fn refused_words(rt: HostRuntime) -> Result<(), Fail> {
    for words in REFUSED.lines() {
        let told = told(rt.alloc(), Call { words, ..NONE })?;
        assert_eq!(rt; told.as_str(), USAGE, "at {words}");
    }
    Ok(())
}

// The status of these words, and how many lines they print.
fn size_of(alloc: Global, words: &str) -> Result<(u8, usize), Fail> {
    let answer = answer_of(alloc, Call { words, ..NONE })?;
    Ok((answer.status, answer.out.as_str().lines().count()))
}

// The least and the greatest numbers: a line for each order and six others.
#[test]
fn ends_of_the_numbers(rt: HostRuntime) -> Result<(), Fail> {
    for (words, lines) in [
        ("gen|0|1", 7),
        ("gen|0|200000", 200_006),
        ("gen|2147483647|1", 7),
        ("gen|2147483647|200000", 200_006),
    ] {
        assert_eq!(rt; size_of(rt.alloc(), words)?, (0, lines), "at {words}");
    }
    Ok(())
}
