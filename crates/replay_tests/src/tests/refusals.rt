// What the command refuses, and in which order; faults of the shelf and of the sinks.
use super::replay::{Fails, NONE, answer_of, replay, rules_of};
use std::alloc::Global;
use std::test::Fail;

// Scripts that are refused, one a line, with the line of the fault behind two bars; `^` stands for a line end.
const REFUSED: &str = "
g1 AAAA cancel p1 0^ || script 1 6
g9 AAAA clock 08:00:00^ || script 1 4
g1 ZZZZ clock 08:00:00^ || script 1 3
g1 AAAA sell p1 buy 100 100^ || script 1 1
g1 * order p1 buy 100 100^ || script 1 3
g1 * cancel p1 0^ || script 1 3
g1 AAAA order p9 buy 100 100^ || script 1 5
g1 AAAA order p1 buy 100^ || script 1 1
g1 AAAA order p1 buy 100 100 100^ || script 1 1
g1 AAAA order p1 buy 100 -1^ || script 1 2
g1 AAAA clock 24:00:00^ || script 1 2
g1 AAAA clock 08:00:00^g1 AAAA change p1 0 market 100^ || script 2 6
g1 AAAA order p1 buy 100 100^g2 AAAA change p1 0 market 100^ || script 2 6
g1 AAAA order p1 buy 100 100^g1 AAAA change p1 0 x 100^ || script 2 2
g1 AAAA order p1 buy 100 100^g1 AAAA change p1 1 x 100^ || script 2 6
g1 AAAA order p1 buy 100 100^g1 AAAA cancel p1 x^ || script 2 2
#^^g1 AAAA clock 08:00:00^x || script 4 4
";

#[test]
fn refused_scripts(rt: HostRuntime) -> Result<(), Fail> {
    let alloc = rt.alloc();
    for line in REFUSED.lines() {
        let Some((script, fault)) = line.split_once(" || ") else {
            continue;
        };
        let script = script.replace(alloc, "^", "\n")?;
        let answer = replay(alloc, 1, script.as_bytes(), NONE)?;
        let told = format!(in alloc; "{fault}\n")?;
        assert_eq!(rt; answer.err.as_str(), told.as_str(), "at {line}");
        assert_eq!(rt; answer.out.as_str(), "", "at {line}");
        assert_eq!(rt; answer.status, 1, "at {line}");
    }
    Ok(())
}

const EMPTY: &str =
    "market 1\nissue AAAA base 20000 unit 100 low 15000 high 25000 prices 1001\nnodes synchronised synchronised synchronised\ntotal AAAA entries 0 trades 0 shares 0 last 20000\nend\n";

// What is printed of a good call, and of calls with a fault.
fn faults(alloc: Global, words: &[&str], fails: Fails) -> Result<(u8, String, String), Fail> {
    let rules = rules_of(alloc, 1)?;
    let answer = answer_of(alloc, words, rules.as_bytes(), b"", fails)?;
    Ok((answer.status, answer.out, answer.err))
}

#[test]
fn faults_of_the_shelf_and_the_sinks(rt: HostRuntime) -> Result<(), Fail> {
    let alloc = rt.alloc();
    let good: &[&str] = &["replay", "rules", "script"];
    let read = Fails {
        shelf: &[0],
        ..NONE
    };
    let out = Fails { out: &[0], ..NONE };
    let err = Fails { err: &[0], ..NONE };
    let cases: [(&[&str], Fails, u8, &str, &str); 6] = [
        (good, NONE, 0, EMPTY, ""),
        (good, read, 3, "", "read\n"),
        (good, out, 4, "", ""),
        (&["replay", "rules", "absent"], NONE, 3, "", "read\n"),
        (&["replay", "absent", "script"], NONE, 3, "", "read\n"),
        (&["replay", "absent", "script"], err, 4, "", ""),
    ];
    for (words, fails, status, out, err) in cases {
        let (answered, printed, told) = faults(alloc, words, fails)?;
        assert_eq!(rt; answered, status);
        assert_eq!(rt; printed.as_str(), out);
        assert_eq!(rt; told.as_str(), err);
    }
    Ok(())
}

// The rules are refused before the script is looked at, and words before both; a last line may lack its end.
#[test]
fn order_of_refusals(rt: HostRuntime) -> Result<(), Fail> {
    let alloc = rt.alloc();
    let words: &[&str] = &["replay", "rules", "script"];
    let answer = answer_of(alloc, words, b"", b"x\n", NONE)?;
    assert_eq!(rt; answer.err.as_str(), "rules 2 special_ms\n");
    assert_eq!(rt; answer.status, 1);
    let refused: [&[&str]; 5] = [
        &["replay"],
        &["replay", "rules"],
        &["replay", "rules", "-"],
        &["replay", "", "script"],
        &["replay", "rules", "script", "script"],
    ];
    for words in refused {
        let answer = answer_of(alloc, words, b"", b"x\n", NONE)?;
        assert_eq!(rt; answer.status, 2);
        assert_eq!(rt; answer.out.as_str(), "");
    }
    let answer = replay(alloc, 1, b"g1 AAAA clock 00:00:00", NONE)?;
    assert_eq!(rt; answer.status, 0);
    Ok(())
}
