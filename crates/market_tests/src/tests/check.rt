// The command `check` over rules files in memory: what it prints of good ones, and the first fault of others.
use super::program::{Answer, Fails, NONE, USAGE, answer_of};
use std::alloc::{AllocError, Global};
use std::sync::Wait;
use std::test::Fail;
use std::thread::Threads;

const SAMPLE: &str =
    "special_ms = 180000\nsequential_ms = 60000\nticks = [[30000, 10], [1000000000, 50]]\nlimits = [[15000, 3000], [20000, 4000], [30000, 5000], [1000000001, 7000]]\nranges = [[15000, 300], [20000, 400], [30000, 500], [1000000001, 700]]\nsessions = [[\"08:00:00\", \"09:00:00\", \"11:30:00\"], [\"12:05:00\", \"12:30:00\", \"15:00:00\"]]\nrounds = [\"1u\", \"1/3\", \"1/2\", \"all\"]\nparticipants = [\"p1\", \"p2\", \"p3\", \"p4\", \"p5\", \"p6\", \"p7\", \"p8\"]\ngateways = [\"g1\", \"g2\", \"g3\", \"g4\"]\n\n[[issue]]\ncode = \"AAAA\"\nbase = 20000\nunit = 100\n\n[[issue]]\ncode = \"BBBB\"\nbase = 12000\nunit = 100\n";

// The sample without its issues.
const HEAD: &str =
    "special_ms = 180000\nsequential_ms = 60000\nticks = [[30000, 10], [1000000000, 50]]\nlimits = [[15000, 3000], [20000, 4000], [30000, 5000], [1000000001, 7000]]\nranges = [[15000, 300], [20000, 400], [30000, 500], [1000000001, 700]]\nsessions = [[\"08:00:00\", \"09:00:00\", \"11:30:00\"], [\"12:05:00\", \"12:30:00\", \"15:00:00\"]]\nrounds = [\"1u\", \"1/3\", \"1/2\", \"all\"]\nparticipants = [\"p1\", \"p2\", \"p3\", \"p4\", \"p5\", \"p6\", \"p7\", \"p8\"]\ngateways = [\"g1\", \"g2\", \"g3\", \"g4\"]\n\n";

// The sample with its keys in another order, and one that means nothing.
const OTHER_ORDER: &str =
    "gateways = [\"g1\", \"g2\", \"g3\", \"g4\"]\nparticipants = [\"p1\", \"p2\", \"p3\", \"p4\", \"p5\", \"p6\", \"p7\", \"p8\"]\nrounds = [\"1u\", \"1/3\", \"1/2\", \"all\"]\nsessions = [[\"08:00:00\", \"09:00:00\", \"11:30:00\"], [\"12:05:00\", \"12:30:00\", \"15:00:00\"]]\nranges = [[15000, 300], [20000, 400], [30000, 500], [1000000001, 700]]\nlimits = [[15000, 3000], [20000, 4000], [30000, 5000], [1000000001, 7000]]\nticks = [[30000, 10], [1000000000, 50]]\nsequential_ms = 60000\nspecial_ms = 180000\nunknown_key = [1.5, true]\n\n[[issue]]\nunit = 100\nbase = 20000\ncode = \"AAAA\"\n\n[[issue]]\nbase = 12000\ncode = \"BBBB\"\nunit = 100\n";

const TABLES: &str =
    "session 08:00:00.000 09:00:00.000 11:30:00.000\nsession 12:05:00.000 12:30:00.000 15:00:00.000\nround units 1\nround part 1 3\nround part 1 2\nround all\nend\n";

const ISSUES: &str =
    "issue AAAA base 20000 unit 100 low 15000 high 25000 prices 1001\nissue BBBB base 12000 unit 100 low 9000 high 15000 prices 601\n";

fn check<T: Threads + Wait + Sync>(rt: &T, alloc: Global, file: &[u8]) -> Result<Answer, Fail> {
    answer_of(rt, alloc, &["check", "a"], file, NONE)
}

fn joined(alloc: Global, parts: &[&str]) -> Result<String, AllocError> {
    let mut text = String::new(alloc);
    for part in parts {
        text.push_str(part)?;
    }
    Ok(text)
}

// A part, so many times.
fn repeated(alloc: Global, part: &str, times: u32) -> Result<String, AllocError> {
    let mut text = String::new(alloc);
    for _ in 0..times {
        text.push_str(part)?;
    }
    Ok(text)
}

// Changes of the sample, a line each: what is changed, to what, perhaps a second change, and what the first fault of the file
// is told by. In a line `^` stands for a line end and `'` for a quotation mark.
const CASES: &str = "
# no document
special_ms = 180000 | special_ms 180000 | 1
code = 'AAAA' | code = 'AAAA'^code = 'CCCC' | 1
180000 | 9223372036854775808 | 1

# integers
special_ms = 180000^ |  | 2 special_ms
special_ms = 180000 | special_ms = [] | 2 special_ms
= 180000 | = '180000' | 3 special_ms
= 180000 | = 180000.0 | 3 special_ms
= 180000 | = true | 3 special_ms
= 180000 | = [180000] | 3 special_ms
= 180000 | = 0 | 3 special_ms
= 180000 | = -1 | 3 special_ms
= 180000 | = 86400000 | 3 special_ms
= 180000 | = 9223372036854775807 | 3 special_ms
sequential_ms = 60000^ |  | 2 sequential_ms
= 60000 | = [] | 2 sequential_ms
= 60000 | = 08:00:00 | 3 sequential_ms
= 60000 | = 86400000 | 3 sequential_ms

# ticks
ticks = [[30000, 10], [1000000000, 50]]^ |  | 2 ticks
ticks = [[30000, 10], [1000000000, 50]] | ticks = [] | 2 ticks
ticks = [[30000, 10], [1000000000, 50]] | ticks = 10 | 3 ticks
ticks = [[30000, 10], [1000000000, 50]] | ticks = [10] | 3 ticks
[1000000000, 50] | [1000000000] | 3 ticks
[1000000000, 50] | [1000000000, 50, 1] | 3 ticks
[30000, 10] | [0, 10] | 3 ticks
[1000000000, 50] | [1000000001, 50] | 3 ticks
[30000, 10] | [30000, 0] | 3 ticks
[1000000000, 50] | [1000000000, 1000001] | 3 ticks
[30000, 10] | ['30000', 10] | 3 ticks
[30000, 10] | [30005, 10] | 4 ticks 1
[30000, 10] | [30010, 10] | 4 ticks 1
[1000000000, 50] | [1000000000, 70] | 4 ticks 1
[30000, 10] | [30000, 10], [30000, 10] | 4 ticks 2
[1000000000, 50] | [20000, 50] | 4 ticks 2
[1000000000, 50] | [999999950, 50] | 4 ticks 2

# limits and ranges
limits = [[15000, 3000], [20000, 4000], [30000, 5000], [1000000001, 7000]]^ |  | 2 limits
limits = [[15000, 3000], [20000, 4000], [30000, 5000], [1000000001, 7000]] | limits = [] | 2 limits
limits = [[15000, 3000], [20000, 4000], [30000, 5000], [1000000001, 7000]] | limits = 'x' | 3 limits
[15000, 3000] | [0, 3000] | 3 limits
[1000000001, 7000] | [1000000002, 7000] | 3 limits
[15000, 3000] | [15000, 0] | 3 limits
[15000, 3000] | [15000, 1000000001] | 3 limits
[15000, 3000] | [15000, 3000, 1] | 3 limits
[20000, 4000] | [15000, 4000] | 4 limits 2
[20000, 4000] | [1000000001, 4000] | 4 limits 3
[1000000001, 7000] | [1000000000, 7000] | 4 limits 4
ranges = [[15000, 300], [20000, 400], [30000, 500], [1000000001, 700]]^ |  | 2 ranges
ranges = [[15000, 300], [20000, 400], [30000, 500], [1000000001, 700]] | ranges = [] | 2 ranges
[15000, 300] | [15000, 0] | 3 ranges
[15000, 300] | [15000] | 3 ranges
[15000, 300] | [15000, 300], [14999, 1] | 4 ranges 2
[1000000001, 700] | [1000000000, 700] | 4 ranges 4

# sessions
sessions = [['08:00:00', '09:00:00', '11:30:00'], ['12:05:00', '12:30:00', '15:00:00']]^ |  | 2 sessions
sessions = [['08:00:00', '09:00:00', '11:30:00'], ['12:05:00', '12:30:00', '15:00:00']] | sessions = [] | 2 sessions
sessions = [['08:00:00', '09:00:00', '11:30:00'], ['12:05:00', '12:30:00', '15:00:00']] | sessions = '08:00:00' | 3 sessions
sessions = [['08:00:00', '09:00:00', '11:30:00'], ['12:05:00', '12:30:00', '15:00:00']] | sessions = ['08:00:00'] | 3 sessions
'08:00:00', '09:00:00' | '09:00:00' | 3 sessions
'11:30:00' | '11:30:00', '11:40:00' | 3 sessions
'08:00:00' | 08:00:00 | 3 sessions
'08:00:00' | '8:00:00' | 3 sessions
'08:00:00' | '08:00' | 3 sessions
'15:00:00' | '24:00:00' | 3 sessions
'08:00:00' | '07:60:00' | 3 sessions
'08:00:00' | '07:59:60' | 3 sessions
'08:00:00' | '08:00:00.00' | 3 sessions
'08:00:00' | '08:00:00,000' | 3 sessions
'08:00:00' | '00:00:00' | 7 1
'09:00:00' | '08:00:00' | 7 1
'11:30:00' | '09:00:00.000' | 7 1
'12:05:00' | '11:30:00' | 7 2

# rounds
rounds = ['1u', '1/3', '1/2', 'all']^ |  | 2 rounds
rounds = ['1u', '1/3', '1/2', 'all'] | rounds = [] | 2 rounds
rounds = ['1u', '1/3', '1/2', 'all'] | rounds = 'all' | 3 rounds
rounds = ['1u', '1/3', '1/2', 'all'] | rounds = [1, 'all'] | 3 rounds
'1u' | '0u' | 3 rounds
'1u' | '01u' | 3 rounds
'1u' | '+1u' | 3 rounds
'1u' | '1000001u' | 3 rounds
'1u' | 'u' | 3 rounds
'1u' | '1U' | 3 rounds
'1u' | '1' | 3 rounds
'1u' | '' | 3 rounds
'1/3' | '0/3' | 3 rounds
'1/3' | '3/2' | 3 rounds
'1/3' | '1/1001' | 3 rounds
'1/3' | '1/03' | 3 rounds
'1/3' | '1/3/3' | 3 rounds
'1/3' | '1 /3' | 3 rounds
'all' | 'All' | 3 rounds
rounds = ['1u', '1/3', '1/2', 'all'] | rounds = ['all', '1u'] | 8 1
rounds = ['1u', '1/3', '1/2', 'all'] | rounds = ['1u'] | 8 1
'1/2', 'all' | 'all', 'all' | 8 3
'all' | '1/1' | 8 4

# names
participants = ['p1', 'p2', 'p3', 'p4', 'p5', 'p6', 'p7', 'p8']^ |  | 2 participants
participants = ['p1', 'p2', 'p3', 'p4', 'p5', 'p6', 'p7', 'p8'] | participants = [] | 2 participants
participants = ['p1', 'p2', 'p3', 'p4', 'p5', 'p6', 'p7', 'p8'] | participants = 'p1' | 3 participants
'p8' | 8 | 3 participants
'p8' | '' | 3 participants
'p8' | 'p23456789' | 3 participants
'p8' | 'p-8' | 3 participants
'p8' | 'p\u{e4}' | 3 participants
'p8' | 'p1' | 10 p1
'p7', 'p8' | 'p2', 'p1' | 10 p2
gateways = ['g1', 'g2', 'g3', 'g4']^ |  | 2 gateways
gateways = ['g1', 'g2', 'g3', 'g4'] | gateways = [] | 2 gateways
'g4' | ' g4' | 3 gateways
'g4' | 'g3' | 10 g3

# issues
[[issue]] | [[issues]] | 2 issue
code = 'AAAA'^ |  | 2 issue.code
'AAAA' | [] | 2 issue.code
'AAAA' | 7 | 3 issue.code
'AAAA' | 'A A' | 3 issue.code
base = 20000^ |  | 2 issue.base
base = 20000 | base = [] | 2 issue.base
base = 20000 | base = 0 | 3 issue.base
base = 20000 | base = 1000000001 | 3 issue.base
base = 20000 | base = '20000' | 3 issue.base
base = 12000^unit = 100^ | base = 12000^ | 2 issue.unit
base = 12000^unit = 100 | base = 12000^unit = [] | 2 issue.unit
base = 12000^unit = 100 | base = 12000^unit = 0 | 3 issue.unit
base = 12000^unit = 100 | base = 12000^unit = 100000001 | 3 issue.unit
'BBBB' | 'AAAA' | 10 AAAA
base = 20000 | base = 20005 | 5 AAAA
base = 12000 | base = 30010 | 5 BBBB

# two changes, of which one has the first fault or needs the other
special_ms = 180000 | special_ms = 0 | = 60000 | = 0 | 3 special_ms
[30000, 10] | [30005, 10] | [1000000000, 50] | [1000000000, '50'] | 3 ticks
sessions = [['08:00:00', '09:00:00', '11:30:00'], ['12:05:00', '12:30:00', '15:00:00']]^ |  | rounds = ['1u', '1/3', '1/2', 'all'] | rounds = [] | 2 sessions
12:05:00 | 11:00:00 | '1u' | '0u' | 7 2
'p8' | 'p1' | 'g4' | 'g1' | 10 p1
'p2' | 'p1' | 'p8' | 'p 8' | 3 participants
'g4' | 'g1' | 20000^ | 20005^ | 10 g1
base = 20000 | base = 20005 | unit = 100^^ | unit = 0^^ | 3 issue.unit
'BBBB' | 'AAAA' | base = 12000 | base = 30010 | 10 AAAA
base = 20000 | base = 20005 | code = 'BBBB' | code = 7 | 5 AAAA
7000] | 2000000] | base = 20000 | base = 2000000 | 6 AAAA 82400
7000] | 1000000000] | base = 20000 | base = 500000000 | 6 AAAA 20002400
[30000, 10], [1000000000, 50] | [1000000000, 1] | [15000, 3000], [20000, 4000], [30000, 5000], [1000000001, 7000] | [1000000001, 1000000000] | 6 AAAA 1000000000
7000] | 1000000000] | base = 12000 | base = 1000000000 | 6 BBBB 20002400
";

// The sample with the changes of a line, and what the line ends with.
fn changed(alloc: Global, line: &str) -> Result<(String, String), Fail> {
    let plain = line.replace(alloc, "^", "\n")?;
    let quoted = plain.replace(alloc, "'", "\"")?;
    let mut file = String::from_str(alloc, SAMPLE)?;
    let mut rest = quoted.as_str();
    for _ in 0..2 {
        let Some((from, behind)) = rest.split_once(" | ") else {
            break;
        };
        let Some((to, after)) = behind.split_once(" | ") else {
            return Err("a line with no end")?;
        };
        file = file.as_str().replace(alloc, from, to)?;
        rest = after;
    }
    Ok((file, String::from_str(alloc, rest)?))
}

// What the program answers for the file of a line, and the line of the fault that it is to tell.
fn answer_of_line<T: Threads + Wait + Sync>(
    rt: &T,
    alloc: Global,
    line: &str,
) -> Result<(Answer, String), Fail> {
    let (file, want) = changed(alloc, line)?;
    let told = joined(alloc, &["rules ", want.as_str(), "\n"])?;
    Ok((check(rt, alloc, file.as_bytes())?, told))
}

#[test]
fn faults(rt: HostRuntime) -> Result<(), Fail> {
    for line in CASES.lines() {
        if line.is_empty() || line.starts_with("#") {
            continue;
        }
        let (answer, told) = answer_of_line(&rt, rt.alloc(), line)?;
        assert_eq!(rt; answer.err.as_str(), told.as_str(), "at {line}");
        assert_eq!(rt; answer.out.as_str(), "", "at {line}");
        assert_eq!(rt; answer.status, 1, "at {line}");
    }
    Ok(())
}

// What stands where the issues stand.
#[test]
fn faults_of_the_issues(rt: HostRuntime) -> Result<(), Fail> {
    let cases: [(&str, &str); 6] = [
        ("", "rules 2 issue\n"),
        ("issue = []\n", "rules 2 issue\n"),
        ("issue = 7\n", "rules 3 issue\n"),
        ("issue = [7]\n", "rules 3 issue\n"),
        ("[issue]\ncode = \"A\"\n", "rules 3 issue\n"),
        // A row that is no table comes before any fault of an issue.
        ("issue = [{code = \"A\", base = 0}, 7]\n", "rules 3 issue\n"),
    ];
    for (issues, want) in cases {
        let file = joined(rt.alloc(), &[HEAD, issues])?;
        let answer = check(&rt, rt.alloc(), file.as_bytes())?;
        assert_eq!(rt; answer.err.as_str(), want);
        assert_eq!(rt; answer.status, 1);
    }
    Ok(())
}

// The answer for a list with so many rows more at its front, each of them wrong, which is told later than their number.
fn answer_of_rows<T: Threads + Wait + Sync>(
    rt: &T,
    alloc: Global,
    key: &str,
    times: u32,
) -> Result<Answer, Fail> {
    let rows = repeated(alloc, "7, ", times)?;
    let more = joined(alloc, &[key, rows.as_str()])?;
    let file = SAMPLE.replace(alloc, key, more.as_str())?;
    check(rt, alloc, file.as_bytes())
}

#[test]
fn limits_of_the_lists(rt: HostRuntime) -> Result<(), Fail> {
    let cases: [(&str, u32, &str); 9] = [
        ("ticks = [", 31, "rules 9 ticks 33\n"),
        ("ticks = [", 30, "rules 3 ticks\n"),
        ("limits = [", 61, "rules 9 limits 65\n"),
        ("ranges = [", 61, "rules 9 ranges 65\n"),
        ("sessions = [", 3, "rules 9 sessions 5\n"),
        ("rounds = [", 13, "rules 9 rounds 17\n"),
        ("participants = [", 57, "rules 9 participants 65\n"),
        ("participants = [", 56, "rules 3 participants\n"),
        ("gateways = [", 13, "rules 9 gateways 17\n"),
    ];
    for (key, times, want) in cases {
        let answer = answer_of_rows(&rt, rt.alloc(), key, times)?;
        assert_eq!(rt; answer.err.as_str(), want);
        assert_eq!(rt; answer.status, 1);
    }
    Ok(())
}

// Good files: what is printed of each.
#[test]
fn good_files(rt: HostRuntime) -> Result<(), Fail> {
    let alloc = rt.alloc();
    let sample = joined(alloc, &[ISSUES, TABLES])?;
    let crlf = SAMPLE.replace(alloc, "\n", "\r\n")?;
    let unknown = SAMPLE.replace(alloc, "unit = 100", "unit = 100\nname = \"a\"")?;
    let last_first = joined(alloc, &[OTHER_ORDER, "\n[unknown]\nticks = 1\n"])?;
    let one = joined(
        alloc,
        &[HEAD, "issue = [{code = \"A\", base = 10, unit = 1}]"],
    )?;
    let of_one = joined(
        alloc,
        &[
            "issue A base 10 unit 1 low 10 high 3010 prices 301\n",
            TABLES,
        ],
    )?;
    let cases: [(&str, &str); 5] = [
        (SAMPLE, sample.as_str()),
        (crlf.as_str(), sample.as_str()),
        (unknown.as_str(), sample.as_str()),
        (last_first.as_str(), sample.as_str()),
        (one.as_str(), of_one.as_str()),
    ];
    for (file, want) in cases {
        let answer = check(&rt, alloc, file.as_bytes())?;
        assert_eq!(rt; answer.out.as_str(), want);
        assert_eq!(rt; answer.err.as_str(), "");
        assert_eq!(rt; answer.status, 0);
    }
    Ok(())
}

// The largest file: 64 issues, and a comment that fills it up to the last byte that it may have; and one byte more, and one
// issue more.
#[test]
fn largest_file(rt: HostRuntime) -> Result<(), Fail> {
    let alloc = rt.alloc();
    let mut file = String::from_str(alloc, HEAD)?;
    let mut want = String::new(alloc);
    for i in 0..64_u32 {
        let code = format!(in alloc; "I{i}")?;
        let issue = format!(in alloc; "[[issue]]\ncode = \"{code}\"\nbase = 20000\nunit = 1\n")?;
        file.push_str(issue.as_str())?;
        let line = format!(in alloc;
            "issue {code} base 20000 unit 1 low 15000 high 25000 prices 1001\n"
        )?;
        want.push_str(line.as_str())?;
    }
    want.push_str(TABLES)?;
    let more = joined(alloc, &[file.as_str(), "[[issue]]\n"])?;
    let answer = check(&rt, alloc, more.as_bytes())?;
    assert_eq!(rt; answer.err.as_str(), "rules 9 issue 65\n");
    file.push_str("#")?;
    let room = 1_048_576_usize.saturating_sub(file.len());
    let filled = joined(
        alloc,
        &[file.as_str(), repeated(alloc, "x", room as u32)?.as_str()],
    )?;
    let answer = check(&rt, alloc, filled.as_bytes())?;
    assert_eq!(rt; answer.out.as_str(), want.as_str());
    assert_eq!(rt; answer.status, 0);
    let over = joined(alloc, &[filled.as_str(), "x"])?;
    let answer = check(&rt, alloc, over.as_bytes())?;
    assert_eq!(rt; answer.err.as_str(), "rules 9 bytes 1048577\n");
    assert_eq!(rt; answer.status, 1);
    let answer = check(&rt, alloc, b"special_ms = \"\xff\"\n")?;
    assert_eq!(rt; answer.err.as_str(), "rules 1\n");
    Ok(())
}

// The words, the shelf and the sinks.
#[test]
fn words_and_faults(rt: HostRuntime) -> Result<(), Fail> {
    let shelf = Fails {
        shelf: &[1],
        ..NONE
    };
    let out = Fails { out: &[0], ..NONE };
    let err = Fails { err: &[0], ..NONE };
    let sample = SAMPLE.as_bytes();
    let cases: [(&[&str], &[u8], Fails, u8, &str); 9] = [
        (&["check"], sample, NONE, 2, USAGE),
        (&["check", ""], sample, NONE, 2, USAGE),
        (&["check", "-a"], sample, NONE, 2, USAGE),
        (&["check", "a", "a"], sample, NONE, 2, USAGE),
        (&["check", "b"], sample, NONE, 3, "read\n"),
        (&["check", "a"], sample, shelf, 3, "read\n"),
        (&["check", "a"], sample, out, 4, ""),
        (&["check", "a"], b"", err, 4, ""),
        (&["check", "a"], b"", NONE, 1, "rules 2 special_ms\n"),
    ];
    for (words, file, fails, status, want) in cases {
        let answer = answer_of(&rt, rt.alloc(), words, file, fails)?;
        assert_eq!(rt; answer.status, status);
        assert_eq!(rt; answer.out.as_str(), "");
        assert_eq!(rt; answer.err.as_str(), want);
    }
    Ok(())
}
