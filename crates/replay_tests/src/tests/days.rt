// The days of the tables are replayed, and their reports compared.
use super::node_table::{CALLS, FAILING, LOSSES};
use super::replay::{Fails, NONE, replay};
use super::show_table::SHOWS;
use super::table::DAYS;
use mkt_io::number_word;
use std::alloc::{AllocError, Global};
use std::str::Lines;
use std::test::Fail;

// A day that is taken apart.
#[derive(Drop)]
struct Day {
    issues: usize,
    fails: Vec<(u8, u64)>,
    script: String,
    report: String,
    end: String,
}

fn no_day(alloc: Global) -> Day {
    Day {
        issues: 1,
        fails: Vec::new(alloc),
        script: String::new(alloc),
        report: String::new(alloc),
        end: String::new(alloc),
    }
}

fn push_line(text: &mut String, line: &str) -> Result<(), AllocError> {
    text.push_str(line)?;
    text.push_str("\n")
}

fn push_lines(text: &mut String, line: &str, count: u32) -> Result<(), AllocError> {
    for _ in 0..count {
        push_line(text, line)?;
    }
    Ok(())
}

fn number(word: &str) -> u32 {
    number_word(word.as_bytes()).unwrap_or(0)
}

// Adds the calls that fail, each as node and call.
fn push_fails(fails: &mut Vec<(u8, u64)>, words: &str) -> Result<(), AllocError> {
    for word in words.split(' ') {
        if let Some((node, call)) = word.split_once(":") {
            let node = u8::try_from(number(node)).unwrap_or(0);
            fails.push((node, u64::from(number(call))))?;
        }
    }
    Ok(())
}

// Adds a line of the table to a day.
fn add(day: &mut Day, line: &str) -> Result<(), AllocError> {
    if line.starts_with("#") {
        return Ok(());
    }
    let Some((mark, text)) = line.split_once(" ") else {
        return if line == ">" {
            Ok(())
        } else {
            push_line(&mut day.report, line)
        };
    };
    match mark {
        ">" => push_line(&mut day.script, text),
        ">>" => {
            day.issues = 2;
            push_line(&mut day.script, text)
        }
        ">99" => push_lines(&mut day.script, text, 99),
        "!" => push_fails(&mut day.fails, text),
        "@" => day.end.push_str(text),
        _ => push_line(&mut day.report, line),
    }
}

fn are_rejected(told: &mut Lines<'_>, count: u32) -> bool {
    for _ in 0..count {
        let Some(rejected) = told.next() else {
            return false;
        };
        if !rejected.starts_with("rejected ") {
            return false;
        }
    }
    true
}

// The line is the next one told, or, where lines may be skipped, some later one.
fn is_next(told: &mut Lines<'_>, line: &str, skips: bool) -> bool {
    if skips {
        return told.any(|next| next == line);
    }
    match line.strip_prefix("... ") {
        Some(count) => are_rejected(told, number(count)),
        None => told.next() == Some(line),
    }
}

// The report is as the table says.
fn is_told(told: &str, want: &str) -> bool {
    let mut told = told.lines();
    let mut skips = false;
    for line in want.lines() {
        if line == ".." {
            skips = true;
            continue;
        }
        if !is_next(&mut told, line, skips) {
            return false;
        }
        skips = false;
    }
    told.next().is_none()
}

// What is wrong of a day; nothing where it is as the table says.
fn wrong_of(alloc: Global, day: &Day) -> Result<String, Fail> {
    let fails = Fails {
        nodes: day.fails.as_slice(),
        ..NONE
    };
    let script = day.script.as_str();
    let answer = replay(alloc, day.issues, script.as_bytes(), fails)?;
    let (out, err, held) = (
        answer.out.as_str(),
        answer.err.as_str(),
        answer.held.as_str(),
    );
    let end = format!(in alloc; "{}{held}", answer.status)?;
    let is_end = if day.end.is_empty() {
        answer.status == 0
    } else {
        end.as_str() == day.end.as_str()
    };
    if is_end && err.is_empty() && is_told(out, day.report.as_str()) {
        return Ok(String::new(alloc));
    }
    Ok(format!(in alloc; "{script}{out}{err}{end}")?)
}

// The first day that is wrong; nothing where all are as the table says.
fn first_wrong(alloc: Global, table: &str) -> Result<String, Fail> {
    let mut day = no_day(alloc);
    for line in table.lines() {
        if !line.is_empty() {
            add(&mut day, line)?;
            continue;
        }
        let wrong = wrong_of(alloc, &day)?;
        if !wrong.is_empty() {
            return Ok(wrong);
        }
        day = no_day(alloc);
    }
    Ok(String::new(alloc))
}

#[test]
fn days(rt: HostRuntime) -> Result<(), Fail> {
    let wrong = first_wrong(rt.alloc(), DAYS)?;
    assert_eq!(rt; wrong.as_str(), "");
    Ok(())
}

#[test]
fn losses_and_rejoins(rt: HostRuntime) -> Result<(), Fail> {
    let wrong = first_wrong(rt.alloc(), LOSSES)?;
    assert_eq!(rt; wrong.as_str(), "");
    Ok(())
}

#[test]
fn failing_nodes(rt: HostRuntime) -> Result<(), Fail> {
    let wrong = first_wrong(rt.alloc(), FAILING)?;
    assert_eq!(rt; wrong.as_str(), "");
    Ok(())
}

// Each node fails at each entry once: a loss is recorded right behind it.
#[test]
fn one_failing_call(rt: HostRuntime) -> Result<(), Fail> {
    let alloc = rt.alloc();
    let ends = [
        ("lost synchronised synchronised", "0 5 5"),
        ("synchronised lost synchronised", "5 0 5"),
        ("synchronised synchronised lost", "5 5 0"),
    ];
    for (k, (nodes, held)) in ends.iter().enumerate() {
        for n in 0..4 {
            let place = n + 1;
            let table = format!(in alloc;
                "! {k}:{n}\n{CALLS}..\n{place} - 0 crash {k}\n= out {k}\n..\nnodes {nodes}\ntotal AAAA entries 5 trades 2 shares 200 last 20400\nend\n@ 0 {held}\n\n"
            )?;
            let wrong = first_wrong(alloc, table.as_str())?;
            assert_eq!(rt; wrong.as_str(), "");
        }
    }
    Ok(())
}

#[test]
fn reads_of_boards(rt: HostRuntime) -> Result<(), Fail> {
    let wrong = first_wrong(rt.alloc(), SHOWS)?;
    assert_eq!(rt; wrong.as_str(), "");
    Ok(())
}

// What is printed of so many reads of the board: how many lines, and the last but one.
fn many_shows(alloc: Global, count: u32) -> Result<(usize, String), Fail> {
    let mut script = String::new(alloc);
    push_lines(&mut script, "g1 AAAA show", count)?;
    let answer = replay(alloc, 1, script.as_bytes(), NONE)?;
    let mut last = String::new(alloc);
    let lines = answer.out.as_str().lines().count();
    if let Some(line) = answer.out.as_str().lines().nth(lines.saturating_sub(2)) {
        last.push_str(line)?;
    }
    Ok((lines, last))
}

#[test]
fn many_reads_of_boards(rt: HostRuntime) -> Result<(), Fail> {
    let (lines, last) = many_shows(rt.alloc(), 500_000)?;
    assert_eq!(rt; lines, 500_005);
    assert_eq!(rt; last.as_str(), "show 500000 g1 AAAA 0 idle 20000 - - -");
    Ok(())
}
