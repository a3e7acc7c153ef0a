// What stands in reports and in scripts.
use mkt_io::number_word;
use std::alloc::{AllocError, Global};
use std::test::Fail;

/// The line of an issue whose nodes all have the whole journal.
pub(super) const SYNCHRONISED: &str = "nodes synchronised synchronised synchronised";

/// How many lines of a text are this one.
pub(super) fn count_of(text: &str, wanted: &str) -> usize {
    text.lines().filter(|line| *line == wanted).count()
}

/// The lines of a report that stand between the first line of an issue and the one with its sums.
pub(super) fn part_of<'a>(alloc: Global, report: &'a str, code: &'a str) -> Result<&'a str, Fail> {
    let first = format!(in alloc; "\nissue {code} ")?;
    let sums = format!(in alloc; "\ntotal {code} ")?;
    let (_before, rest) = report.split_once(first.as_str()).ok_or("no issue")?;
    let (part, _behind) = rest.split_once(sums.as_str()).ok_or("no sums")?;
    Ok(part)
}

/// The line of a report with the sums of an issue.
pub(super) fn sums_of<'a>(alloc: Global, report: &'a str, code: &'a str) -> Result<&'a str, Fail> {
    let first = format!(in alloc; "total {code} ")?;
    for line in report.lines() {
        if line.starts_with(first.as_str()) {
            return Ok(line);
        }
    }
    Err("no sums")?
}

/// How many entries an issue has, by the line with its sums.
pub(super) fn entries_in<'a>(alloc: Global, report: &'a str, code: &'a str) -> Result<u32, Fail> {
    let sums = sums_of(alloc, report, code)?;
    let (_before, rest) = sums.split_once(" entries ").ok_or("no entries")?;
    let (word, _behind) = rest.split_once(" ").ok_or("no trades")?;
    Ok(number_word(word.as_bytes()).ok_or("no number")?)
}

/// An entry's gateway, own number and event, where a line of a report is one.
pub(super) fn entry_of(line: &str) -> Option<(&str, &str)> {
    if !matches!(line.as_bytes(), [b'0'..=b'9', ..]) {
        return None;
    }
    let (_place, rest) = line.split_once(" ")?;
    rest.split_once(" ")
}

/// The events of a gateway in an issue by a report, each behind its own number, a line each.
pub(super) fn events_by<'a>(
    alloc: Global,
    report: &'a str,
    code: &'a str,
    gateway: &'a str,
) -> Result<String, Fail> {
    let mut events = String::new(alloc);
    for line in part_of(alloc, report, code)?.lines() {
        if let Some((by, event)) = entry_of(line)
            && by == gateway
        {
            events.push_str(event)?;
            events.push_str("\n")?;
        }
    }
    Ok(events)
}

/// The gateway of a line of a script and what it does, where it is a line of this issue.
pub(super) fn line_of<'a>(line: &'a str, code: &'a str) -> Option<(&'a str, &'a str)> {
    let (by, rest) = line.split_once(" ")?;
    let (of, does) = rest.split_once(" ")?;
    if of == code || of == "*" {
        Some((by, does))
    } else {
        None
    }
}

/// The events of a gateway in an issue by a script, each behind its own number, a line each.
pub(super) fn events_asked<'a>(
    alloc: Global,
    script: &'a str,
    code: &'a str,
    gateway: &'a str,
) -> Result<String, AllocError> {
    let mut events = String::new(alloc);
    let mut own = 0u32;
    for line in script.lines() {
        if let Some((by, does)) = line_of(line, code)
            && by == gateway
            && does != "show"
        {
            let event = format!(in alloc; "{own} {does}\n")?;
            events.push_str(event.as_str())?;
            own = own.wrapping_add(1);
        }
    }
    Ok(events)
}

/// Which gateways have other events in an issue, by a report, than a script asks for; nothing where all have theirs, each once and in order.
pub(super) fn wrong_gateways<'a>(
    alloc: Global,
    script: &'a str,
    report: &'a str,
    code: &'a str,
    gateways: u32,
) -> Result<String, Fail> {
    let mut wrong = String::new(alloc);
    for n in 0..gateways {
        let gateway = format!(in alloc; "g{}", n.wrapping_add(1))?;
        let gateway = gateway.as_str();
        let asked = events_asked(alloc, script, code, gateway)?;
        let entered = events_by(alloc, report, code, gateway)?;
        if asked.as_str() != entered.as_str() {
            let text = format!(in alloc; "{code} {gateway}\n{asked}in place of\n{entered}")?;
            wrong.push_str(text.as_str())?;
        }
    }
    Ok(wrong)
}
