// Sinks that fail, and what they hold then. The scripts have one gateway in each stage, so their reports are known.
use super::call::{Call, RUN, answer_and_nodes, plain_answer};
use std::alloc::{AllocError, Global};
use std::sync::Wait;
use std::test::Fail;
use std::thread::Threads;

// A script whose report is several times as long as what is written at once: so many orders of one gateway after another.
fn long_script(alloc: Global) -> Result<String, AllocError> {
    let mut script = String::from_str(alloc, "g1 * clock 08:00:00\n")?;
    for n in 1..5 {
        script.push_str("barrier\n")?;
        for price in 0..60u32 {
            let price = price.wrapping_add(199);
            let line = format!(in alloc; "g{n} * show\ng{n} AAAA order p{n} buy {price}00 100\n")?;
            script.push_str(line.as_str())?;
        }
    }
    script.push_str("barrier\ng1 * clock 09:00:00\n")?;
    Ok(script)
}

// What a run with a fault of a sink tells of itself.
#[derive(Drop)]
struct Told {
    status: u8,
    // How many bytes of the report were written; none where they are no front part of it.
    written: Option<usize>,
    err: String,
    held: String,
}

fn told_of_run<'a, T: Threads + Wait + Sync>(
    rt: &T,
    alloc: Global,
    call: Call<'a>,
    report: &'a str,
) -> Result<Told, Fail> {
    let (answer, held) = answer_and_nodes(rt, alloc, call)?;
    let out = answer.out.as_str();
    let written = report.starts_with(out).then_some(out.len());
    Ok(Told {
        status: answer.status,
        written,
        err: answer.err,
        held,
    })
}

// How many calls of standard output a run makes: the first that it does without when it fails. At each call before it a front part of the
// report was written by then, and more of it from call to call.
fn calls_to_write<'a, T: Threads + Wait + Sync>(
    rt: &T,
    alloc: Global,
    call: Call<'a>,
    report: &'a str,
) -> Result<u64, Fail> {
    let mut last = None;
    for n in 0..100u64 {
        let out: &[u64] = &[n];
        let told = told_of_run(rt, alloc, Call { out, ..call }, report)?;
        if told.status == 0 && told.written == Some(report.len()) {
            return Ok(n);
        }
        let is_more = match (last, told.written) {
            (None, Some(0)) => true,
            (Some(last), Some(written)) => last < written && written < report.len(),
            _ => false,
        };
        if told.status != 4 || !told.err.is_empty() || !is_more {
            return Err("another answer")?;
        }
        last = told.written;
    }
    Err("no end")?
}

const HELD: &str = "242 242 242 | 2 2 2 ";

#[test]
fn faults_of_standard_output(rt: HostRuntime) -> Result<(), Fail> {
    let alloc = rt.alloc();
    let script = long_script(alloc)?;
    let call = Call {
        script: script.as_str(),
        ..RUN
    };
    let words = "replay|rules|script";
    let report = plain_answer(alloc, Call { words, ..call })?.out;
    let report = report.as_str();
    let calls = calls_to_write(&rt, alloc, call, report)?;
    assert!(rt; calls >= 4, "{calls} calls");
    // Of so much room the report takes all, or not enough is left at its end, in the middle or from the first byte on.
    let length = report.len() as u64;
    for (out_room, status) in [
        (length, 0),
        (length.saturating_sub(1), 4),
        (length / 2, 4),
        (1, 4),
        (0, 4),
    ] {
        let told = told_of_run(&rt, alloc, Call { out_room, ..call }, report)?;
        let written = told.written.ok_or("no front part")? as u64;
        assert_eq!(rt; told.status, status, "at {out_room}");
        assert_eq!(rt; told.err.as_str(), "", "at {out_room}");
        assert_eq!(rt; told.held.as_str(), HELD, "at {out_room}");
        assert!(rt; written <= out_room, "at {out_room}");
        assert_eq!(rt; written == length, status == 0, "at {out_room}");
    }
    Ok(())
}

// What is written to standard error and fails there; nothing is on standard output.
#[test]
fn faults_of_standard_error(rt: HostRuntime) -> Result<(), Fail> {
    let alloc = rt.alloc();
    let first: &[u64] = &[0];
    let cases: [(&str, &str, &[u64], u64, u8, &str); 9] = [
        ("run|rules|script", "x\n", &[], 11, 1, "script 1 4\n"),
        ("run|rules|script", "x\n", first, 11, 4, ""),
        ("run|rules|script", "x\n", &[], 10, 4, ""),
        ("run|rules|script", "x\n", &[], 0, 4, ""),
        ("run|rules|absent", "", &[], 5, 3, "read\n"),
        ("run|rules|absent", "", first, 5, 4, ""),
        ("run|rules|absent", "", &[], 4, 4, ""),
        ("run|rules", "", first, 1 << 10, 4, ""),
        ("run|rules", "", &[], 100, 4, ""),
    ];
    for (words, script, err, err_room, status, text) in cases {
        let call = Call {
            words,
            script,
            err,
            err_room,
            ..RUN
        };
        let told = told_of_run(&rt, alloc, call, "")?;
        assert_eq!(rt; told.status, status, "at {words}");
        assert_eq!(rt; told.written, Some(0), "at {words}");
        assert_eq!(rt; told.err.as_str(), text, "at {words}");
    }
    Ok(())
}
