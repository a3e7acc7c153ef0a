// The program's calls over files and sinks in memory.
ghost use Rattle.std.specs.Prelude.{◌≡◌, map, string_bytes, IfOk};
ghost use Rattle.market_top.specs.Command.{file_words};

use market_top::{file_words, is_run, run_market, run_plain};
use memory_node::MemRack;
use mkt_io::{MemShelf, MemSink, NoGate, Shelf};
use std::alloc::{AllocError, Global};
use std::sync::Wait;
use std::test::Fail;
use std::thread::Threads;

pub(super) const USAGE: &str =
    "usage: auction FILE | check RULES | replay RULES SCRIPT | replay --gen NUMBER ORDERS RULES | run RULES SCRIPT | audit RULES REPORT | gen NUMBER ORDERS\n";

const OPENING: &str =
    "grid 1000 10 11 1050\nbuy 300 market\nbuy 200 1060\nsell 400 1040\nsell 200 1070\n";

/// What a call answered and wrote.
#[derive(Drop)]
pub(super) struct Answer {
    pub(super) status: u8,
    pub(super) out: String,
    pub(super) err: String,
}

/// Which calls fail: of the shelf, of standard output and of standard error; and whether the call is made that waits for nobody.
#[derive(Clone, Copy)]
pub(super) struct Fails<'a> {
    pub(super) by_plain: bool,
    pub(super) shelf: &'a [u64],
    pub(super) out: &'a [u64],
    pub(super) err: &'a [u64],
}

pub(super) const NONE: Fails<'static> = Fails {
    by_plain: false,
    shelf: &[],
    out: &[],
    err: &[],
};

fn texts(alloc: Global, words: &[&str]) -> Result<Vec<String>, AllocError> {
    let mut texts = Vec::new(alloc);
    for word in words {
        texts.push(String::from_str(alloc, word)?)?;
    }
    Ok(texts)
}

fn copies(alloc: Global, words: &[String]) -> Result<Vec<String>, AllocError>
    ensures { IfOk result (λ copies. map string_bytes copies.items ≡ map string_bytes words.now) }
{
    let mut copies = Vec::new(alloc);
    for word in words {
        copies.push(String::from_str(alloc, word.as_str())?)?;
    }
    Ok(copies)
}

// The status of a call, over a rack of its own.
fn status_of<T: Threads + Wait + Sync>(
    rt: &T,
    alloc: Global,
    words: &[String],
    shelf: &mut MemShelf,
    out: &mut MemSink,
    err: &mut MemSink,
    by_plain: bool,
) -> Result<u8, Fail>
    requires { ⟦<MemShelf as Shelf>⟧.names shelf.old ≡ file_words (map string_bytes words.now) }
{
    let mut rack = MemRack::make(alloc, Vec::new(alloc)).map_err(|_| "no rack")?;
    let status = if by_plain && !is_run(words) {
        run_plain(alloc, words, shelf, out, err, &mut rack)
    } else {
        run_market(rt, alloc, words, shelf, out, err, &mut rack, &NoGate)
    };
    Ok(status.0)
}

// Runs the words over a shelf with the one file `a`.
pub(super) fn answer_of<T: Threads + Wait + Sync>(
    rt: &T,
    alloc: Global,
    words: &[&str],
    file: &[u8],
    fails: Fails,
) -> Result<Answer, Fail> {
    let words = texts(alloc, words)?;
    let names = copies(alloc, file_words(&words))?;
    let mut files = Vec::new(alloc);
    files.push((String::from_str(alloc, "a")?, file.to_vec(alloc)?))?;
    let mut shelf = MemShelf::new(names, files, fails.shelf.to_vec(alloc)?);
    let mut out = MemSink::make(alloc, 1 << 16, fails.out.to_vec(alloc)?).map_err(|_| "no room")?;
    let mut err = MemSink::make(alloc, 1 << 10, fails.err.to_vec(alloc)?).map_err(|_| "no room")?;
    let status = status_of(
        rt,
        alloc,
        &words,
        &mut shelf,
        &mut out,
        &mut err,
        fails.by_plain,
    )?;
    Ok(Answer {
        status,
        out: String::from_utf8_lossy(alloc, out.bytes())?,
        err: String::from_utf8_lossy(alloc, err.bytes())?,
    })
}

#[test]
fn certificates(rt: HostRuntime) -> Result<(), Fail> {
    let cases: [(&str, &str); 14] = [
        // 1040 is as near as 1060 and is listed.
        (
            OPENING,
            "rejected 1050 500 500 400 400\nrejected 1040 500 500 400 0\nprice 1060 400 500 300 400 400\n",
        ),
        // Every price meets the conditions.
        (
            "grid 1000 10 11 1050\nbuy 100 1100\nsell 100 1000\n",
            "price 1050 100 100 100 100 100\n",
        ),
        // Nothing stands there, or only limits that do not cross.
        ("grid 1000 10 11 1050\n", "calm - -\n"),
        (
            "grid 1000 10 11 1050\nbuy 100 1000\nsell 100 1010\n",
            "calm 1000 1010\n",
        ),
        (
            "grid 1000 10 11 1050\nbuy 7 1000\nbuy 1 1020\nbuy 2 1010\n",
            "calm 1020 -\n",
        ),
        (
            "grid 1000 10 11 1050\nsell 7 1100\nsell 1 1020\nsell 2 1030\n",
            "calm - 1020\n",
        ),
        // A side presses.
        (
            "grid 1000 10 11 1050\nbuy 500 market\nsell 300 1000\n",
            "pressed buy 1100 500 300\n",
        ),
        (
            "grid 1000 10 11 1050\nsell 500 market\nbuy 300 1100\n",
            "pressed sell 1000 500 300\n",
        ),
        (
            "grid 1000 10 11 1050\nbuy 1 market\n",
            "pressed buy 1100 1 0\n",
        ),
        // Of two prices that are equally near and both meet the conditions, none is missed.
        (
            "grid 5 5 3 10\nbuy 3 15\nsell 3 15\n",
            "rejected 10 3 3 0 0\nrejected 5 3 3 0 0\nprice 15 3 3 0 3 0\n",
        ),
        // A grid of one price.
        (
            "grid 1000000000 1000000 1 1000000000\nbuy 100000000 market\nsell 100000000 market\n",
            "price 1000000000 100000000 100000000 100000000 100000000 100000000\n",
        ),
        // Comments, blank lines, tabs, CR LF and a last line without its end.
        (
            "# an opening\r\n\r\n \t\n\tgrid  1000\t10 11 1050 \r\n#\nbuy\t500  market\r\n sell 300 1000",
            "pressed buy 1100 500 300\n",
        ),
        (
            "grid 1000 10 11 1050\n\n   # not an order\n\nbuy 1 1000\r",
            "calm 1000 -\n",
        ),
        (
            "grid 1 1 20000 20000\nbuy 1 1\nsell 1 20000\n",
            "calm 1 20000\n",
        ),
    ];
    for (file, want) in cases {
        let answer = answer_of(&rt, rt.alloc(), &["auction", "a"], file.as_bytes(), NONE)?;
        assert_eq!(rt; answer.out.as_str(), want, "at {file}");
        assert_eq!(rt; answer.err.as_str(), "", "at {file}");
        assert_eq!(rt; answer.status, 0, "at {file}");
    }
    Ok(())
}

#[test]
fn faults_of_a_file(rt: HostRuntime) -> Result<(), Fail> {
    let cases: [(&str, &str); 47] = [
        // No line says anything.
        ("", "auction 1 1\n"),
        ("\n", "auction 2 1\n"),
        ("#\n\n", "auction 3 1\n"),
        (" \t\n# a\r\n ", "auction 4 1\n"),
        // The grid line.
        ("gird 1000 10 11 1050\n", "auction 1 1\n"),
        ("buy 1 market\n", "auction 1 1\n"),
        ("grid\n", "auction 1 1\n"),
        ("grid 1000\n", "auction 1 1\n"),
        ("grid 1000 10\n", "auction 1 1\n"),
        ("grid 1000 10 11\n", "auction 1 1\n"),
        ("grid 1000 10 11 1050 1\n", "auction 1 1\n"),
        ("grid 0 10 11 1050\n", "auction 1 2\n"),
        ("grid 1000000001 10 11 1050\n", "auction 1 2\n"),
        ("grid 1000 0 11 1050\n", "auction 1 2\n"),
        ("grid 1000 1000001 11 1050\n", "auction 1 2\n"),
        ("grid 1000 10 0 1050\n", "auction 1 2\n"),
        ("grid 1000 10 20001 1050\n", "auction 1 2\n"),
        // The last price is over its limit, which is told before a missing reference.
        ("grid 999999999 1 3\n", "auction 1 2\n"),
        ("grid 1000 10 11 1055\n", "auction 1 2\n"),
        ("grid 1000 10 11 1110\n", "auction 1 2\n"),
        ("grid 1000 10 11 990\n", "auction 1 2\n"),
        // A reference that is off the grid is told before an extra word.
        ("grid 1000 10 11 1055 1\n", "auction 1 2\n"),
        ("grid 1000 10 x 1055 1\n", "auction 1 2\n"),
        ("grid 01000 10 11 1050\n", "auction 1 2\n"),
        ("grid +1000 10 11 1050\n", "auction 1 2\n"),
        ("grid 00 10 11 1050\n", "auction 1 2\n"),
        ("grid 4294967296 10 11 1050\n", "auction 1 2\n"),
        ("grid 99999999999 10 11 1050\n", "auction 1 2\n"),
        // The order lines.
        (
            "grid 1000 10 11 1050\ngrid 1000 10 11 1050\n",
            "auction 2 1\n",
        ),
        ("grid 1000 10 11 1050\nBuy 1 market\n", "auction 2 1\n"),
        ("grid 1000 10 11 1050\nbuy\n", "auction 2 1\n"),
        ("grid 1000 10 11 1050\nbuy 1\n", "auction 2 1\n"),
        ("grid 1000 10 11 1050\nbuy 0 market\n", "auction 2 2\n"),
        (
            "grid 1000 10 11 1050\nbuy 100000001 market\n",
            "auction 2 2\n",
        ),
        ("grid 1000 10 11 1050\nbuy market 1\n", "auction 2 2\n"),
        ("grid 1000 10 11 1050\nbuy 1 Market\n", "auction 2 2\n"),
        ("grid 1000 10 11 1050\nsell 1 1055\n", "auction 2 2\n"),
        ("grid 1000 10 11 1050\nsell 1 1110 x\n", "auction 2 2\n"),
        ("grid 1000 10 11 1050\nsell 1 0\n", "auction 2 2\n"),
        ("grid 1000 10 11 1050\nsell 1 1100 x\n", "auction 2 1\n"),
        ("grid 1000 10 11 1050\nsell 1 market x\n", "auction 2 1\n"),
        // Skipped lines count, and the first fault is told.
        (
            "#\n\ngrid 1000 10 11 1050\n\n# a\nsell x market\nbuy\n",
            "auction 6 2\n",
        ),
        // Bytes that are no text, in a comment too.
        ("grid 1000 10 11 1050\n# \u{7f}\n", "auction 2 9\n"),
        ("\0\n", "auction 1 9\n"),
        ("grid 1000 10 11 1050\nbuy 1\rmarket\n", "auction 2 9\n"),
        ("grid 1000 10 11 1050\nbuy 1 market\r\r\n", "auction 2 9\n"),
        ("grid 1000 10 11 1050\nbuy 1 m\u{e4}rket\n", "auction 2 9\n"),
    ];
    for (file, want) in cases {
        let answer = answer_of(&rt, rt.alloc(), &["auction", "a"], file.as_bytes(), NONE)?;
        assert_eq!(rt; answer.err.as_str(), want, "at {file}");
        assert_eq!(rt; answer.out.as_str(), "", "at {file}");
        assert_eq!(rt; answer.status, 1, "at {file}");
    }
    Ok(())
}

// A file of a grid and so many lines more.
fn long_file(alloc: Global, lines: u32, line: &str) -> Result<String, AllocError> {
    let mut file = String::from_str(alloc, "grid 1000 10 1 1000\n")?;
    for _ in 0..lines {
        file.push_str(line)?;
    }
    Ok(file)
}

#[test]
fn limits_of_a_file(rt: HostRuntime) -> Result<(), Fail> {
    let alloc = rt.alloc();
    // A line of 200 bytes, behind a comment sign, and one byte more.
    let mut line = String::from_str(alloc, "#")?;
    for _ in 0..199 {
        line.push_str("x")?;
    }
    line.push_str("\r\n")?;
    let good = long_file(alloc, 1, line.as_str())?;
    let answer = answer_of(&rt, alloc, &["auction", "a"], good.as_bytes(), NONE)?;
    assert_eq!(rt; answer.out.as_str(), "calm - -\n");
    let mut longer = String::from_str(alloc, "#")?;
    longer.push_str(line.as_str())?;
    let long = long_file(alloc, 1, longer.as_str())?;
    let answer = answer_of(&rt, alloc, &["auction", "a"], long.as_bytes(), NONE)?;
    assert_eq!(rt; answer.err.as_str(), "auction 2 7\n");
    // 500,000 lines, and one more.
    let most = long_file(alloc, 499_999, "\n")?;
    let answer = answer_of(&rt, alloc, &["auction", "a"], most.as_bytes(), NONE)?;
    assert_eq!(rt; answer.out.as_str(), "calm - -\n");
    let more = long_file(alloc, 500_000, "\n")?;
    let answer = answer_of(&rt, alloc, &["auction", "a"], more.as_bytes(), NONE)?;
    assert_eq!(rt; answer.err.as_str(), "auction 500001 8\n");
    Ok(())
}

#[test]
fn refused_words(rt: HostRuntime) -> Result<(), Fail> {
    let cases: [&[&str]; 14] = [
        &[],
        &["auction"],
        &["auction", ""],
        &["auction", "-"],
        &["auction", "-a"],
        &["auction", "a", "a"],
        &["Auction", "a"],
        &["run"],
        &["run", "a"],
        &["run", "a", ""],
        &["run", "-a", "a"],
        &["run", "a", "a", "a"],
        &["Run", "a", "a"],
        &["--help"],
    ];
    for words in cases {
        let answer = answer_of(&rt, rt.alloc(), words, OPENING.as_bytes(), NONE)?;
        assert_eq!(rt; answer.err.as_str(), USAGE);
        assert_eq!(rt; answer.out.as_str(), "");
        assert_eq!(rt; answer.status, 2);
    }
    Ok(())
}

#[test]
fn faults_of_the_shelf_and_the_sinks(rt: HostRuntime) -> Result<(), Fail> {
    let alloc = rt.alloc();
    let opening = OPENING.as_bytes();
    let shelf = Fails {
        shelf: &[1],
        ..NONE
    };
    let out = Fails { out: &[0], ..NONE };
    let err = Fails { err: &[0], ..NONE };
    // The call that waits for nobody writes the same.
    let plain = Fails {
        by_plain: true,
        ..NONE
    };
    let answer = answer_of(&rt, alloc, &["auction", "a"], opening, plain)?;
    assert_eq!(rt; answer.status, 0);
    assert_eq!(rt;
        answer.out.as_str(),
        "rejected 1050 500 500 400 400\nrejected 1040 500 500 400 0\nprice 1060 400 500 300 400 400\n"
    );
    let cases: [(&[&str], &[u8], Fails, u8, &str); 8] = [
        // The words `run`: of the rules file, and of no file.
        (&["run", "a", "b"], opening, NONE, 1, "rules 1\n"),
        (&["run", "b", "a"], opening, NONE, 3, "read\n"),
        // A shelf without the file.
        (&["auction", "b"], opening, NONE, 3, "read\n"),
        // A read that fails.
        (&["auction", "a"], opening, shelf, 3, "read\n"),
        // Sinks whose first write fails.
        (&["auction", "a"], opening, out, 4, ""),
        (&["auction"], opening, err, 4, ""),
        (&["auction", "b"], opening, err, 4, ""),
        (&["auction", "a"], b"", err, 4, ""),
    ];
    for (words, file, fails, status, want) in cases {
        let answer = answer_of(&rt, alloc, words, file, fails)?;
        assert_eq!(rt; answer.status, status);
        assert_eq!(rt; answer.out.as_str(), "");
        assert_eq!(rt; answer.err.as_str(), want);
    }
    Ok(())
}
