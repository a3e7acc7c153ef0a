// The two ways in which a printer is used, and what it prints.
ghost use Rattle.std.specs.Prelude.{◌≡◌, ◌≤◌, ◌∷◌, [], codes, flat_map};
ghost use Rattle.std.specs.Fmt.{decimal};
ghost use Rattle.mkt_base.specs.Text.{line};
ghost use Rattle.mkt_io.specs.Printed.{PrintsLines};
ghost use Rattle.mkt_io.specs.Sink.{Writes};

use mkt_base::Moment;
use mkt_io::{MemSink, Printer, Sink, WriteFault};
use std::alloc::{AllocError, Global};
use std::test::Fail;

// A caller that makes a printer and finishes it.
fn print_total<O: Sink>(sink: &mut O, n: u64) -> Result<(), WriteFault>
    ensures { Writes O.contents O.faults sink.old
        (line (codes "total" ∷ codes "so" ∷ decimal n ∷ [])) sink.new result }
{
    let mut printer = Printer::new(sink);
    printer.word("total");
    printer.word("so");
    printer.number(n);
    printer.line_end();
    printer.finish()
}

// A caller that is handed a printer, and prints in a loop.
fn print_lines<O: Sink>(printer: &mut Printer<'_, O>, numbers: &[u64])
    ensures { PrintsLines O.contents O.faults printer.old printer.new
        (flat_map (λ n. line (decimal n ∷ [])) numbers.now) }
{
    for number in numbers {
        printer.number(*number);
        printer.line_end();
    }
}

#[test]
fn lines_are_printed(rt: HostRuntime) -> Result<(), Fail> {
    let mut sink = MemSink::make(rt.alloc(), 200, Vec::new(rt.alloc()))?;
    assert_eq!(rt; print_total(&mut sink, u64::MAX), Ok(()));
    let mut printer = Printer::new(&mut sink);
    print_lines(&mut printer, &[0, 10, 999]);
    for ms in [0, 36_000_000, 86_399_999] {
        printer.word("at");
        if let Some(at) = Moment::new(ms) {
            printer.moment(at);
        }
        printer.line_end();
    }
    assert!(rt; !printer.fault());
    assert_eq!(rt; printer.finish(), Ok(()));
    let want =
        "total so 18446744073709551615\n0\n10\n999\nat 00:00:00.000\nat 10:00:00.000\nat 23:59:59.999\n";
    assert_eq!(rt; sink.bytes(), want.as_bytes());
    Ok(())
}

#[test]
fn a_number_is_printed(rt: HostRuntime) -> Result<(), Fail> {
    for (n, want) in [
        (0, "0 0\n"),
        (9, "9 9\n"),
        (10, "10 10\n"),
        (99, "99 99\n"),
        (100, "100 100\n"),
        (101, "101 101\n"),
        (999, "999 999\n"),
        (1_000, "1000 1000\n"),
        (9_999, "9999 9999\n"),
        (10_000, "10000 10000\n"),
        (90_001, "90001 90001\n"),
        (1_001_001, "1001001 1001001\n"),
        (20_000_507, "20000507 20000507\n"),
        (99_999_999, "99999999 99999999\n"),
        (100_000_000, "100000000 100000000\n"),
        (4_294_967_296, "4294967296 4294967296\n"),
        (
            10_000_000_000_000_000_000,
            "10000000000000000000 10000000000000000000\n",
        ),
        (u64::MAX, "18446744073709551615 18446744073709551615\n"),
    ] {
        let mut sink = MemSink::make(rt.alloc(), 50, Vec::new(rt.alloc()))?;
        let mut printer = Printer::new(&mut sink);
        printer.number(n);
        printer.number(n);
        printer.line_end();
        assert_eq!(rt; printer.finish(), Ok(()));
        assert_eq!(rt; sink.bytes(), want.as_bytes());
    }
    Ok(())
}

// The letters of a long word.
fn letters() -> [u8; 4096] {
    let mut letters = [b'a'; 4096];
    for (i, letter) in letters.iter_mut().enumerate() {
        *letter = b'a' + (i % 26) as u8;
    }
    letters
}

// Words of these lengths, a number and a moment on one line, and the line that they are to be.
fn printed_and_wanted(
    alloc: Global,
    first: usize,
    second: usize,
) -> Result<(MemSink, Vec<u8>), Fail>
    requires { (first ≤ 4096) × (second ≤ 4096) }
{
    let letters = letters();
    let words = (
        std::str::from_utf8(&letters[..first])?,
        std::str::from_utf8(&letters[..second])?,
    );
    let mut sink = MemSink::make(alloc, 10_000, Vec::new(alloc))?;
    let mut printer = Printer::new(&mut sink);
    printer.word(words.0);
    printer.word(words.1);
    printer.number(1_020_030);
    if let Some(at) = Moment::new(45_296_007) {
        printer.moment(at);
    }
    printer.line_end();
    printer.finish()?;
    let mut want = Vec::from_slice(alloc, &letters[..first])?;
    want.push(b' ')?;
    want.extend_from_slice(&letters[..second])?;
    want.extend_from_slice(b" 1020030 12:34:56.007\n")?;
    Ok((sink, want))
}

#[test]
fn a_word_is_printed_at_the_end_of_a_block(rt: HostRuntime) -> Result<(), Fail> {
    for left in 0..70 {
        for length in 0..41 {
            let (sink, want) = printed_and_wanted(rt.alloc(), 4096 - left, length)?;
            assert_eq!(rt; sink.bytes(), want.as_slice(), "at {left} and {length}");
        }
    }
    Ok(())
}

#[test]
fn a_full_block_is_written(rt: HostRuntime) -> Result<(), Fail> {
    let alloc = rt.alloc();
    let long = [b'x'; 5000];
    let Ok(word) = std::str::from_utf8(&long) else {
        return Ok(());
    };
    for (room, want, length, faults) in [
        (20_000, Ok(()), 11_000, 0),
        (6_000, Err(WriteFault), 6_000, 1),
        (5_999, Err(WriteFault), 4_092, 1),
        (4_000, Err(WriteFault), 0, 1),
    ] {
        let mut sink = MemSink::make(alloc, room, Vec::new(alloc))?;
        let mut printer = Printer::new(&mut sink);
        for _ in 0..1000 {
            printer.word("12345");
        }
        printer.word(word);
        assert_eq!(rt; printer.fault(), room < 11_000, "at {room}");
        assert_eq!(rt; printer.finish(), want, "at {room}");
        assert_eq!(rt; sink.bytes().len(), length, "at {room}");
        assert_eq!(rt; sink.faults(), faults, "at {room}");
    }
    Ok(())
}
