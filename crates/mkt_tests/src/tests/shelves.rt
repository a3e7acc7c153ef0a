// What no contract says of shelves and sinks: that calls succeed, and which of them fail.
ghost use Rattle.std.specs.Prelude.{◌≡◌, ◌∷◌, [], codes, map, string_bytes, IfOk, None};

use mkt_io::{
    Failed, FileShelf, MemShelf, MemSink, ReadFault, Shelf, Sink, StdSink, WriteFault, read_whole,
    write_all,
};
use std::alloc::{AllocError, Global};
use std::io;
use std::io::{ErrorKind, Write};
use std::rt::Files;
use std::test::Fail;

// Takes at most three bytes a call.
#[derive(Drop)]
struct Narrow<O: Sink> {
    inner: O,
}

impl<O: Sink> Sink for Narrow<O> {
    ghost contents = { λ s. O.contents s.inner };

    ghost faults = { λ s. O.faults s.inner };

    fn write(&mut self, piece: &[u8]) -> Result<usize, Failed> {
        self.inner.write(&piece[..piece.len().min(3)])
    }
}

// A stream whose writes take so many bytes of a piece, and fail at none.
#[derive(Drop)]
struct Stream {
    takes: usize,
    flushes: bool,
}

impl Write for Stream {
    fn write(&mut self, buf: &[u8]) -> io::Result<usize> {
        if self.takes > 9 {
            return Err(io::Error::from(ErrorKind::BrokenPipe));
        }
        Ok(self.takes.min(buf.len()))
    }

    fn flush(&mut self) -> io::Result<()> {
        if self.flushes {
            Ok(())
        } else {
            Err(io::Error::from(ErrorKind::BrokenPipe))
        }
    }
}

#[test]
fn a_stream_is_written_and_flushed(rt: HostRuntime) {
    let cases = [
        (2, true, Ok(2)),
        (9, true, Ok(5)),
        (0, true, Err(Failed)),
        (10, true, Err(Failed)),
        (2, false, Err(Failed)),
    ];
    for (takes, flushes, want) in cases {
        let mut sink = StdSink::new(Stream { takes, flushes });
        assert_eq!(rt; sink.write(b"hello"), want, "at {takes}");
    }
}

// How a file of the system is chosen, and then read into the buffer.
fn chosen_and_read<R: Files>(
    rt: &R,
    alloc: Global,
    name: &str,
    buf: &mut [u8; 3],
) -> Result<(bool, Result<usize, Failed>), AllocError> {
    let mut names = Vec::new(alloc);
    names.push(String::from_str(alloc, name)?)?;
    let mut shelf = FileShelf::new(rt, &names);
    let chosen = shelf.choose(name).is_ok();
    Ok((chosen, shelf.read(buf)))
}

#[test]
fn files_are_chosen_and_read(rt: HostRuntime) -> Result<(), Fail> {
    let cases = [
        ("/dev/zero", true, Ok(3), [0; 3]),
        ("/dev/null", true, Ok(0), [7; 3]),
        ("/", true, Err(Failed), [7; 3]),
        ("/no such file", false, Err(Failed), [7; 3]),
    ];
    for (name, chosen, read, bytes) in cases {
        let mut buf = [7; 3];
        let answer = chosen_and_read(&rt, rt.alloc(), name, &mut buf)?;
        assert_eq!(rt; answer.0, chosen, "at {name}");
        assert_eq!(rt; answer.1, read, "at {name}");
        assert_eq!(rt; buf, bytes, "at {name}");
    }
    Ok(())
}

#[test]
fn a_sink_has_its_room(rt: HostRuntime) -> Result<(), Fail> {
    let alloc = rt.alloc();
    let mut sink = MemSink::make(alloc, 6, vec![in alloc; 2, 7]?)?;
    let cases = [
        (b"abc".as_slice(), Ok(3)),
        (b"defg".as_slice(), Err(Failed)),
        (b"de".as_slice(), Err(Failed)),
        (b"de".as_slice(), Ok(2)),
        (b"f".as_slice(), Ok(1)),
        (b"g".as_slice(), Err(Failed)),
    ];
    for (piece, want) in cases {
        assert_eq!(rt; sink.write(piece), want);
    }
    assert_eq!(rt; sink.bytes(), b"abcdef".as_slice());
    assert_eq!(rt; sink.faults(), 3);
    Ok(())
}

#[test]
fn all_is_written_up_to_a_fault(rt: HostRuntime) -> Result<(), Fail> {
    let alloc = rt.alloc();
    for (fails, want, bytes) in [
        (9, Ok(()), "seven b"),
        (2, Err(WriteFault), "seven "),
        (1, Err(WriteFault), "sev"),
        (0, Err(WriteFault), ""),
    ] {
        let inner = MemSink::make(alloc, 100, vec![in alloc; fails]?)?;
        let mut sink = Narrow { inner };
        assert_eq!(rt; write_all(&mut sink, b"seven b"), want, "at {fails}");
        assert_eq!(rt; sink.inner.bytes(), bytes.as_bytes(), "at {fails}");
    }
    Ok(())
}

fn names(alloc: Global) -> Result<Vec<String>, AllocError>
    ensures { IfOk result (λ names. map string_bytes names.items ≡ codes "a" ∷ codes "b" ∷ []) }
{
    let mut names = Vec::new(alloc);
    names.push(String::from_str(alloc, "a")?)?;
    names.push(String::from_str(alloc, "b")?)?;
    Ok(names)
}

fn file(alloc: Global, name: &str, bytes: &[u8]) -> Result<(String, Vec<u8>), AllocError> {
    let name = String::from_str(alloc, name)?;
    Ok((name, Vec::from_slice(alloc, bytes)?))
}

fn shelf(alloc: Global, fails: u64) -> Result<MemShelf, AllocError>
    ensures { IfOk result (λ shelf. ⟦<MemShelf as Shelf>⟧.names shelf ≡ codes "a" ∷ codes "b" ∷ []) }
{
    let names = names(alloc)?;
    let first = file(alloc, "a", b"hello")?;
    let second = file(alloc, "a", b"other")?;
    let files = vec![in alloc; first, second]?;
    let fails = vec![in alloc; fails]?;
    Ok(MemShelf::new(names, files, fails))
}

#[test]
fn a_file_is_read_in_pieces(rt: HostRuntime) -> Result<(), Fail> {
    let mut shelf = shelf(rt.alloc(), 3)?;
    let mut buf = [0; 4];
    assert_eq!(rt; shelf.read(&mut buf), Ok(0));
    assert_eq!(rt; shelf.choose("b"), Err(Failed));
    assert_eq!(rt; shelf.choose("a"), Ok(()));
    assert_eq!(rt; shelf.read(&mut buf), Err(Failed));
    assert_eq!(rt; shelf.read(&mut buf), Ok(4));
    assert_eq!(rt; buf.as_slice(), b"hell".as_slice());
    assert_eq!(rt; shelf.read(&mut buf), Ok(1));
    assert_eq!(rt; buf.as_slice(), b"oell".as_slice());
    assert_eq!(rt; shelf.read(&mut buf), Ok(0));
    assert_eq!(rt; shelf.faults(), 2);
    Ok(())
}

#[test]
fn a_file_is_read_up_to_the_limit(rt: HostRuntime) -> Result<(), Fail> {
    let alloc = rt.alloc();
    for (fails, limit, want) in [
        (9, 0, Some("h")),
        (9, 3, Some("hell")),
        (9, 4, Some("hello")),
        (9, u64::MAX, Some("hello")),
        (0, 9, None),
        (1, 9, None),
        (2, 9, None),
    ] {
        let mut shelf = shelf(alloc, fails)?;
        match read_whole(alloc, &mut shelf, "a", limit) {
            Ok(bytes) => assert_eq!(rt;
                Some(bytes.as_slice()),
                want.map(str::as_bytes),
                "at {limit}"
            ),
            Err(fault) => {
                assert_eq!(rt; fault, ReadFault::Read);
                assert!(rt; want.is_none(), "at {fails}");
            }
        }
    }
    Ok(())
}
