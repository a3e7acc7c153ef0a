// The files and the streams of the system, as a shelf and as a sink.
ghost use Rattle.std.specs.Prelude.{◌≡◌, ◌≤◌, None, length, map, string_bytes, IfOk};

use crate::{Failed, Shelf, Sink};
use std::fs::File;
use std::io::{ErrorKind, Read, Write};
use std::rt::Files;

/// The files of the system, whose names are paths.
#[derive(Drop)]
pub struct FileShelf<'a, R: Files> {
    rt: &'a R,
    names: &'a [String],
    chosen: Option<R::File>,
    faults: u64,
}

impl<'a, R: Files> FileShelf<'a, R> {
    /// A shelf of the files of these names, with no file chosen.
    pub fn new(rt: &'a R, names: &'a [String]) -> FileShelf<'a, R>
        ensures names { ⟦<FileShelf<'a, R> as Shelf>⟧.names result ≡ map string_bytes names.now }
        ensures faults { ⟦<FileShelf<'a, R> as Shelf>⟧.faults result ≡ 0 }
    {
        FileShelf {
            rt,
            names,
            chosen: None,
            faults: 0,
        }
    }
}

impl<R: Files> Shelf for FileShelf<'_, R> {
    ghost names = { λ s. map string_bytes s.names.now };

    ghost files = { λ _. None };

    ghost left = { λ _. None };

    ghost faults = { λ s. s.faults };

    fn choose(&mut self, name: &str) -> Result<(), Failed> {
        if let Ok(file) = File::open(self.rt, name) {
            self.chosen = Some(file);
            return Ok(());
        }
        self.faults = self.faults.saturating_add(1);
        Err(Failed)
    }

    fn read(&mut self, buf: &mut [u8]) -> Result<usize, Failed> {
        if let Some(file) = &mut self.chosen {
            if let Ok(n) = read_once(file, buf) {
                return Ok(n);
            }
        }
        self.faults = self.faults.saturating_add(1);
        Err(Failed)
    }
}

// How often a read that a signal broke off is tried.
const TRIES: u32 = 100;

// Reads a part of a file, again where a signal broke the read off.
fn read_once<F: Read>(file: &mut F, buf: &mut [u8]) -> Result<usize, Failed>
    ensures { IfOk result (λ n. n ≤ length buf.old) }
{
    for _ in 0..TRIES {
        match file.read(buf) {
            Ok(n) => return Ok(n),
            Err(e) if e.kind() == ErrorKind::Interrupted => {}
            Err(_) => return Err(Failed),
        }
    }
    Err(Failed)
}

/// A stream of the system, as `rt.stdout()`: what is written reaches it before the call is done.
#[derive(Drop)]
pub struct StdSink<W: Write + Drop> {
    stream: W,
    faults: u64,
}

impl<W: Write + Drop> StdSink<W> {
    /// A sink over this stream.
    pub fn new(stream: W) -> StdSink<W>
        ensures { ⟦<StdSink<W> as Sink>⟧.faults result ≡ 0 }
    {
        StdSink { stream, faults: 0 }
    }
}

impl<W: Write + Drop> Sink for StdSink<W> {
    ghost contents = { λ _. None };

    ghost faults = { λ s. s.faults };

    fn write(&mut self, piece: &[u8]) -> Result<usize, Failed> {
        if let Ok(n) = self.stream.write(piece) {
            if n > 0 && self.stream.flush().is_ok() {
                return Ok(n);
            }
        }
        self.faults = self.faults.saturating_add(1);
        Err(Failed)
    }
}
