// A shelf and a sink in memory, whose calls fail by their numbers, for tests.
ghost use Rattle.std.specs.Prelude.{◌≡◌, ◌+◌, ◌≤◌, ◌<◌, min, [], Option, Some, None, length, take, map, vec_len, vec_capacity, string_bytes, IfOk, IfSome, IfNone, OnOk, OnErr};
ghost use Rattle.mkt_io.specs.Faults.{Rises};
ghost use Rattle.mkt_io.specs.Memory.{file_of, left_of};

use crate::{Failed, Shelf, Sink};
use std::alloc::Global;

/// There was no memory.
#[derive(Clone, Copy, Debug, PartialEq, Eq)]
pub enum MemFault {
    /// There was no memory for the room that was asked for.
    Memory,
}

// Which calls fail, and how many calls and faults there were.
#[derive(Drop)]
struct Plan {
    fails: Vec<u64>,
    calls: u64,
    faults: u64,
}

impl Plan {
    // Counts a call, which fails where its number is among those that do.
    fn call(&mut self) -> Result<(), Failed>
        ensures passed { OnOk result (self.new.faults ≡ self.old.faults) }
        ensures failed { OnErr result (Rises self.old.faults self.new.faults) }
        ensures count { self.old.faults ≤ self.new.faults }
    {
        let number = self.calls;
        if number == u64::MAX {
            return Ok(());
        }
        self.calls = number + 1;
        if self.fails.contains(&number) {
            return Err(self.fault());
        }
        Ok(())
    }

    // Counts a fault.
    fn fault(&mut self) -> Failed
        ensures failed { Rises self.old.faults self.new.faults }
        ensures count { self.old.faults ≤ self.new.faults }
    {
        self.faults = self.faults.saturating_add(1);
        Failed
    }
}

/// A shelf whose files stand in memory. All its calls are numbered from 0 up to 2^64 - 2, and a call with
/// the number of one that is to fail changes nothing but the count of faults.
#[derive(Drop)]
pub struct MemShelf {
    names: Vec<String>,
    files: Vec<(String, Vec<u8>)>,
    plan: Plan,
    chosen: Option<usize>,
    at: usize,
}

impl MemShelf {
    /// A shelf with no file chosen, of which the calls with the numbers in `fails` fail. Of two files of
    /// one name the first counts.
    pub fn new(names: Vec<String>, files: Vec<(String, Vec<u8>)>, fails: Vec<u64>) -> MemShelf
        ensures names { ⟦<MemShelf as Shelf>⟧.names result ≡ map string_bytes names.items }
        ensures files { ⟦<MemShelf as Shelf>⟧.files result ≡ Some (file_of files.items) }
        ensures left { ⟦<MemShelf as Shelf>⟧.left result ≡ Some [] }
        ensures faults { ⟦<MemShelf as Shelf>⟧.faults result ≡ 0 }
    {
        let plan = Plan {
            fails,
            calls: 0,
            faults: 0,
        };
        MemShelf {
            names,
            files,
            plan,
            chosen: None,
            at: 0,
        }
    }

    /// How often it has failed, as a number that stops at 2^64 - 1.
    pub fn faults(&self) -> u64
        ensures { result ≡ ⟦<MemShelf as Shelf>⟧.faults self.now }
    {
        self.plan.faults
    }

    // What is left of the chosen file.
    fn rest(&self) -> &[u8]
        ensures { result.now ≡ left_of self.now.files.items self.now.chosen self.now.at }
    {
        let Some(place) = self.chosen else {
            return &[];
        };
        let Some(file) = self.files.get(place) else {
            return &[];
        };
        file.1.get(self.at..).unwrap_or(&[])
    }
}

impl Shelf for MemShelf {
    ghost names = { λ s. map string_bytes s.names.items };

    ghost files = { λ s. Some (file_of s.files.items) };

    ghost left = { λ s. Some (left_of s.files.items s.chosen s.at) };

    ghost faults = { λ s. s.plan.faults };

    fn choose(&mut self, name: &str) -> Result<(), Failed> {
        self.plan.call()?;
        let Some(place) = place(&self.files, name) else {
            return Err(self.plan.fault());
        };
        self.chosen = Some(place);
        self.at = 0;
        Ok(())
    }

    fn read(&mut self, buf: &mut [u8]) -> Result<usize, Failed> {
        self.plan.call()?;
        let n = copy_front(self.rest(), buf);
        self.at += n;
        Ok(n)
    }
}

// Where the first file of this name stands.
fn place(files: &[(String, Vec<u8>)], name: &str) -> Option<usize>
    ensures { IfSome result (λ place. file_of files.now name.now ≡ Some (left_of files.now (Some place) 0)) }
{
    files.iter().position(|file| file.0.as_str() == name)
}

// Copies as many bytes to the front of the buffer as there are, or as it takes.
fn copy_front(bytes: &[u8], buf: &mut [u8]) -> usize
    ensures count { result ≡ min (length bytes.now) (length buf.old) }
    ensures copied { take result buf.new ≡ take result bytes.now }
{
    let n = bytes.len().min(buf.len());
    buf[..n].copy_from_slice(&bytes[..n]);
    n
}

/// A sink that keeps what is written, as far as it has room. Its calls are numbered from 0 up to
/// 2^64 - 2, and a call with the number of one that is to fail changes nothing but the count of faults.
#[derive(Drop)]
pub struct MemSink {
    bytes: Vec<u8>,
    room: usize,
    plan: Plan,
    ghost roomy: { room ≤ vec_capacity bytes },
}

impl MemSink {
    /// A sink with room for this many bytes, of which the calls with the numbers in `fails` fail. The
    /// memory for the room is taken here, and none later. A piece that does not fit what is left of the
    /// room is a fault.
    pub fn make(alloc: Global, room: u64, fails: Vec<u64>) -> Result<MemSink, MemFault>
        ensures contents { IfOk result (λ sink. ⟦<MemSink as Sink>⟧.contents sink ≡ Some []) }
        ensures faults { IfOk result (λ sink. ⟦<MemSink as Sink>⟧.faults sink ≡ 0) }
    {
        let room = room as usize;
        let Ok(bytes) = Vec::with_capacity(alloc, room) else {
            return Err(MemFault::Memory);
        };
        let plan = Plan {
            fails,
            calls: 0,
            faults: 0,
        };
        Ok(MemSink { bytes, room, plan })
    }

    /// The bytes written.
    pub fn bytes(&self) -> &[u8]
        ensures { Some result.now ≡ ⟦<MemSink as Sink>⟧.contents self.now }
    {
        &self.bytes
    }

    /// How often it has failed, as a number that stops at 2^64 - 1.
    pub fn faults(&self) -> u64
        ensures { result ≡ ⟦<MemSink as Sink>⟧.faults self.now }
    {
        self.plan.faults
    }
}

impl Sink for MemSink {
    ghost contents = { λ s. Some s.bytes.items };

    ghost faults = { λ s. s.plan.faults };

    fn write(&mut self, piece: &[u8]) -> Result<usize, Failed> {
        self.plan.call()?;
        if piece.len() > self.room - self.bytes.len().min(self.room) {
            return Err(self.plan.fault());
        }
        if self.bytes.extend_from_slice(piece).is_err() {
            prove!(false);
            return Err(self.plan.fault());
        }
        Ok(piece.len())
    }
}
