//! The program `market`: does what its words ask for, over the files that they name.
#![tactic(auto)]

use market_top::{Status, file_words, run_market};
use memory_node::MemRack;
use mkt_io::{FileShelf, NoGate, Sink, StdSink, WriteFault, write_all};
use std::env::{self, Env};
use std::io::ErrorKind;
use std::process::ExitCode;

fn main(rt: HostRuntime) -> ExitCode {
    let mut out = StdSink::new(rt.stdout());
    let mut err = StdSink::new(rt.stderr());
    let words = match words_of(&rt) {
        Ok(words) => words,
        // No command has no words, so the usage line is written.
        Err(WordsError::NotText) => Vec::new(rt.alloc()),
        Err(WordsError::Memory) => return no_memory(&mut err),
    };
    // No call of a node fails.
    let Ok(mut rack) = MemRack::make(rt.alloc(), Vec::new(rt.alloc())) else {
        return no_memory(&mut err);
    };
    let mut shelf = FileShelf::new(&rt, file_words(&words));
    let status = run_market(
        &rt,
        rt.alloc(),
        &words,
        &mut shelf,
        &mut out,
        &mut err,
        &mut rack,
        &NoGate,
    );
    ExitCode::from(status.0)
}

// Writes that there is no memory, and ends with 5, or with 4 where that fails.
fn no_memory<E: Sink>(err: &mut E) -> ExitCode {
    let status = match write_all(err, b"memory\n") {
        Ok(()) => Status::NO_MEMORY,
        Err(WriteFault) => Status::NOT_WRITTEN,
    };
    ExitCode::from(status.0)
}

/// Why there are no words.
#[derive(Clone, Copy)]
enum WordsError {
    /// A word is no UTF-8 text.
    NotText,
    /// There is no memory for them.
    Memory,
}

// The words after the program's name.
fn words_of<R: Env + AllocGlobal>(rt: &R) -> Result<Vec<String>, WordsError> {
    match env::args(rt) {
        Ok(args) => args
            .skip(1)
            .collect(rt.alloc())
            .map_err(|_| WordsError::Memory),
        Err(e) if e.kind() == ErrorKind::OutOfMemory => Err(WordsError::Memory),
        Err(_) => Err(WordsError::NotText),
    }
}
