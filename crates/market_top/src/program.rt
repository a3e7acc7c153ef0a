// The calls of the program.
ghost use Rattle.std.specs.Prelude.{◌≡◌, true, false, map, string_bytes};
ghost use Rattle.memory_node.specs.declared.node.Label.{Label};
ghost use Rattle.market_top.specs.Command.{command_of, file_words, is_run};
ghost use Rattle.market_top.specs.Program.{Answered};
ghost use Rattle.market_top.specs.Verdict.{Told, unread};

use crate::auction::run_auction;
use crate::auditing::run_audit;
use crate::check::run_check;
use crate::command::{Command, command_of, is_run};
use crate::gateways::run_gateways;
use crate::made::{run_gen, run_made};
use crate::replay::run_replay;
use memory_node::Rack;
use mkt_io::{Gate, ReadFault, Shelf, Sink, WriteFault, write_all};
use std::alloc::Global;
use std::sync::Wait;
use std::thread::Threads;

/// The exit status of a call: 0 done, 1 the file is refused, 2 the words are refused, 3 the file was not
/// read, 4 a text was not written, 5 there was no memory, 6 done, but an issue is halted, 7 the text that is
/// audited is no report of the rules.
#[derive(Clone, Copy, Debug, PartialEq, Eq)]
pub struct Status(pub u8);

impl Status {
    pub const DONE: Status = Status(0);

    pub const REFUSED_FILE: Status = Status(1);

    pub const REFUSED_WORDS: Status = Status(2);

    pub const NOT_READ: Status = Status(3);

    pub const NOT_WRITTEN: Status = Status(4);

    pub const NO_MEMORY: Status = Status(5);

    /// All is done and written; an issue lost its last synchronised node.
    pub const HALTED: Status = Status(6);

    /// The text is no report of the rules.
    pub const NO_REPORT: Status = Status(7);
}

const USAGE: &str =
    "usage: auction FILE | check RULES | replay RULES SCRIPT | replay --gen NUMBER ORDERS RULES | run RULES SCRIPT | audit RULES REPORT | gen NUMBER ORDERS\n";

/// Does what the words ask for: reads from the shelf, writes the answer to `out` and a line for a refusal or a
/// fault to `err`. The nodes of a script's issues are taken from the rack, and are back in it before the first byte of the
/// report is written; want of memory may leave some out. The gateways of `run` pass the gate, each in a thread of its own, and wait for one
/// another: this call may wait.
pub fn run_market<T: Threads + Wait + Sync, F: Shelf, O: Sink, E: Sink, R: Rack, G: Gate + Sync>(
    rt: &T,
    alloc: Global,
    words: &[String],
    shelf: &mut F,
    out: &mut O,
    err: &mut E,
    rack: &mut R,
    gate: &G,
) -> Status
    requires names { F.names shelf.old ≡ file_words (map string_bytes words.now) }
    requires rack { (l : Label) → R.is_out rack.old l → ⊥ }
    ensures { Answered F.files F.faults O.contents O.faults E.contents E.faults
        (R.is_out rack.new) (R.given rack.new) (command_of (map string_bytes words.now))
        shelf.old out.old err.old shelf.new out.new err.new result.0 }
{
    if is_run(words) {
        run_threads(rt, alloc, words, shelf, out, err, rack, gate)
    } else {
        run_plain(alloc, words, shelf, out, err, rack)
    }
}

/// As `run_market`, for the command `run`. It may wait.
pub fn run_threads<T: Threads + Wait + Sync, F: Shelf, O: Sink, E: Sink, R: Rack, G: Gate + Sync>(
    rt: &T,
    alloc: Global,
    words: &[String],
    shelf: &mut F,
    out: &mut O,
    err: &mut E,
    rack: &mut R,
    gate: &G,
) -> Status
    requires names { F.names shelf.old ≡ file_words (map string_bytes words.now) }
    requires rack { (l : Label) → R.is_out rack.old l → ⊥ }
    requires run { is_run (command_of (map string_bytes words.now)) ≡ true }
    ensures { Answered F.files F.faults O.contents O.faults E.contents E.faults
        (R.is_out rack.new) (R.given rack.new) (command_of (map string_bytes words.now))
        shelf.old out.old err.old shelf.new out.new err.new result.0 }
{
    match command_of(words) {
        Some(Command::Run { rules, script }) => {
            run_gateways(rt, alloc, rules, script, shelf, out, err, rack, gate)
        }
        _ => unreachable!(),
    }
}

/// As `run_market`, for all words but the command `run`, refused ones too. It waits for nobody and always returns.
pub fn run_plain<F: Shelf, O: Sink, E: Sink, R: Rack>(
    alloc: Global,
    words: &[String],
    shelf: &mut F,
    out: &mut O,
    err: &mut E,
    rack: &mut R,
) -> Status
    requires names { F.names shelf.old ≡ file_words (map string_bytes words.now) }
    requires rack { (l : Label) → R.is_out rack.old l → ⊥ }
    requires plain { is_run (command_of (map string_bytes words.now)) ≡ false }
    ensures { Answered F.files F.faults O.contents O.faults E.contents E.faults
        (R.is_out rack.new) (R.given rack.new) (command_of (map string_bytes words.now))
        shelf.old out.old err.old shelf.new out.new err.new result.0 }
{
    match command_of(words) {
        Some(Command::Auction { file }) => run_auction(alloc, file, shelf, out, err),
        Some(Command::Check { rules }) => run_check(alloc, rules, shelf, out, err),
        Some(Command::Replay { rules, script }) => {
            run_replay(alloc, rules, script, shelf, out, err, rack)
        }
        Some(
            Command::ReplayMade {
                number,
                orders,
                rules,
            },
        ) => run_made(alloc, number, orders, rules, shelf, out, err, rack),
        Some(Command::Run { .. }) => unreachable!(),
        Some(Command::Audit { rules, report }) => run_audit(alloc, rules, report, shelf, out, err),
        Some(Command::Gen { number, orders }) => run_gen(number, orders, out),
        None => tell(err, USAGE, Status::REFUSED_WORDS),
    }
}

// Writes a text to standard error, and answers the status, or 4 where that fails.
pub(crate) fn tell<E: Sink>(err: &mut E, text: &str, status: Status) -> Status
    ensures { Told E.contents E.faults text.now status.0 err.old err.new result.0 }
{
    match write_all(err, text.as_bytes()) {
        Ok(()) => status,
        Err(WriteFault) => Status::NOT_WRITTEN,
    }
}

// Writes why there are no bytes of a file to standard error, and answers 3 or 5, or 4 where that fails.
pub(crate) fn tell_unread<E: Sink>(err: &mut E, fault: ReadFault) -> Status
    ensures { let v = unread fault in Told E.contents E.faults v.err v.status err.old err.new result.0 }
{
    match fault {
        ReadFault::Read => tell(err, "read\n", Status::NOT_READ),
        ReadFault::Memory => tell(err, "memory\n", Status::NO_MEMORY),
    }
}
