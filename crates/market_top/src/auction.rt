// The command `auction`: holds one auction over a file.
ghost use Rattle.std.specs.Prelude.{◌≡◌, ◌⊎◌, ◌≤◌, Ok, Contains};
ghost use Rattle.mkt_io.specs.Faults.{Rises};
ghost use Rattle.mkt_io.specs.Printed.{PrintsLines};
ghost use Rattle.mkt_io.specs.Sink.{Writes};
ghost use Rattle.auction_file.specs.AuctionFile.{Auction, IsSound};
ghost use Rattle.auction_file.specs.Meaning.{IsAlike, merged_of};
ghost use Rattle.market_top.specs.Auction.{IsAuctionVerdict, IsFileVerdict, fault_line};
ghost use Rattle.market_top.specs.Verdict.{Delivered, OnFile, Told, Verdict, no_memory};

use crate::program::{Status, tell, tell_unread};
use auction_check::CertificateFault;
use auction_file::AuctionFile;
use auction_report::write_certificate;
use level_auction::gather;
use mkt_io::{LineFault, Printer, Shelf, Sink, TextFault, WriteFault, read_whole};
use std::alloc::Global;

/// How many bytes a file may have; one more is read, and makes it too long.
const FILE_LIMIT: u64 = 101_000_000;

// Holds the auction of the file of this name.
pub(crate) fn run_auction<F: Shelf, O: Sink, E: Sink>(
    alloc: Global,
    name: &str,
    shelf: &mut F,
    out: &mut O,
    err: &mut E,
) -> Status
    requires { Contains (F.names shelf.old) name.now }
    ensures verdict { (v : Verdict)
        × OnFile 101000000 (F.files shelf.old) (Rises (F.faults shelf.old) (F.faults shelf.new)) name.now IsAuctionVerdict v
        × Delivered O.contents O.faults E.contents E.faults v out.old err.old out.new err.new result.0 }
    ensures count { F.faults shelf.old ≤ F.faults shelf.new }
{
    let bytes = match read_whole(alloc, shelf, name, FILE_LIMIT) {
        Ok(bytes) => bytes,
        Err(fault) => return tell_unread(err, fault),
    };
    match AuctionFile::read(alloc, &bytes) {
        Ok(file) => hold_auction(alloc, &file, out, err),
        Err(TextFault::At { line, fault }) => tell_fault(err, line, fault),
        Err(TextFault::Memory) => tell(err, "memory\n", Status::NO_MEMORY),
    }
}

// Gathers the certificate of an auction that was read, and writes it. The orders of a level stand together as one there, which answers
// as all of them do.
fn hold_auction<O: Sink, E: Sink>(
    alloc: Global,
    file: &AuctionFile,
    out: &mut O,
    err: &mut E,
) -> Status
    requires { IsSound (merged_of file.now) }
    ensures { (a : Auction) → IsAlike (merged_of file.now) a
        → (v : Verdict) × ((v ≡ no_memory) ⊎ IsFileVerdict (Ok a) v)
        × Delivered O.contents O.faults E.contents E.faults v out.old err.old out.new err.new result.0 }
{
    let Ok(grid) = file.grid.prices(alloc) else {
        return tell(err, "memory\n", Status::NO_MEMORY);
    };
    let prices = grid.as_slice();
    let certificate = match gather(alloc, &file.levels, prices, file.reference) {
        Ok(certificate) => certificate,
        Err(CertificateFault::Memory) => return tell(err, "memory\n", Status::NO_MEMORY),
    };
    match write_certificate(out, &certificate) {
        Ok(()) => Status::DONE,
        Err(WriteFault) => Status::NOT_WRITTEN,
    }
}

// Writes the line of a file's first fault to standard error, and answers 1, or 4 where that fails.
fn tell_fault<E: Sink>(err: &mut E, line: u32, fault: LineFault) -> Status
    ensures { Told E.contents E.faults (fault_line (line, fault)) 1 err.old err.new result.0 }
{
    match write_fault(err, line, fault) {
        Ok(()) => Status::REFUSED_FILE,
        Err(WriteFault) => Status::NOT_WRITTEN,
    }
}

// Writes the line of a file's first fault.
fn write_fault<E: Sink>(err: &mut E, line: u32, fault: LineFault) -> Result<(), WriteFault>
    ensures { Writes E.contents E.faults err.old (fault_line (line, fault)) err.new result }
{
    let mut printer = Printer::new(err);
    print_fault(&mut printer, line, fault);
    printer.finish()
}

// Prints the line of a file's first fault.
fn print_fault<E: Sink>(printer: &mut Printer<'_, E>, line: u32, fault: LineFault)
    ensures { PrintsLines E.contents E.faults printer.old printer.new (fault_line (line, fault)) }
{
    printer.word("auction");
    printer.number(u64::from(line));
    printer.number(u64::from(fault.number()));
    printer.line_end();
}
