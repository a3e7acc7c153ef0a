// The certificate of an attempt.
ghost use Rattle.std.specs.Prelude.{◌≡◌, flat_map};
ghost use Rattle.mkt_base.specs.Certificate.{certificate_text, rejected_line};
ghost use Rattle.mkt_io.specs.Printed.{PrintsLines};
ghost use Rattle.mkt_io.specs.Sink.{Writes};
ghost use Rattle.auction_report.specs.Shown.{shown};

use crate::lines::{print_outcome, print_rejected};
use auction_check::Certificate;
use mkt_base::Sums;
use mkt_io::{Printer, Sink, WriteFault};

/// Writes a certificate: each price that it rules out with its sums, the nearest first, and then the outcome's line.
pub fn write_certificate<O: Sink>(out: &mut O, certificate: &Certificate) -> Result<(), WriteFault>
    ensures { Writes O.contents O.faults out.old (certificate_text (shown certificate.now)) out.new result }
{
    let mut printer = Printer::new(out);
    print_certificate(&mut printer, certificate);
    printer.finish()
}

/// Prints a certificate.
pub fn print_certificate<O: Sink>(printer: &mut Printer<'_, O>, certificate: &Certificate)
    ensures { PrintsLines O.contents O.faults printer.old printer.new (certificate_text (shown certificate.now)) }
{
    print_nearer(printer, certificate.rejected.as_slice());
    print_outcome(printer, &certificate.outcome);
}

// Prints the prices that are ruled out.
fn print_nearer<O: Sink>(printer: &mut Printer<'_, O>, rejected: &[Sums])
    ensures { PrintsLines O.contents O.faults printer.old printer.new (flat_map rejected_line rejected.now) }
{
    for sums in rejected {
        print_rejected(printer, sums);
    }
}
