// The line of a rules file's first fault.
ghost use Rattle.std.specs.Prelude.{[], ◌∷◌};
ghost use Rattle.std.specs.Fmt.{decimal};
ghost use Rattle.mkt_io.specs.Printed.{PrintsLines, PrintsWords};
ghost use Rattle.mkt_io.specs.Sink.{Writes};
ghost use Rattle.rules_report.specs.FaultLine.{fault_details, fault_line, fault_words};

use mkt_io::{Printer, Sink, WriteFault};
use rules_file::RulesFault;

/// Writes the line of a fault: `rules`, its number and what it names; for want of memory the word `memory`.
pub fn write_fault<E: Sink>(err: &mut E, fault: &RulesFault) -> Result<(), WriteFault>
    ensures { Writes E.contents E.faults err.old (fault_line fault.now) err.new result }
{
    let mut printer = Printer::new(err);
    print_fault(&mut printer, fault);
    printer.finish()
}

/// Prints the line of a fault.
pub fn print_fault<E: Sink>(printer: &mut Printer<'_, E>, fault: &RulesFault)
    ensures { PrintsLines E.contents E.faults printer.old printer.new (fault_line fault.now) }
{
    print_words(printer, fault);
    printer.line_end();
}

fn print_words<E: Sink>(printer: &mut Printer<'_, E>, fault: &RulesFault)
    ensures { PrintsWords E.contents E.faults printer.old printer.new (fault_words fault.now) }
{
    match fault.number() {
        Some(number) => {
            printer.word("rules");
            printer.number(u64::from(number));
            print_details(printer, fault);
        }
        None => printer.word("memory"),
    }
}

// Prints what a fault names.
fn print_details<E: Sink>(printer: &mut Printer<'_, E>, fault: &RulesFault)
    ensures { PrintsWords E.contents E.faults printer.old printer.new (fault_details fault.now) }
{
    match fault {
        RulesFault::NotToml | RulesFault::Memory => {}
        RulesFault::MissingKey(name)
        | RulesFault::BadNumber(name)
        | RulesFault::OffTick(name)
        | RulesFault::Twice(name) => printer.word(name.as_str()),
        RulesFault::BadPhases(row) | RulesFault::BadRounds(row) => {
            printer.number(u64::from(*row));
        }
        RulesFault::RowsOutOfOrder(key, row) => print_counted(
            printer,
            key.as_str(),
            u64::from(*row),
        ),
        RulesFault::GridTooLarge(name, n) | RulesFault::TooMany(name, n) => {
            print_counted(printer, name.as_str(), *n);
        }
    }
}

// Prints a name and a number.
fn print_counted<E: Sink>(printer: &mut Printer<'_, E>, name: &str, n: u64)
    ensures { PrintsWords E.contents E.faults printer.old printer.new (name.now ∷ decimal n ∷ []) }
{
    printer.word(name);
    printer.number(n);
}
