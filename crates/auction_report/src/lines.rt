// One function for each line of a certificate.
ghost use Rattle.std.specs.Prelude.{◌≡◌, [], ◌∷◌};
ghost use Rattle.mkt_base.specs.Certificate.{outcome_line, price_word, rejected_line, side_word, sum_words};
ghost use Rattle.mkt_io.specs.Printed.{PrintsLines, PrintsWords};

use mkt_base::{Outcome, Price, Side, Sums};
use mkt_io::{Printer, Sink};

/// Prints the line of a price that is ruled out.
pub fn print_rejected<O: Sink>(printer: &mut Printer<'_, O>, sums: &Sums)
    ensures { PrintsLines O.contents O.faults printer.old printer.new (rejected_line sums.now) }
{
    printer.word("rejected");
    printer.number(u64::from(sums.price.0));
    print_sums(printer, sums);
    printer.line_end();
}

/// Prints the line of an outcome.
pub fn print_outcome<O: Sink>(printer: &mut Printer<'_, O>, outcome: &Outcome)
    ensures { PrintsLines O.contents O.faults printer.old printer.new (outcome_line outcome.now) }
{
    match outcome {
        Outcome::Traded { volume, sums } => print_traded(printer, *volume, sums),
        Outcome::Calm { bid, ask } => print_calm(printer, *bid, *ask),
        Outcome::Pressed {
            side,
            price,
            pressing,
            facing,
        } => print_pressed(printer, *side, *price, *pressing, *facing),
    }
}

// The line of a price at which the auction trades.
fn print_traded<O: Sink>(printer: &mut Printer<'_, O>, volume: u64, sums: &Sums)
    ensures { PrintsLines O.contents O.faults printer.old printer.new (outcome_line (Outcome.Traded volume sums.now)) }
{
    printer.word("price");
    printer.number(u64::from(sums.price.0));
    printer.number(volume);
    print_sums(printer, sums);
    printer.line_end();
}

// The line of a calm book.
fn print_calm<O: Sink>(printer: &mut Printer<'_, O>, bid: Option<Price>, ask: Option<Price>)
    ensures { PrintsLines O.contents O.faults printer.old printer.new (outcome_line (Outcome.Calm bid ask)) }
{
    printer.word("calm");
    print_price(printer, bid);
    print_price(printer, ask);
    printer.line_end();
}

// The line of a side that presses.
fn print_pressed<O: Sink>(
    printer: &mut Printer<'_, O>,
    side: Side,
    price: Price,
    pressing: u64,
    facing: u64,
)
    ensures { PrintsLines O.contents O.faults printer.old printer.new
        (outcome_line (Outcome.Pressed side price pressing facing)) }
{
    printer.word("pressed");
    print_side(printer, side);
    printer.number(u64::from(price.0));
    printer.number(pressing);
    printer.number(facing);
    printer.line_end();
}

// The four sums, as words.
fn print_sums<O: Sink>(printer: &mut Printer<'_, O>, sums: &Sums)
    ensures { PrintsWords O.contents O.faults printer.old printer.new (sum_words sums.now) }
{
    printer.number(sums.buys);
    printer.number(sums.above);
    printer.number(sums.sells);
    printer.number(sums.below);
}

/// Prints a price, in tenths of a yen, or a dash where there is none.
pub fn print_price<O: Sink>(printer: &mut Printer<'_, O>, price: Option<Price>)
    ensures { PrintsWords O.contents O.faults printer.old printer.new (price_word price ∷ []) }
{
    match price {
        None => printer.word("-"),
        Some(price) => printer.number(u64::from(price.0)),
    }
}

fn print_side<O: Sink>(printer: &mut Printer<'_, O>, side: Side)
    ensures { PrintsWords O.contents O.faults printer.old printer.new (side_word side ∷ []) }
{
    match side {
        Side::Buy => printer.word("buy"),
        Side::Sell => printer.word("sell"),
    }
}
