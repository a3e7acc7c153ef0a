// The reads of boards, one line for each.
ghost use Rattle.std.specs.Prelude.{◌≡◌, ℕ, List, [], ◌∷◌, ◌++◌, codes, flat_map, All, OnErr};
ghost use Rattle.std.specs.Fmt.{decimal};
ghost use Rattle.mkt_base.specs.Certificate.{price_word};
ghost use Rattle.mkt_base.specs.ReportWords.{name_of, phase_word};
ghost use Rattle.mkt_io.specs.Faults.{Rises};
ghost use Rattle.mkt_io.specs.Printed.{Printed, PrintsLines, PrintsWords};
ghost use Rattle.rules_file.specs.Rules.{IsRules, codes_in};
ghost use Rattle.run_report.specs.Report.{IsNamed, caller_word, show_line, shown_quote};

use crate::lines::print_quote_words;
use crate::names::{caller_name, phase_name};
use auction_report::print_price;
use mkt_base::{Board, Quote, ShowLine};
use mkt_io::{Printer, Sink, WriteFault};
use rules_file::Rules;

/// Prints the reads of boards, one line for each in their order: the line of the script, the gateway, the issue, the journal's length in
/// entries, the phase, the last price, the best bid and ask, and the quote. They name issues and gateways of the rules. All lines are
/// handed to the printer in any case; a fault that it keeps is answered, and comes only where the sink failed since the printer was made.
pub fn print_shows<O: Sink>(
    rules: &Rules,
    shows: &[ShowLine],
    printer: &mut Printer<'_, O>,
) -> Result<(), WriteFault>
    requires rules { IsRules rules.now }
    requires named { All (IsNamed rules.now) shows.now }
    ensures printed { PrintsLines O.contents O.faults printer.old printer.new (flat_map (show_line rules.now) shows.now) }
    ensures cause { OnErr result ((from : O) (text : List ℕ) (words : List (List ℕ)) → Printed O.contents O.faults from text words printer.new
        → Rises (O.faults from) (O.faults printer.new.sink.now)) }
{
    print_all(rules, shows, printer);
    if printer.fault() {
        return Err(WriteFault);
    }
    Ok(())
}

fn print_all<O: Sink>(rules: &Rules, shows: &[ShowLine], printer: &mut Printer<'_, O>)
    requires rules { IsRules rules.now }
    requires named { All (IsNamed rules.now) shows.now }
    ensures { PrintsLines O.contents O.faults printer.old printer.new (flat_map (show_line rules.now) shows.now) }
{
    for show in shows {
        print_show(rules, show, printer);
    }
}

fn print_show<O: Sink>(rules: &Rules, show: &ShowLine, printer: &mut Printer<'_, O>)
    requires rules { IsRules rules.now }
    requires named { IsNamed rules.now show.now }
    ensures { PrintsLines O.contents O.faults printer.old printer.new (show_line rules.now show.now) }
{
    printer.word("show");
    printer.number(u64::from(show.line));
    printer.word(caller_name(rules, show.gateway));
    printer.word(rules.issue_name(show.issue));
    print_board(printer, &show.board);
    printer.line_end();
}

// What a board shows, but for its quote in one word.
fn print_board<O: Sink>(printer: &mut Printer<'_, O>, board: &Board)
    ensures { PrintsWords O.contents O.faults printer.old printer.new
        (decimal board.now.length ∷ phase_word board.now.phase ∷ decimal board.now.last.0 ∷ price_word board.now.bid ∷ price_word board.now.ask
        ∷ shown_quote board.now.quote) }
{
    printer.number(board.length);
    printer.word(phase_name(board.phase));
    printer.number(u64::from(board.last.0));
    print_price(printer, board.bid);
    print_price(printer, board.ask);
    print_quote(printer, &board.quote);
}

// The words of a quote, or a dash.
fn print_quote<O: Sink>(printer: &mut Printer<'_, O>, quote: &Option<Quote>)
    ensures { PrintsWords O.contents O.faults printer.old printer.new (shown_quote quote.now) }
{
    match quote {
        None => printer.word("-"),
        Some(quote) => print_quote_words(printer, quote),
    }
}
