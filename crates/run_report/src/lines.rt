// One function for each line of the report.
ghost use Rattle.std.specs.Prelude.{◌<◌, [], ◌∷◌, codes, length};
ghost use Rattle.std.specs.Fmt.{decimal};
ghost use Rattle.std.specs.Option.{option_map_or};
ghost use Rattle.mkt_base.specs.ReportWords.{moment_word, name_of, phase_word, quote_words};
ghost use Rattle.mkt_base.specs.Text.{line, time_text};
ghost use Rattle.mkt_io.specs.Printed.{PrintsLines, PrintsWords};
ghost use Rattle.rules_file.specs.Rules.{IsRules, issues_in, participants_in};
ghost use Rattle.run_report.specs.Issue.{totals_line, totals_words};
ghost use Rattle.run_report.specs.Report.{entry_line, halted_line, quote_line, reply_line, trade_line};

use crate::Totals;
use crate::events::{print_event, print_reply};
use crate::names::{caller_name, participant_name, phase_name, quote_kind_name, side_name};
use mkt_base::{Entry, Halt, Moment, Participant, Phase, Price, Quote, Reply, Trade};
use mkt_io::{Printer, Sink};
use rules_file::Rules;

// ---- an entry and its reply

pub(crate) fn print_entry_line<O: Sink>(printer: &mut Printer<'_, O>, rules: &Rules, entry: &Entry)
    requires { IsRules rules.now }
    ensures { PrintsLines O.contents O.faults printer.old printer.new (entry_line rules.now entry.now) }
{
    printer.number(entry.place);
    printer.word(caller_name(rules, entry.caller));
    printer.number(u64::from(entry.own));
    print_event(printer, rules, &entry.event);
    printer.line_end();
}

pub(crate) fn print_reply_line<O: Sink>(printer: &mut Printer<'_, O>, rules: &Rules, reply: &Reply)
    requires { IsRules rules.now }
    ensures { PrintsLines O.contents O.faults printer.old printer.new (reply_line rules.now reply.now) }
{
    printer.word("=");
    print_reply(printer, rules, reply);
    printer.line_end();
}

// The event that an issue could not record any more, where there is one.
pub(crate) fn print_halted<O: Sink>(
    printer: &mut Printer<'_, O>,
    rules: &Rules,
    halt: &Option<Halt>,
)
    requires { IsRules rules.now }
    ensures { PrintsLines O.contents O.faults printer.old printer.new (halted_line rules.now halt.now) }
{
    if let Some(halt) = halt {
        printer.word("halted");
        printer.word(caller_name(rules, halt.caller));
        printer.number(u64::from(halt.own));
        print_event(printer, rules, &halt.event);
        printer.line_end();
    }
}

// What an issue adds up to.
pub(crate) fn print_totals<O: Sink>(
    printer: &mut Printer<'_, O>,
    rules: &Rules,
    issue: u16,
    totals: &Totals,
)
    requires rules { IsRules rules.now }
    requires number { issue < length (issues_in rules.now) }
    ensures { PrintsLines O.contents O.faults printer.old printer.new (totals_line rules.now issue totals.now) }
{
    printer.word("total");
    printer.word(rules.issue_name(issue));
    print_sums(printer, totals);
    printer.line_end();
}

fn print_sums<O: Sink>(printer: &mut Printer<'_, O>, totals: &Totals)
    ensures { PrintsWords O.contents O.faults printer.old printer.new (totals_words totals.now) }
{
    printer.word("entries");
    printer.number(totals.entries);
    printer.word("trades");
    printer.number(totals.trades);
    printer.word("shares");
    printer.number(totals.shares);
    printer.word("last");
    printer.number(u64::from(totals.last.0));
}

// ---- outputs

pub(crate) fn print_due<O: Sink>(printer: &mut Printer<'_, O>, at: Moment)
    ensures { PrintsLines O.contents O.faults printer.old printer.new (line (codes "due" ∷ time_text at ∷ [])) }
{
    printer.word("due");
    printer.moment(at);
    printer.line_end();
}

pub(crate) fn print_phase<O: Sink>(printer: &mut Printer<'_, O>, phase: Phase)
    ensures { PrintsLines O.contents O.faults printer.old printer.new (line (codes "phase" ∷ phase_word phase ∷ [])) }
{
    printer.word("phase");
    printer.word(phase_name(phase));
    printer.line_end();
}

pub(crate) fn print_auction<O: Sink>(
    printer: &mut Printer<'_, O>,
    reference: Price,
    lo: Price,
    hi: Price,
)
    ensures { PrintsLines O.contents O.faults printer.old printer.new
        (line (codes "auction" ∷ decimal reference.0 ∷ decimal lo.0 ∷ decimal hi.0 ∷ [])) }
{
    printer.word("auction");
    printer.number(u64::from(reference.0));
    printer.number(u64::from(lo.0));
    printer.number(u64::from(hi.0));
    printer.line_end();
}

pub(crate) fn print_share<O: Sink>(
    printer: &mut Printer<'_, O>,
    rules: &Rules,
    participant: Participant,
    qty: u64,
)
    requires { IsRules rules.now }
    ensures { PrintsLines O.contents O.faults printer.old printer.new
        (line (codes "share" ∷ name_of (participants_in rules.now) participant.0 ∷ decimal qty ∷ [])) }
{
    printer.word("share");
    printer.word(participant_name(rules, participant));
    printer.number(qty);
    printer.line_end();
}

pub(crate) fn print_trade<O: Sink>(printer: &mut Printer<'_, O>, trade: Trade)
    ensures { PrintsLines O.contents O.faults printer.old printer.new (trade_line trade) }
{
    printer.word("trade");
    printer.number(u64::from(trade.price.0));
    printer.number(trade.qty);
    printer.number(trade.buy);
    printer.number(trade.sell);
    printer.line_end();
}

pub(crate) fn print_quote<O: Sink>(printer: &mut Printer<'_, O>, quote: &Option<Quote>)
    ensures { PrintsLines O.contents O.faults printer.old printer.new (quote_line quote.now) }
{
    printer.word("quote");
    print_shown(printer, quote);
    printer.line_end();
}

// The words of a quote, or that there is none.
fn print_shown<O: Sink>(printer: &mut Printer<'_, O>, quote: &Option<Quote>)
    ensures { PrintsWords O.contents O.faults printer.old printer.new
        (option_map_or quote_words quote.now (codes "none" ∷ [])) }
{
    match quote {
        None => printer.word("none"),
        Some(quote) => print_quote_words(printer, quote),
    }
}

// The kind of a quote, its side, its price, and when it is due.
pub(crate) fn print_quote_words<O: Sink>(printer: &mut Printer<'_, O>, quote: &Quote)
    ensures { PrintsWords O.contents O.faults printer.old printer.new (quote_words quote.now) }
{
    printer.word(quote_kind_name(quote.kind));
    printer.word(side_name(quote.side));
    printer.number(u64::from(quote.price.0));
    print_moment(printer, &quote.due);
}

// A moment, or a dash where there is none.
fn print_moment<O: Sink>(printer: &mut Printer<'_, O>, at: &Option<Moment>)
    ensures { PrintsWords O.contents O.faults printer.old printer.new (moment_word at.now ∷ []) }
{
    match at {
        None => printer.word("-"),
        Some(at) => printer.moment(*at),
    }
}
