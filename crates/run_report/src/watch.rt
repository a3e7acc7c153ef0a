// The watch that prints what an issue puts out.
ghost use Rattle.std.specs.Prelude.{[]};

use crate::lines;
use crate::sound::SoundRules;
use crate::tally::Tally;
use auction_report::{print_outcome, print_rejected};
use mkt_base::{
    Entry, Moment, Outcome, Participant, Phase, Price, Quote, Reply, Sums, Trade, Watch,
};
use mkt_io::{Printer, Sink};
use rules_file::Rules;

// Prints each output as a line under the names of the rules, and counts the trades.
#[derive(Drop)]
pub(crate) struct PrintWatch<'a, 'b, 'r, O: Sink> {
    pub(crate) printer: &'a mut Printer<'b, O>,
    pub(crate) rules: &'r SoundRules<'r>,
    pub(crate) tally: Tally,
}

impl<'a, 'b, 'r, O: Sink> PrintWatch<'a, 'b, 'r, O> {
    ghost use Rattle.run_report.specs.Report.{entry_line, reply_line};
    ghost use Rattle.run_report.specs.Watched.{Shown};

    // Prints the line of an entry.
    pub(crate) fn entry(&mut self, entry: &Entry)
        ensures { Shown O.contents O.faults self.old (entry_line self.old.rules.now entry.now) [] self.new }
    {
        lines::print_entry_line(self.printer, self.rules.get(), entry);
    }

    // Prints the line of a reply.
    pub(crate) fn reply(&mut self, reply: &Reply)
        ensures { Shown O.contents O.faults self.old (reply_line self.old.rules.now reply.now) [] self.new }
    {
        lines::print_reply_line(self.printer, self.rules.get(), reply);
    }
}

impl<'a, 'b, 'r, O: Sink> Watch for PrintWatch<'a, 'b, 'r, O> {
    ghost use Rattle.std.specs.Prelude.{None};
    ghost use Rattle.std.proofs.Common.{rules};
    ghost use Rattle.run_report.specs.Watched.{ShownOutputs, nothing_shown};

    ghost told = { λ _. None };

    ghost faults = { λ _. 0 };

    ghost took = { λ from outputs w. ShownOutputs O.contents O.faults from outputs w };

    ghost begins = { λ w. nothing_shown };

    ghost stands = { Prim.search rules };

    fn due(&mut self, at: Moment) {
        lines::print_due(self.printer, at);
    }

    fn phase(&mut self, phase: Phase) {
        lines::print_phase(self.printer, phase);
    }

    fn auction(&mut self, reference: Price, lo: Price, hi: Price) {
        lines::print_auction(self.printer, reference, lo, hi);
    }

    fn rejected(&mut self, sums: Sums) {
        print_rejected(self.printer, &sums);
    }

    fn outcome(&mut self, outcome: Outcome) {
        print_outcome(self.printer, &outcome);
    }

    fn share(&mut self, participant: Participant, qty: u64) {
        lines::print_share(self.printer, self.rules.get(), participant, qty);
    }

    fn trade(&mut self, trade: Trade) {
        lines::print_trade(self.printer, trade);
        self.tally.add(trade);
    }

    fn quote(&mut self, quote: Option<Quote>) {
        lines::print_quote(self.printer, &quote);
    }
}
