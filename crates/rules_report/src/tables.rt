// The tables of a rules file: its issues, its sessions and its rounds.
ghost use Rattle.std.specs.Prelude.{◌<◌, [], ◌∷◌, ℕ, List, codes, length, flat_map};
ghost use Rattle.allotment.specs.Rounds.{round_words};
ghost use Rattle.mkt_base.specs.Text.{line};
ghost use Rattle.mkt_io.specs.Printed.{PrintsLines, PrintsWords};
ghost use Rattle.mkt_io.specs.Sink.{Writes};
ghost use Rattle.rules_file.specs.Rules.{IsRules, issues_in};
ghost use Rattle.rules_report.specs.Tables.{issue_line, issue_lines, issue_words, round_line, session_line, tables_text};

use allotment::Round;
use mkt_io::{Printer, Sink, WriteFault};
use rules_file::{IssueRules, Rules};
use session_phase::Session;

/// Writes the tables: a line for each issue, each session and each round, in file order, and `end`.
pub fn write_tables<O: Sink>(out: &mut O, rules: &Rules) -> Result<(), WriteFault>
    requires { IsRules rules.now }
    ensures { Writes O.contents O.faults out.old (tables_text rules.now) out.new result }
{
    let mut printer = Printer::new(out);
    print_tables(&mut printer, rules);
    printer.finish()
}

/// Prints the tables.
pub fn print_tables<O: Sink>(printer: &mut Printer<'_, O>, rules: &Rules)
    requires { IsRules rules.now }
    ensures { PrintsLines O.contents O.faults printer.old printer.new (tables_text rules.now) }
{
    print_issues(printer, rules);
    print_rows(printer, rules.sessions.as_slice());
    print_rows(printer, rules.rounds.as_slice());
    print_end(printer);
}

fn print_end<O: Sink>(printer: &mut Printer<'_, O>)
    ensures { PrintsLines O.contents O.faults printer.old printer.new (line (codes "end" ∷ [])) }
{
    printer.word("end");
    printer.line_end();
}

fn print_issues<O: Sink>(printer: &mut Printer<'_, O>, rules: &Rules)
    requires { IsRules rules.now }
    ensures { PrintsLines O.contents O.faults printer.old printer.new (issue_lines rules.now) }
{
    for i in 0..rules.issues() {
        print_issue(printer, rules, i);
    }
}

/// Prints the line of an issue, by its number.
pub fn print_issue<O: Sink>(printer: &mut Printer<'_, O>, rules: &Rules, i: u16)
    requires rules { IsRules rules.now }
    requires number { i < length (issues_in rules.now) }
    ensures { PrintsLines O.contents O.faults printer.old printer.new (issue_line rules.now i) }
{
    let issue = rules.issue(i);
    printer.word("issue");
    printer.word(rules.issue_name(i));
    print_issue_words(printer, issue);
    printer.line_end();
}

// What is printed of an issue behind its code.
fn print_issue_words<O: Sink>(printer: &mut Printer<'_, O>, issue: IssueRules)
    ensures { PrintsWords O.contents O.faults printer.old printer.new (issue_words issue) }
{
    printer.word("base");
    printer.number(u64::from(issue.base.0));
    printer.word("unit");
    printer.number(u64::from(issue.unit));
    printer.word("low");
    printer.number(u64::from(issue.low.0));
    printer.word("high");
    printer.number(u64::from(issue.high.0));
    printer.word("prices");
    printer.number(u64::from(issue.prices));
}

// A row of a table that has a line of its own.
trait Row: Sized {
    // Its line.
    ghost text: { Self → List ℕ };

    fn print<O: Sink>(&self, printer: &mut Printer<'_, O>)
        ensures { PrintsLines O.contents O.faults printer.old printer.new (text self.now) };
}

fn print_rows<R: Row, O: Sink>(printer: &mut Printer<'_, O>, rows: &[R])
    ensures { PrintsLines O.contents O.faults printer.old printer.new (flat_map R.text rows.now) }
{
    for row in rows {
        row.print(printer);
    }
}

impl Row for Session {
    ghost text = { session_line };

    fn print<O: Sink>(&self, printer: &mut Printer<'_, O>) {
        printer.word("session");
        printer.moment(self.accept);
        printer.moment(self.begin);
        printer.moment(self.finish);
        printer.line_end();
    }
}

impl Row for Round {
    ghost text = { round_line };

    fn print<O: Sink>(&self, printer: &mut Printer<'_, O>) {
        printer.word("round");
        print_round_words(printer, *self);
        printer.line_end();
    }
}

fn print_round_words<O: Sink>(printer: &mut Printer<'_, O>, round: Round)
    ensures { PrintsWords O.contents O.faults printer.old printer.new (round_words round) }
{
    match round {
        Round::Units(k) => {
            printer.word("units");
            printer.number(u64::from(k));
        }
        Round::Part { n, d } => {
            printer.word("part");
            printer.number(u64::from(n));
            printer.number(u64::from(d));
        }
        Round::All => printer.word("all"),
    }
}
