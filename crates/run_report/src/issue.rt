// What is printed of one issue.
ghost use Rattle.std.specs.Prelude.{◌≡◌, ◌+◌, ◌<◌, ◌≤◌, ◌++◌, [], ◌∷◌, codes, flat_map, length, map, slice_get, true, IfOk, IfSome, OnErr, OnOk};
ghost use Rattle.mkt_base.specs.ReportWords.{node_state_word};
ghost use Rattle.mkt_io.specs.Printed.{PrintsLines, PrintsWords, has_fault};
ghost use Rattle.rules_file.specs.Rules.{IsRules, issues_in};
ghost use Rattle.issue_book.specs.IssueView.{terms_of};
ghost use Rattle.issue_machine.specs.Journal.{AreEntries, MayStep, stepped};
ghost use Rattle.issue_machine.specs.Step.{replay, state_from};
ghost use Rattle.run_report.specs.Issue.{HadMemory, PrintsFront, done_of, totals_on};
ghost use Rattle.run_report.specs.Report.{IsEnded, done_text, halted_line, issue_text, nodes_at_end, nodes_line, trades_of};
ghost use Rattle.run_report.specs.Watched.{Counted, Shown, ShownLines};

use crate::names::node_state_name;
use crate::sound::SoundRules;
use crate::tally::Tally;
use crate::watch::PrintWatch;
use crate::{ReportFault, Totals, lines};
use issue_machine::{Machine, history_is_journal};
use mkt_base::{Entry, Halt, NODES, NodeNo, NodeState};
use mkt_io::{Printer, Sink, WriteFault};
use rules_file::Rules;
use std::alloc::Global;

/// Prints the part of an issue, by its number: its line, each entry of its journal with its outputs and its reply, what halted it,
/// the states of its nodes and its totals. `Memory` comes where there is no memory for the issue's machine, before anything is
/// printed, and where its trades or shares pass a u64, before the line of its totals. `Write` comes only where the printer keeps a
/// fault: it is looked for behind each entry, and no entry is done after it. A printer that keeps a fault writes nothing more, so all
/// of the part counts as handed to it then.
pub fn print_issue<O: Sink>(
    alloc: Global,
    rules: &Rules,
    issue: u16,
    journal: &[Entry],
    halt: Option<Halt>,
    printer: &mut Printer<'_, O>,
) -> Result<Totals, ReportFault>
    requires rules { IsRules rules.now }
    requires number { issue < length (issues_in rules.now) }
    requires ended { IsEnded rules.now (record { journal = journal.now; halt = halt }) }
    ensures front { PrintsFront O.contents O.faults printer.old printer.new
        (issue_text rules.now issue (record { journal = journal.now; halt = halt })) }
    ensures whole { HadMemory result → PrintsLines O.contents O.faults printer.old printer.new
        (issue_text rules.now issue (record { journal = journal.now; halt = halt })) }
    ensures totals { IfOk result (λ totals. IfSome (slice_get (issues_in rules.now) issue)
        (λ r. totals ≡ totals_on (terms_of rules.now r) (record { journal = journal.now; halt = halt }))) }
    ensures failed { result ≡ Err ReportFault.Write → has_fault printer.new ≡ true }
{
    history_is_journal();
    let entries = journal.len() as u64;
    let Ok(mut machine) = Machine::make(alloc, rules, issue, entries) else {
        return Err(ReportFault::Memory);
    };
    rules_report::print_issue(printer, rules, issue);
    let Ok(tally) = print_journal(printer, rules, &mut machine, journal) else {
        return Err(ReportFault::Write);
    };
    print_end(printer, rules, &machine, &halt);
    if tally.passed {
        return Err(ReportFault::Memory);
    }
    let totals = Totals {
        entries,
        trades: tally.trades,
        shares: tally.shares,
        last: machine.board().last,
    };
    lines::print_totals(printer, rules, issue, &totals);
    Ok(totals)
}

// The entries of a journal, with what they do. After a fault, which the printer keeps, no entry more is done.
fn print_journal<O: Sink>(
    printer: &mut Printer<'_, O>,
    rules: &Rules,
    machine: &mut Machine,
    journal: &[Entry],
) -> Result<Tally, WriteFault>
    requires rules { IsRules rules.now }
    requires room { machine.old.issue.state.entries + length journal.now ≤ machine.old.issue.capacity }
    requires entries { AreEntries machine.old.participants machine.old.issue.state.entries machine.old.next_own journal.now }
    ensures printed { PrintsLines O.contents O.faults printer.old printer.new
        (flat_map (done_text rules.now) (replay machine.old.issue.terms machine.old.issue.state journal.now)) }
    ensures counted { IfOk result (Counted Tally.NONE
        (trades_of (replay machine.old.issue.terms machine.old.issue.state journal.now))) }
    ensures state { OnOk result
        (machine.new.issue.state ≡ state_from machine.old.issue.terms journal.now machine.old.issue.state) }
    ensures failed { OnErr result (has_fault printer.new ≡ true) }
{
    let sound = SoundRules::new(rules);
    let mut watch = PrintWatch {
        printer,
        rules: &sound,
        tally: Tally::NONE,
    };
    match step_all(machine, journal, &mut watch) {
        Ok(()) => Ok(watch.tally),
        Err(WriteFault) => Err(WriteFault),
    }
}

// Does the entries of a journal, one after another, until the printer keeps a fault.
fn step_all<O: Sink>(
    machine: &mut Machine,
    journal: &[Entry],
    watch: &mut PrintWatch<'_, '_, '_, O>,
) -> Result<(), WriteFault>
    requires room { machine.old.issue.state.entries + length journal.now ≤ machine.old.issue.capacity }
    requires entries { AreEntries machine.old.participants machine.old.issue.state.entries machine.old.next_own journal.now }
    ensures shown { ShownLines O.contents O.faults watch.old (flat_map (done_text watch.old.rules.now)
        (replay machine.old.issue.terms machine.old.issue.state journal.now)) watch.new }
    ensures counted { OnOk result (Counted watch.old.tally
        (trades_of (replay machine.old.issue.terms machine.old.issue.state journal.now)) watch.new.tally) }
    ensures state { OnOk result
        (machine.new.issue.state ≡ state_from machine.old.issue.terms journal.now machine.old.issue.state) }
    ensures failed { OnErr result (has_fault watch.new.printer.now ≡ true) }
{
    for entry in journal {
        step_one(machine, entry, watch);
        if watch.printer.fault() {
            return Err(WriteFault);
        }
    }
    Ok(())
}

// Does an entry: its line, its outputs, and its reply.
fn step_one<O: Sink>(machine: &mut Machine, entry: &Entry, watch: &mut PrintWatch<'_, '_, '_, O>)
    requires { MayStep machine.old entry.now }
    ensures shown { Shown O.contents O.faults watch.old (done_text watch.old.rules.now (done_of machine.old entry.now))
        (trades_of (done_of machine.old entry.now ∷ [])) watch.new }
    ensures state { machine.new ≡ stepped machine.old entry.now }
    ensures count { machine.new.issue.state.entries ≡ machine.old.issue.state.entries + 1 }
{
    watch.entry(entry);
    let reply = machine.step(entry, watch);
    watch.reply(&reply);
}

// What halted an issue, and the states of its nodes.
fn print_end<O: Sink>(
    printer: &mut Printer<'_, O>,
    rules: &Rules,
    machine: &Machine,
    halt: &Option<Halt>,
)
    requires { IsRules rules.now }
    ensures { PrintsLines O.contents O.faults printer.old printer.new
        (halted_line rules.now halt.now ++ nodes_line (nodes_at_end halt.now machine.now.issue.state)) }
{
    lines::print_halted(printer, rules, halt);
    printer.word("nodes");
    print_nodes(printer, machine, halt);
    printer.line_end();
}

// The states of the nodes.
fn print_nodes<O: Sink>(printer: &mut Printer<'_, O>, machine: &Machine, halt: &Option<Halt>)
    ensures { PrintsWords O.contents O.faults printer.old printer.new
        (map node_state_word (nodes_at_end halt.now machine.now.issue.state)) }
{
    for n in 0..NODES {
        printer.word(node_state_name(state_at_end(machine, halt, n)));
    }
}

// The state of a node: all are lost where the issue is halted.
fn state_at_end(machine: &Machine, halt: &Option<Halt>, n: u8) -> NodeState
    requires { n < 3 }
    ensures state { slice_get (nodes_at_end halt.now machine.now.issue.state) n ≡ Some result }
    ensures three { length (nodes_at_end halt.now machine.now.issue.state) ≡ 3 }
{
    let Some(node) = NodeNo::new(n) else {
        unreachable!()
    };
    match halt {
        None => machine.node(node),
        Some(_) => NodeState::Lost,
    }
}
