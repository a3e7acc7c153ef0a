// The command `check`: prints the tables of a rules file.
ghost use Rattle.std.specs.Prelude.{◌≡◌, ◌≤◌, Contains};
ghost use Rattle.mkt_io.specs.Faults.{Rises};
ghost use Rattle.rules_file.specs.Rules.{IsRules};
ghost use Rattle.rules_report.specs.Tables.{tables_text};
ghost use Rattle.market_top.specs.Check.{IsCheckVerdict, no_rules};
ghost use Rattle.market_top.specs.Verdict.{Delivered, OnFile, Told, Verdict};

use crate::program::{Status, tell_unread};
use mkt_io::{Shelf, Sink, WriteFault, read_whole};
use rules_file::{Rules, RulesFault, read_rules};
use rules_report::{write_fault, write_tables};
use std::alloc::Global;

/// How many bytes a rules file may have; one more is read, and makes it too long.
pub(crate) const RULES_LIMIT: u64 = 1_048_576;

// Prints the tables of the rules file of this name.
pub(crate) fn run_check<F: Shelf, O: Sink, E: Sink>(
    alloc: Global,
    name: &str,
    shelf: &mut F,
    out: &mut O,
    err: &mut E,
) -> Status
    requires { Contains (F.names shelf.old) name.now }
    ensures verdict { (v : Verdict)
        × OnFile 1048576 (F.files shelf.old) (Rises (F.faults shelf.old) (F.faults shelf.new)) name.now IsCheckVerdict v
        × Delivered O.contents O.faults E.contents E.faults v out.old err.old out.new err.new result.0 }
    ensures count { F.faults shelf.old ≤ F.faults shelf.new }
{
    let bytes = match read_whole(alloc, shelf, name, RULES_LIMIT) {
        Ok(bytes) => bytes,
        Err(fault) => return tell_unread(err, fault),
    };
    match read_rules(alloc, &bytes) {
        Ok(rules) => print_rules(out, rules),
        Err(fault) => tell_no_rules(err, &fault),
    }
}

// Prints the tables to standard output, and answers 0, or 4 where that fails.
fn print_rules<O: Sink>(out: &mut O, rules: Rules) -> Status
    requires { IsRules rules }
    ensures { Told O.contents O.faults (tables_text rules) 0 out.old out.new result.0 }
{
    match write_tables(out, &rules) {
        Ok(()) => Status::DONE,
        Err(WriteFault) => Status::NOT_WRITTEN,
    }
}

// Writes why there are no rules to standard error, and answers 1 or 5, or 4 where that fails.
pub(crate) fn tell_no_rules<E: Sink>(err: &mut E, fault: &RulesFault) -> Status
    ensures { let v = no_rules fault.now in Told E.contents E.faults v.err v.status err.old err.new result.0 }
{
    match write_fault(err, fault) {
        Ok(()) => status_of(fault),
        Err(WriteFault) => Status::NOT_WRITTEN,
    }
}

fn status_of(fault: &RulesFault) -> Status
    ensures { result.0 ≡ (no_rules fault.now).status }
{
    match fault.number() {
        Some(_) => Status::REFUSED_FILE,
        None => Status::NO_MEMORY,
    }
}
