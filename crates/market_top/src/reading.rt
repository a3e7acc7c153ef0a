// Reads a rules file and a script under it, for the commands over both.
ghost use Rattle.std.specs.Prelude.{◌≡◌, ◌≤◌, Contains, IfErr, IfOk, OnOk};
ghost use Rattle.mkt_io.specs.Faults.{Rises};
ghost use Rattle.mkt_io.specs.Printed.{PrintsLines};
ghost use Rattle.mkt_io.specs.Sink.{Writes};
ghost use Rattle.rules_file.specs.Rules.{IsRules};
ghost use Rattle.script_file.specs.Script.{IsScript};
ghost use Rattle.market_top.specs.Files.{AreRulesOf, IsScriptOf, IsTold, OnFiles, OnRulesFile, OnScriptFile, Unruled, Unscripted, no_script, script_fault_line};
ghost use Rattle.market_top.specs.Verdict.{Told};

use crate::check::{RULES_LIMIT, tell_no_rules};
use crate::program::{Status, tell, tell_unread};
use mkt_io::{Printer, Shelf, Sink, WriteFault, read_whole};
use rules_file::{Rules, read_rules};
use script_file::{Script, ScriptFault, read_script};
use std::alloc::Global;

/// How many bytes a script may have; one more is read, and makes it too long.
const SCRIPT_LIMIT: u64 = 101_000_000;

/// What two files say: the rules, and a script under them.
#[derive(Drop)]
pub(crate) struct Said {
    pub(crate) rules: Rules,
    pub(crate) script: Script,
}

// Reads the rules and the script of these names. Where one is not read or is refused, writes why to standard error and gives the status of
// the call.
pub(crate) fn read_both<F: Shelf, E: Sink>(
    alloc: Global,
    rules: &str,
    script: &str,
    shelf: &mut F,
    err: &mut E,
) -> Result<Said, Status>
    requires rules { Contains (F.names shelf.old) rules.now }
    requires script { Contains (F.names shelf.old) script.now }
    ensures sound_rules { IfOk result (λ said. IsRules said.rules) }
    ensures sound_script { IfOk result (λ said. IsScript said.rules said.script) }
    ensures rules { IfOk result (λ said. AreRulesOf (F.files shelf.old) rules.now said.rules) }
    ensures script { IfOk result (λ said. IsScriptOf (F.files shelf.old) script.now said.rules said.script) }
    ensures quiet { OnOk result (err.new ≡ err.old) }
    ensures told { IfErr result (λ status. IsTold E.contents E.faults
        (OnFiles (F.files shelf.old) (Rises (F.faults shelf.old) (F.faults shelf.new)) rules.now script.now Unscripted) err.old err.new status.0) }
    ensures count { F.faults shelf.old ≤ F.faults shelf.new }
{
    let rules = rules_in(alloc, rules, shelf, err)?;
    match script_in(alloc, &rules, script, shelf, err) {
        Ok(script) => Ok(Said { rules, script }),
        Err(status) => Err(status),
    }
}

// Reads the rules of this name, or writes why there are none.
fn rules_in<F: Shelf, E: Sink>(
    alloc: Global,
    name: &str,
    shelf: &mut F,
    err: &mut E,
) -> Result<Rules, Status>
    requires { Contains (F.names shelf.old) name.now }
    ensures sound { IfOk result (λ rules. IsRules rules) }
    ensures rules { IfOk result (λ rules. AreRulesOf (F.files shelf.old) name.now rules) }
    ensures quiet { OnOk result (err.new ≡ err.old) }
    ensures told { IfErr result (λ status. IsTold E.contents E.faults
        (OnRulesFile (F.files shelf.old) (Rises (F.faults shelf.old) (F.faults shelf.new)) name.now Unruled) err.old err.new status.0) }
    ensures names { F.names shelf.new ≡ F.names shelf.old }
    ensures files { F.files shelf.new ≡ F.files shelf.old }
    ensures count { F.faults shelf.old ≤ F.faults shelf.new }
{
    let bytes = match read_whole(alloc, shelf, name, RULES_LIMIT) {
        Ok(bytes) => bytes,
        Err(fault) => return Err(tell_unread(err, fault)),
    };
    match read_rules(alloc, &bytes) {
        Ok(rules) => Ok(rules),
        Err(fault) => Err(tell_no_rules(err, &fault)),
    }
}

// Reads the script of this name under rules, or writes why there is none.
fn script_in<F: Shelf, E: Sink>(
    alloc: Global,
    rules: &Rules,
    name: &str,
    shelf: &mut F,
    err: &mut E,
) -> Result<Script, Status>
    requires rules { IsRules rules.now }
    requires name { Contains (F.names shelf.old) name.now }
    ensures sound { IfOk result (λ script. IsScript rules.now script) }
    ensures script { IfOk result (λ script. IsScriptOf (F.files shelf.old) name.now rules.now script) }
    ensures quiet { OnOk result (err.new ≡ err.old) }
    ensures told { IfErr result (λ status. IsTold E.contents E.faults
        (OnScriptFile (F.files shelf.old) (Rises (F.faults shelf.old) (F.faults shelf.new)) name.now Unscripted rules.now) err.old err.new status.0) }
    ensures count { F.faults shelf.old ≤ F.faults shelf.new }
{
    let bytes = match read_whole(alloc, shelf, name, SCRIPT_LIMIT) {
        Ok(bytes) => bytes,
        Err(fault) => return Err(tell_unread(err, fault)),
    };
    match read_script(alloc, &bytes, rules) {
        Ok(script) => Ok(script),
        Err(fault) => Err(tell_no_script(err, fault)),
    }
}

// Writes why there is no script to standard error, and answers 1 or 5, or 4 where that fails.
pub(crate) fn tell_no_script<E: Sink>(err: &mut E, fault: ScriptFault) -> Status
    ensures { let v = no_script fault in Told E.contents E.faults v.err v.status err.old err.new result.0 }
{
    match fault {
        ScriptFault::At { line, number } => tell_fault(err, line, number),
        ScriptFault::Memory => tell(err, "memory\n", Status::NO_MEMORY),
    }
}

// Writes the line of a script's first fault, and answers 1, or 4 where that fails.
fn tell_fault<E: Sink>(err: &mut E, line: u32, number: u8) -> Status
    ensures { Told E.contents E.faults (script_fault_line line number) 1 err.old err.new result.0 }
{
    match write_fault(err, line, number) {
        Ok(()) => Status::REFUSED_FILE,
        Err(WriteFault) => Status::NOT_WRITTEN,
    }
}

fn write_fault<E: Sink>(err: &mut E, line: u32, number: u8) -> Result<(), WriteFault>
    ensures { Writes E.contents E.faults err.old (script_fault_line line number) err.new result }
{
    let mut printer = Printer::new(err);
    print_fault(&mut printer, line, number);
    printer.finish()
}

fn print_fault<E: Sink>(printer: &mut Printer<'_, E>, line: u32, number: u8)
    ensures { PrintsLines E.contents E.faults printer.old printer.new (script_fault_line line number) }
{
    printer.word("script");
    printer.number(u64::from(line));
    printer.number(u64::from(number));
    printer.line_end();
}
