// The command `audit`: says whether a file is a report under rules, or which of its lines is the first that no report has.
ghost use Rattle.std.specs.Prelude.{◌≡◌, ◌≤◌, [], ◌∷◌, codes, length, Contains};
ghost use Rattle.std.specs.Fmt.{decimal};
ghost use Rattle.mkt_base.specs.Text.{line};
ghost use Rattle.mkt_io.specs.Faults.{Rises};
ghost use Rattle.mkt_io.specs.Printed.{PrintsLines};
ghost use Rattle.mkt_io.specs.Sink.{Writes};
ghost use Rattle.rules_file.specs.Rules.{IsRules};
ghost use Rattle.market_top.specs.Audit.{IsAuditVerdict, IsAuditedUnder, answer_line, answer_status};
ghost use Rattle.market_top.specs.Verdict.{Delivered, OnFile, Told, Verdict};

use crate::check::{RULES_LIMIT, tell_no_rules};
use crate::program::{Status, tell, tell_unread};
use audit::{AuditFault, Verdict as TextVerdict, audit};
use mkt_io::{Printer, Shelf, Sink, WriteFault, read_whole};
use rules_file::{Rules, read_rules};
use std::alloc::Global;

/// How many bytes a report may have; one more is read, and makes it too long.
const REPORT_LIMIT: u64 = 268_435_456;

// Audits the report of this name under the rules of the other.
pub(crate) fn run_audit<F: Shelf, O: Sink, E: Sink>(
    alloc: Global,
    rules: &str,
    report: &str,
    shelf: &mut F,
    out: &mut O,
    err: &mut E,
) -> Status
    requires rules { Contains (F.names shelf.old) rules.now }
    requires report { Contains (F.names shelf.old) report.now }
    ensures verdict { (v : Verdict)
        × OnFile 1048576 (F.files shelf.old) (Rises (F.faults shelf.old) (F.faults shelf.new)) rules.now
        (IsAuditVerdict (OnFile 268435456 (F.files shelf.old) (Rises (F.faults shelf.old) (F.faults shelf.new)) report.now)) v
        × Delivered O.contents O.faults E.contents E.faults v out.old err.old out.new err.new result.0 }
    ensures count { F.faults shelf.old ≤ F.faults shelf.new }
{
    let bytes = match read_whole(alloc, shelf, rules, RULES_LIMIT) {
        Ok(bytes) => bytes,
        Err(fault) => return tell_unread(err, fault),
    };
    match read_rules(alloc, &bytes) {
        Ok(said) => audit_under(alloc, &said, report, shelf, out, err),
        Err(fault) => tell_no_rules(err, &fault),
    }
}

// Audits the report of this name under rules that were read.
fn audit_under<F: Shelf, O: Sink, E: Sink>(
    alloc: Global,
    rules: &Rules,
    name: &str,
    shelf: &mut F,
    out: &mut O,
    err: &mut E,
) -> Status
    requires rules { IsRules rules.now }
    requires name { Contains (F.names shelf.old) name.now }
    ensures verdict { (v : Verdict)
        × OnFile 268435456 (F.files shelf.old) (Rises (F.faults shelf.old) (F.faults shelf.new)) name.now (IsAuditedUnder rules.now) v
        × Delivered O.contents O.faults E.contents E.faults v out.old err.old out.new err.new result.0 }
    ensures count { F.faults shelf.old ≤ F.faults shelf.new }
{
    let bytes = match read_whole(alloc, shelf, name, REPORT_LIMIT) {
        Ok(bytes) => bytes,
        Err(fault) => return tell_unread(err, fault),
    };
    audit_bytes(alloc, rules, &bytes, out, err)
}

// Audits the bytes of a report.
fn audit_bytes<O: Sink, E: Sink>(
    alloc: Global,
    rules: &Rules,
    report: &[u8],
    out: &mut O,
    err: &mut E,
) -> Status
    requires { IsRules rules.now }
    ensures { (v : Verdict) × IsAuditedUnder rules.now report.now v
        × Delivered O.contents O.faults E.contents E.faults v out.old err.old out.new err.new result.0 }
{
    if report.len() as u64 > REPORT_LIMIT {
        return tell(err, "report too long\n", Status::REFUSED_FILE);
    }
    match audit(alloc, rules, report) {
        Ok(answer) => print_answer(out, answer),
        Err(AuditFault::Memory) => tell(err, "memory\n", Status::NO_MEMORY),
    }
}

// Prints the answer, and gives 0 or 7, or 4 where that fails.
fn print_answer<O: Sink>(out: &mut O, answer: TextVerdict) -> Status
    ensures { Told O.contents O.faults (answer_line answer) (answer_status answer) out.old out.new result.0 }
{
    match write_answer(out, answer) {
        Ok(()) => answer_status(answer),
        Err(WriteFault) => Status::NOT_WRITTEN,
    }
}

fn answer_status(answer: TextVerdict) -> Status
    ensures { result.0 ≡ answer_status answer }
{
    match answer {
        TextVerdict::Yes => Status::DONE,
        TextVerdict::No { .. } => Status::NO_REPORT,
    }
}

fn write_answer<O: Sink>(out: &mut O, answer: TextVerdict) -> Result<(), WriteFault>
    ensures { Writes O.contents O.faults out.old (answer_line answer) out.new result }
{
    let mut printer = Printer::new(out);
    print_line(&mut printer, answer);
    printer.finish()
}

fn print_line<O: Sink>(printer: &mut Printer<'_, O>, answer: TextVerdict)
    ensures { PrintsLines O.contents O.faults printer.old printer.new (answer_line answer) }
{
    match answer {
        TextVerdict::Yes => print_yes(printer),
        TextVerdict::No { line } => print_no(printer, line),
    }
}

fn print_yes<O: Sink>(printer: &mut Printer<'_, O>)
    ensures { PrintsLines O.contents O.faults printer.old printer.new (line (codes "yes" ∷ [])) }
{
    printer.word("yes");
    printer.line_end();
}

fn print_no<O: Sink>(printer: &mut Printer<'_, O>, number: u64)
    ensures { PrintsLines O.contents O.faults printer.old printer.new (line (codes "no" ∷ decimal number ∷ [])) }
{
    printer.word("no");
    printer.number(number);
    printer.line_end();
}
