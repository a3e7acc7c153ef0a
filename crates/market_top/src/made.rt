// The commands over a script that is made of a number: `gen` prints it, and `replay --gen` tells the sums of its replay.
ghost use Rattle.std.specs.Prelude.{◌≡◌, Some, Contains, IfOk};
ghost use Rattle.memory_node.specs.declared.node.Label.{Label};
ghost use Rattle.script_file.specs.Faults.{Gives};
ghost use Rattle.script_file.specs.Generated.{generated};
ghost use Rattle.script_file.specs.Script.{IsScript, script_of};
ghost use Rattle.rules_file.specs.Rules.{IsRules};
ghost use Rattle.market_top.specs.Command.{replay_made};
ghost use Rattle.market_top.specs.Made.{IsMadeUnder};
ghost use Rattle.market_top.specs.Program.{Answered};
ghost use Rattle.market_top.specs.Verdict.{Delivered, Told, Verdict};

use crate::check::{RULES_LIMIT, tell_no_rules};
use crate::extent::Extent;
use crate::program::{Status, tell, tell_unread};
use crate::reading::tell_no_script;
use crate::replay::report_script;
use memory_node::Rack;
use mkt_io::{Shelf, Sink, WriteFault, read_whole};
use rules_file::{Rules, read_rules};
use script_file::{GenFault, Script, ScriptFault, generate, read_script, write_generated};
use std::alloc::Global;

// Prints the script that is made of a number, and answers 0, or 4 where that fails.
pub(crate) fn run_gen<O: Sink>(number: u32, orders: u32, out: &mut O) -> Status
    ensures { Told O.contents O.faults (generated number orders) 0 out.old out.new result.0 }
{
    match write_generated(out, number, orders) {
        Ok(()) => Status::DONE,
        Err(WriteFault) => Status::NOT_WRITTEN,
    }
}

// Replays the script that is made of a number, under the rules of this name, and tells the sums.
pub(crate) fn run_made<F: Shelf, O: Sink, E: Sink, R: Rack>(
    alloc: Global,
    number: u32,
    orders: u32,
    rules: &str,
    shelf: &mut F,
    out: &mut O,
    err: &mut E,
    rack: &mut R,
) -> Status
    requires rules { Contains (F.names shelf.old) rules.now }
    requires rack { (l : Label) → R.is_out rack.old l → ⊥ }
    ensures { Answered F.files F.faults O.contents O.faults E.contents E.faults
        (R.is_out rack.new) (R.given rack.new) (Some (replay_made number orders rules.now))
        shelf.old out.old err.old shelf.new out.new err.new result.0 }
{
    let bytes = match read_whole(alloc, shelf, rules, RULES_LIMIT) {
        Ok(bytes) => bytes,
        Err(fault) => return tell_unread(err, fault),
    };
    match read_rules(alloc, &bytes) {
        Ok(said) => made_under(alloc, number, orders, &said, out, err, rack),
        Err(fault) => tell_no_rules(err, &fault),
    }
}

// Replays the script that is made of a number under rules that were read.
fn made_under<O: Sink, E: Sink, R: Rack>(
    alloc: Global,
    number: u32,
    orders: u32,
    rules: &Rules,
    out: &mut O,
    err: &mut E,
    rack: &mut R,
) -> Status
    requires rules { IsRules rules.now }
    requires rack { (l : Label) → R.is_out rack.old l → ⊥ }
    ensures { (v : Verdict) × IsMadeUnder (R.is_out rack.new) (R.given rack.new) number orders rules.now v
        × Delivered O.contents O.faults E.contents E.faults v out.old err.old out.new err.new result.0 }
{
    match script_made(alloc, number, orders, rules) {
        Ok(script) => report_script(alloc, rules, &script, Extent::Totals, out, err, rack),
        Err(fault) => tell_no_script(err, fault),
    }
}

// The script that is made of a number, as rules read it. Its text is let go before it is replayed.
fn script_made(
    alloc: Global,
    number: u32,
    orders: u32,
    rules: &Rules,
) -> Result<Script, ScriptFault>
    requires rules { IsRules rules.now }
    ensures exact { Gives result (script_of rules.now (generated number orders)) }
    ensures sound { IfOk result (IsScript rules.now) }
{
    let bytes = match generate(alloc, number, orders) {
        Ok(bytes) => bytes,
        Err(GenFault::Memory) => return Err(ScriptFault::Memory),
    };
    read_script(alloc, &bytes, rules)
}
