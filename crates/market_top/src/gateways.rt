// The command `run`: prints the report of a script whose gateways do their lines side by side, each in a thread of its own.
ghost use Rattle.std.specs.Prelude.{◌≡◌, Some, Contains};
ghost use Rattle.memory_node.specs.declared.node.Label.{Label};
ghost use Rattle.rules_file.specs.Rules.{IsRules};
ghost use Rattle.script_file.specs.Script.{IsScript};
ghost use Rattle.market_top.specs.Command.{run};
ghost use Rattle.market_top.specs.Program.{Answered};
ghost use Rattle.market_top.specs.ScriptRun.{IsPlayed};
ghost use Rattle.market_top.specs.Verdict.{Delivered, Verdict};

use crate::extent::Extent;
use crate::program::{Status, tell};
use crate::reading::read_both;
use crate::reporting::report_run;
use memory_node::Rack;
use mkt_io::{Gate, Shelf, Sink};
use rules_file::Rules;
use script_file::Script;
use script_run::RunFault;
use stage_run::run_script;
use std::alloc::Global;
use std::sync::Wait;
use std::thread::Threads;

// Runs the script of this name under the rules of the other. May wait.
pub(crate) fn run_gateways<
    T: Threads + Wait + Sync,
    F: Shelf,
    O: Sink,
    E: Sink,
    R: Rack,
    G: Gate + Sync,
>(
    rt: &T,
    alloc: Global,
    rules: &str,
    script: &str,
    shelf: &mut F,
    out: &mut O,
    err: &mut E,
    rack: &mut R,
    gate: &G,
) -> Status
    requires rules { Contains (F.names shelf.old) rules.now }
    requires script { Contains (F.names shelf.old) script.now }
    requires rack { (l : Label) → R.is_out rack.old l → ⊥ }
    ensures { Answered F.files F.faults O.contents O.faults E.contents E.faults
        (R.is_out rack.new) (R.given rack.new) (Some (run rules.now script.now))
        shelf.old out.old err.old shelf.new out.new err.new result.0 }
{
    match read_both(alloc, rules, script, shelf, err) {
        Ok(said) => play_script(rt, alloc, &said.rules, &said.script, out, err, rack, gate),
        Err(status) => status,
    }
}

// Runs a script that was read, and tells its run. Its nodes are back in the rack before anything is written. May wait.
fn play_script<T: Threads + Wait + Sync, O: Sink, E: Sink, R: Rack, G: Gate + Sync>(
    rt: &T,
    alloc: Global,
    rules: &Rules,
    script: &Script,
    out: &mut O,
    err: &mut E,
    rack: &mut R,
    gate: &G,
) -> Status
    requires rules { IsRules rules.now }
    requires script { IsScript rules.now script.now }
    requires rack { (l : Label) → R.is_out rack.old l → ⊥ }
    ensures { (v : Verdict) × IsPlayed (R.is_out rack.new) (R.given rack.new) rules.now script.now v
        × Delivered O.contents O.faults E.contents E.faults v out.old err.old out.new err.new result.0 }
{
    match run_script(rt, alloc, rules, script, rack, gate) {
        Ok(ran) => report_run(
            alloc,
            rules,
            &ran.issues,
            &ran.shows,
            Extent::Whole,
            out,
            err,
        ),
        Err(RunFault::Memory) => tell(err, "memory\n", Status::NO_MEMORY),
    }
}
