// The command `replay`: prints the report of a script whose lines are done in file order.
ghost use Rattle.std.specs.Prelude.{◌≡◌, Some, Contains};
ghost use Rattle.memory_node.specs.declared.node.Label.{Label};
ghost use Rattle.rules_file.specs.Rules.{IsRules};
ghost use Rattle.script_file.specs.Script.{IsScript};
ghost use Rattle.market_top.specs.Command.{replay};
ghost use Rattle.market_top.specs.Program.{Answered};
ghost use Rattle.market_top.specs.Replay.{IsReplayed};
ghost use Rattle.market_top.specs.Verdict.{Delivered, Verdict};

use crate::extent::Extent;
use crate::program::{Status, tell};
use crate::reading::read_both;
use crate::reporting::report_run;
use memory_node::Rack;
use mkt_io::{Shelf, Sink};
use rules_file::Rules;
use run_law::replay_is_run;
use script_file::Script;
use script_run::{RunFault, replay_script};
use std::alloc::Global;

// Replays the script of this name under the rules of the other.
pub(crate) fn run_replay<F: Shelf, O: Sink, E: Sink, R: Rack>(
    alloc: Global,
    rules: &str,
    script: &str,
    shelf: &mut F,
    out: &mut O,
    err: &mut E,
    rack: &mut R,
) -> Status
    requires rules { Contains (F.names shelf.old) rules.now }
    requires script { Contains (F.names shelf.old) script.now }
    requires rack { (l : Label) → R.is_out rack.old l → ⊥ }
    ensures { Answered F.files F.faults O.contents O.faults E.contents E.faults
        (R.is_out rack.new) (R.given rack.new) (Some (replay rules.now script.now))
        shelf.old out.old err.old shelf.new out.new err.new result.0 }
{
    match read_both(alloc, rules, script, shelf, err) {
        Ok(said) => report_script(
            alloc,
            &said.rules,
            &said.script,
            Extent::Whole,
            out,
            err,
            rack,
        ),
        Err(status) => status,
    }
}

// Replays a script that was read, and tells its run to this extent. Its nodes are back in the rack before anything is written.
pub(crate) fn report_script<O: Sink, E: Sink, R: Rack>(
    alloc: Global,
    rules: &Rules,
    script: &Script,
    extent: Extent,
    out: &mut O,
    err: &mut E,
    rack: &mut R,
) -> Status
    requires rules { IsRules rules.now }
    requires script { IsScript rules.now script.now }
    requires rack { (l : Label) → R.is_out rack.old l → ⊥ }
    ensures { (v : Verdict) × IsReplayed extent (R.is_out rack.new) (R.given rack.new) rules.now script.now v
        × Delivered O.contents O.faults E.contents E.faults v out.old err.old out.new err.new result.0 }
{
    replay_is_run();
    match replay_script(alloc, rules, script, rack) {
        Ok(replayed) => report_run(
            alloc,
            rules,
            &replayed.issues,
            &replayed.shows,
            extent,
            out,
            err,
        ),
        Err(RunFault::Memory) => tell(err, "memory\n", Status::NO_MEMORY),
    }
}
