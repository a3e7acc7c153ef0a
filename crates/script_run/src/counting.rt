// How many events and reads of boards the lines of a script ask for.
ghost use Rattle.std.specs.Prelude.{◌≡◌, ◌<◌, length, filter, All, IfOk};
ghost use Rattle.script_file.specs.Script.{is_event};
ghost use Rattle.script_file.specs.declared.script.GatewayScriptLine.{GatewayScriptLine};
ghost use Rattle.run_law.specs.Run.{is_show};
ghost use Rattle.script_run.specs.Running.{counts_for};

use mkt_base::Act;
use script_file::GatewayScriptLine;
use std::alloc::{AllocError, Global};

/// How many events the lines enter in each of so many issues. No memory is the one fault.
pub fn count_events(
    alloc: Global,
    lines: &[GatewayScriptLine],
    issues: usize,
) -> Result<Vec<usize>, AllocError>
    requires { All (λ (of : GatewayScriptLine). of.line.issue < issues) lines.now }
    ensures { IfOk result (λ counts. counts.items ≡ counts_for issues lines.now) }
{
    let mut counts = vec![in alloc; 0usize; issues]?;
    for of in lines {
        if is_event(&of.line.act) {
            counts[usize::from(of.line.issue)] += 1;
        }
    }
    Ok(counts)
}

fn is_event(act: &Act) -> bool
    ensures { result ≡ is_event act.now }
{
    match act {
        Act::Do(_) => true,
        Act::Show => false,
    }
}

/// How many lines read a board.
pub fn count_shows(lines: &[GatewayScriptLine]) -> usize
    ensures { result ≡ length (filter is_show lines.now) }
{
    let mut shows = 0;
    for of in lines {
        if !is_event(&of.line.act) {
            shows += 1;
        }
    }
    shows
}
