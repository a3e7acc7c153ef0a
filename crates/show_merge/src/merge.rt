// The merge: line by line, the next read of the line's gateway.
ghost use Rattle.std.specs.Prelude.{◌≡◌, ℕ, ◌++◌, ◌<◌, ◌≤◌, [], length, filter, not, take, drop, All, vec_len, vec_capacity};
ghost use Rattle.script_file.specs.Own.{is_event};
ghost use Rattle.script_file.specs.declared.script.GatewayScriptLine.{GatewayScriptLine};
ghost use Rattle.run_law.specs.Run.{is_show};
ghost use Rattle.show_merge.specs.Merged.{AreMerged, AreNumbered};

use gateway::Gateway;
use mkt_base::{Act, ShowLine};
use script_file::GatewayScriptLine;

/// Puts what the gateways read of boards into the order of the script's lines. The gateways stand in the order of their numbers, from 1. The
/// list of reads is empty and has room for one of each line that reads a board; `next` has a place for each gateway, with 0.
pub fn merge_shows(
    lines: &[GatewayScriptLine],
    gateways: &[Gateway],
    next: &mut [usize],
    shows: &mut Vec<ShowLine>,
)
    requires numbered { AreNumbered gateways.now }
    requires gateways { All (λ (of : GatewayScriptLine). (1 ≤ of.gateway.0) × (of.gateway.0 ≤ length gateways.now)) lines.now }
    requires next { (length next.old ≡ length gateways.now) × All (λ (n : ℕ). n ≡ 0) next.old }
    requires empty { shows.old.items ≡ [] }
    requires room { length (filter is_show lines.now) ≤ vec_capacity shows.old }
    ensures { AreMerged lines.now gateways.now shows.new.items }
{
    for of in lines {
        if is_read(&of.line.act) {
            let k = usize::from(of.gateway.0) - 1;
            take_next(gateways[k].shows(), &mut next[k], shows);
        }
    }
}

// The act reads the board.
fn is_read(act: &Act) -> bool
    ensures { result ≡ not (is_event act.now) }
{
    match act {
        Act::Do(_) => false,
        Act::Show => true,
    }
}

// The next of a gateway's reads is put behind the others, where one is left, and `next` moves on to the one behind it.
fn take_next(reads: &[ShowLine], next: &mut usize, shows: &mut Vec<ShowLine>)
    requires room { vec_len shows.old < vec_capacity shows.old }
    ensures taken { shows.new.items ≡ shows.old.items ++ take 1 (drop next.old reads.now) }
    ensures left { drop next.new reads.now ≡ drop 1 (drop next.old reads.now) }
    ensures room { vec_capacity shows.new ≡ vec_capacity shows.old }
{
    if let Some(show) = reads.get(*next) {
        shows.push_reserved(*show);
        *next += 1;
    }
}
