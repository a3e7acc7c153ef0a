// The stages of a script, one after the other.
ghost use Rattle.std.specs.Prelude.{◌≡◌, ℕ, ◌+◌, ◌*◌, ◌^◌, ◌<◌, ◌≤◌, true, false, List, length, max, slice_index_or, All};
ghost use Rattle.stage_law.specs.Come.{Cut};
ghost use Rattle.stage_play.specs.Blocks.{AllGoOn, HasComeTo, next_cuts};
ghost use Rattle.stage_play.specs.Playing.{AllDone, HasRun, IsReady, MayRun};
ghost use Rattle.stage_play.specs.declared.part.Part.{Part};
ghost use Rattle.stage_play.specs.declared.seen.Sight.{Sight};

use crate::members::play_block;
use crate::plan::{block_from, cells_for, is_shared, width_of};
use crate::sights::{level, look};
use crate::{Part, SeenDesk, Sight};
use all_gather::{Cell, empty_cells};
use mkt_base::Desk;
use mkt_io::Gate;
use std::alloc::Global;
use std::sync::Wait;
use std::thread;
use std::thread::Threads;

// A gateway does its lines of a stage.
pub(crate) fn run_part<W: Wait, D: Desk, G: Gate>(rt: &W, part: &mut Part<D>, stage: u32, gate: &G)
    requires { MayRun D.takes D.fixed stage part.old }
    ensures { HasRun D.state D.fixed D.tells stage part.old part.new }
{
    part.gateway.run(rt, part.desks.as_mut_slice(), stage, gate);
}

// All gateways do their lines of a stage, each in a thread of its own, where more than one has any. All have done them when it returns.
fn run_stage<R: Threads + Wait + Sync, D: Desk + Send, G: Gate + Sync>(
    rt: &R,
    parts: &mut [Part<D>],
    stage: u32,
    gate: &G,
)
    requires { All (λ (p : Part D). MayRun D.takes D.fixed stage p) parts.old }
    ensures { (k : ℕ) (p : Part D) → k < length parts.old → HasRun D.state D.fixed D.tells stage (slice_index_or parts.old k p) (slice_index_or parts.new k p) }
{
    let threads = if is_shared(parts, stage) {
        parts.len()
    } else {
        1
    };
    thread::for_each_mut(
        rt,
        parts,
        threads,
        &|_, part| run_part(rt, part, stage, gate),
    );
}

// All gateways do their lines of one stage, and then every desk catches up with what any desk of its issue has seen.
fn play_stage<R: Threads + Wait + Sync, D: SeenDesk + Send, G: Gate + Sync>(
    rt: &R,
    parts: &mut [Part<D>],
    stage: u32,
    sights: &mut [Sight],
    gate: &G,
)
    requires come { All (HasComeTo D.state D.fixed D.caller D.takes D.tells (length sights.old) stage) parts.old }
    ensures { (seen : List Sight) × AllGoOn D.state D.fixed D.caller D.takes D.tells (length sights.old) stage 1 (λ cuts. next_cuts cuts stage seen) parts.old parts.new }
{
    run_stage(rt, parts, stage, gate);
    look(parts, sights);
    level(rt, parts, sights);
}

// A block of so many stages is tried, where there are two or more, and its cells are empty again. One for each gateway's note of each issue in
// each stage is there.
fn try_block<R: Threads + Wait + Sync, D: SeenDesk + Drop + Send, G: Gate + Sync>(
    rt: &R,
    alloc: Global,
    parts: Vec<Part<D>>,
    issues: usize,
    stage: u32,
    count: u32,
    cells: &mut [Cell],
    gate: &G,
) -> (Vec<Part<D>>, bool)
    requires come { All (HasComeTo D.state D.fixed D.caller D.takes D.tells issues stage) parts.items }
    requires some { 0 < length parts.items }
    requires stages { stage + count < 2 ^ 32 }
    requires room { 1 < count → count * (length parts.items * issues) ≤ length cells.old }
    ensures many { length result.0.items ≡ length parts.items }
    ensures stays { result.1 ≡ false → result.0.items ≡ parts.items }
    ensures on { result.1 ≡ true → (then : (ℕ → ℕ → Cut) → ℕ → ℕ → Cut) × AllGoOn D.state D.fixed D.caller D.takes D.tells issues stage count then parts.items result.0.items }
    ensures block { result.1 ≡ true → 1 < count }
{
    if count < 2 {
        return (parts, false);
    }
    let used = &mut cells[..count as usize * (parts.len() * issues)];
    let (parts, played) = play_block(rt, alloc, parts, issues, stage, count, used, gate);
    empty_cells(used);
    (parts, played)
}

// A block is played if it can be, and one stage if not. Tells how many stages that were.
fn play_some<R: Threads + Wait + Sync, D: SeenDesk + Drop + Send, G: Gate + Sync>(
    rt: &R,
    alloc: Global,
    parts: Vec<Part<D>>,
    stage: u32,
    count: u32,
    cells: &mut [Cell],
    sights: &mut [Sight],
    gate: &G,
) -> (Vec<Part<D>>, u32)
    requires come { All (HasComeTo D.state D.fixed D.caller D.takes D.tells (length sights.old) stage) parts.items }
    requires some { 0 < length parts.items }
    requires stages { stage + count < 2 ^ 32 }
    requires room { 1 < count → count * (length parts.items * length sights.old) ≤ length cells.old }
    ensures many { length result.0.items ≡ length parts.items }
    ensures on { (then : (ℕ → ℕ → Cut) → ℕ → ℕ → Cut) × AllGoOn D.state D.fixed D.caller D.takes D.tells (length sights.old) stage result.1 then parts.items result.0.items }
    ensures stages { (0 < result.1) × (result.1 ≤ max 1 count) }
{
    let issues = sights.len();
    let (mut parts, played) = try_block(rt, alloc, parts, issues, stage, count, cells, gate);
    if played {
        return (parts, count);
    }
    play_stage(rt, parts.as_mut_slice(), stage, sights, gate);
    (parts, 1)
}

/// The gateways do all their lines, stage by stage, each in a thread of its own; a stage begins for a gateway when all have done the one
/// before, and its desks have then seen what any desk of their issue had seen. The desks of a gateway are those of the issues, by their numbers;
/// `sights` has a place for each issue, and what stands there is of no use afterwards. Where there is memory for it the threads are
/// forked once for many stages, and else in each stage in which more than one gateway has lines. May wait.
pub fn play_stages<R: Threads + Wait + Sync, D: SeenDesk + Drop + Send, G: Gate + Sync>(
    rt: &R,
    alloc: Global,
    parts: Vec<Part<D>>,
    stages: u32,
    sights: &mut [Sight],
    gate: &G,
) -> Vec<Part<D>>
    requires some { 0 < length parts.items }
    requires ready { (k : ℕ) (p : Part D) → k < length parts.items → IsReady D.state D.fixed D.caller D.takes D.tells (length sights.old) stages (slice_index_or parts.items k p) }
    ensures many { length result.items ≡ length parts.items }
    ensures done { (cuts : ℕ → ℕ → Cut) × AllDone D.state D.fixed D.caller D.takes D.tells (length sights.old) stages cuts parts.items result.items }
{
    let width = width_of(parts.len(), sights.len());
    let mut cells = cells_for(alloc, width, stages);
    let cells = cells.as_mut_slice();
    let mut room = cells.len();
    let mut parts = parts;
    let mut stage = 0;
    while stage < stages {
        let count = block_from(parts.as_slice(), stage, stages, room, width);
        let (back, many) = play_some(rt, alloc, parts, stage, count, cells, sights, gate);
        parts = back;
        stage += many;
        // A block that could not be played once is not tried again.
        if many < count {
            room = 0;
        }
    }
    parts
}
