// The gateways of a block: how they come into it, and what is known when all have left it.
ghost use Rattle.std.specs.Prelude.{◌≡◌, ℕ, ◌+◌, ◌*◌, ◌<◌, ◌≤◌, ◌^◌, true, false, [], List, length, map, slice_index_or, vec_capacity, All, IfOk};
ghost use Rattle.stage_play.specs.Blocks.{AllGoOn, HasComeTo, HasLeft, IsBlock, IsOf, Knows, cuts_after};
ghost use Rattle.stage_play.specs.declared.blocks.Member.{Member};
ghost use Rattle.stage_play.specs.declared.notes.Note.{Note};
ghost use Rattle.stage_play.specs.declared.part.Part.{Part};

use crate::blocks::{Block, Member, compare, play_member};
use crate::{Part, SeenDesk};
use all_gather::Cell;
use mkt_io::Gate;
use std::alloc::Global;
use std::sync::atomic::AtomicU64;
use std::sync::{OnceLock, Wait};
use std::thread;
use std::thread::Threads;

// The gateways come into a block.
fn enter<D: Drop>(parts: Vec<Part<D>>, members: &mut Vec<Member<'_, D>>)
    requires room { (members.old.items ≡ []) × (length parts.items ≤ vec_capacity members.old) }
    ensures { map (λ m. m.part) members.new.items ≡ parts.items }
{
    for part in parts {
        members.push_reserved(Member { part, went: None });
    }
}

// They leave it.
fn leave<D: Drop>(members: Vec<Member<'_, D>>, parts: &mut Vec<Part<D>>)
    requires room { (parts.old.items ≡ []) × (length members.items ≤ vec_capacity parts.old) }
    ensures { parts.new.items ≡ map (λ m. m.part) members.entry.items }
{
    for member in members {
        parts.push_reserved(member.part);
    }
}

// Each plays it in a thread of its own, if all do.
fn play_each<'c, R: Threads + Wait + Sync, D: SeenDesk + Drop + Send, G: Gate + Sync>(
    rt: &R,
    alloc: Global,
    members: &mut [Member<'c, D>],
    block: &Block<'c>,
    gate: &G,
)
    requires come { All (λ (m : Member D). HasComeTo D.state D.fixed D.caller D.takes D.tells block.now.issues block.now.stage m.part) members.old }
    requires block { IsBlock block.now.stage block.now.count block.now.width (length block.now.cells.now) }
    requires own { length members.old * block.now.issues ≤ block.now.width }
    requires some { 0 < length members.old }
    ensures { (k : ℕ) (m : Member D) → k < length members.old
        → HasLeft D.state D.fixed D.caller D.takes D.tells block.now.issues block.now.width block.now.stage block.now.count block.now.go.now.id (slice_index_or members.old k m).part (slice_index_or members.new k m) }
{
    let threads = members.len();
    thread::for_each_mut(
        rt,
        members,
        threads,
        &|place, member| { play_member(rt, alloc, member, place, block, gate) },
    );
}

// Whether the block was played. All that left it know the same.
fn was_played<'c, R: Wait, D: Drop>(rt: &R, block: &Block<'c>, members: &[Member<'c, D>]) -> bool
    requires some { 0 < length members.now }
    requires left { All (IsOf block.now.go.now.id) members.now }
    ensures { (notes : List Note) × All (Knows result notes) members.now }
{
    let Some(first) = &members[0].went else {
        unreachable!()
    };
    for member in members {
        let Some(went) = &member.went else {
            unreachable!()
        };
        compare(rt, block, first, went);
    }
    *block.go.value(&first.go)
}

// The same with all that is shared.
fn play_cells<'c, R: Threads + Wait + Sync, D: SeenDesk + Drop + Send, G: Gate + Sync>(
    rt: &R,
    alloc: Global,
    parts: Vec<Part<D>>,
    block: &Block<'c>,
    gate: &G,
) -> (Vec<Part<D>>, bool)
    requires come { All (HasComeTo D.state D.fixed D.caller D.takes D.tells block.now.issues block.now.stage) parts.items }
    requires some { 0 < length parts.items }
    requires block { IsBlock block.now.stage block.now.count block.now.width (length block.now.cells.now) }
    requires own { block.now.width ≡ length parts.items * block.now.issues }
    ensures many { length result.0.items ≡ length parts.items }
    ensures stays { result.1 ≡ false → result.0.items ≡ parts.items }
    ensures on { result.1 ≡ true → (notes : List Note) × AllGoOn D.state D.fixed D.caller D.takes D.tells block.now.issues block.now.stage block.now.count (λ cuts. cuts_after block.now.issues block.now.width block.now.stage cuts block.now.count notes) parts.items result.0.items }
{
    let Ok(mut members) = Vec::with_capacity(alloc, parts.len()) else {
        return (parts, false);
    };
    let Ok(mut back) = Vec::with_capacity(alloc, parts.len()) else {
        return (parts, false);
    };
    enter(parts, &mut members);
    play_each(rt, alloc, members.as_mut_slice(), block, gate);
    let played = was_played(rt, block, members.as_slice());
    leave(members, &mut back);
    (back, played)
}

/// The gateways do their lines of so many stages from this one on, each in a thread of its own, if there is memory for it and a thread for
/// each. If not, nothing is done. The cells are empty, with one for each gateway's note of each issue in each of the stages. May wait.
pub(crate) fn play_block<R: Threads + Wait + Sync, D: SeenDesk + Drop + Send, G: Gate + Sync>(
    rt: &R,
    alloc: Global,
    parts: Vec<Part<D>>,
    issues: usize,
    stage: u32,
    count: u32,
    cells: &[Cell],
    gate: &G,
) -> (Vec<Part<D>>, bool)
    requires come { All (HasComeTo D.state D.fixed D.caller D.takes D.tells issues stage) parts.items }
    requires some { 0 < length parts.items }
    requires block { IsBlock stage count (length parts.items * issues) (length cells.now) }
    requires wide { length parts.items * issues < 2 ^ 64 }
    ensures many { length result.0.items ≡ length parts.items }
    ensures stays { result.1 ≡ false → result.0.items ≡ parts.items }
    ensures on { result.1 ≡ true → (notes : List Note) × AllGoOn D.state D.fixed D.caller D.takes D.tells issues stage count (λ cuts. cuts_after issues (length parts.items * issues) stage cuts count notes) parts.items result.0.items }
{
    let (go, begun) = (OnceLock::new(), AtomicU64::new(0));
    let block = Block {
        cells,
        go: &go,
        begun: &begun,
        others: (parts.len() - 1) as u64,
        issues,
        width: parts.len() * issues,
        stage,
        count,
    };
    play_cells(rt, alloc, parts, &block, gate)
}
