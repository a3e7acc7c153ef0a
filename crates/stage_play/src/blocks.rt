// A block of stages, which the gateways play in threads that are forked once. Each of them leaves it with what it knows of it.
ghost use Rattle.std.specs.Prelude.{◌≡◌, ℕ, ◌+◌, ◌*◌, ◌<◌, ◌≤◌, ◌^◌, true, false, length};
ghost use Rattle.stage_play.specs.Blocks.{Advances, HasComeTo, HasLeft, IsBlock};

use crate::notes::Note;
use crate::rounds::{make_desktop, play_rounds};
use crate::{Part, SeenDesk};
use all_gather::{Cell, Gathered, agree};
use mkt_io::Gate;
use std::alloc::Global;
use std::sync::atomic::AtomicU64;
use std::sync::atomic::Ordering::SeqCst;
use std::sync::{OnceLock, OnceToken, Wait};
use std::thread;

/// How often a gateway gives way to other threads until all have begun. Where a thread could not be made its gateway begins only when another has
/// ended, so the others do not wait for it for ever.
const TURNS: u32 = 65_536;

/// What the gateways of a block share.
#[derive(Clone, Copy)]
pub(crate) struct Block<'c> {
    /// So many notes for each stage.
    pub cells: &'c [Cell],
    /// Whether the block is played: all gateways' threads have begun.
    pub go: &'c OnceLock<bool>,
    /// How many have.
    pub begun: &'c AtomicU64,
    /// How many begin before the last.
    pub others: u64,
    pub issues: usize,
    pub width: usize,
    pub stage: u32,
    pub count: u32,
}

/// What a gateway knows when it leaves a block.
#[derive(Drop)]
pub(crate) struct Went<'c> {
    pub go: OnceToken<'c, bool>,
    pub gathered: Gathered<Note>,
}

// Says whether the block is played, unless it is said already.
fn decide<'c, W: Wait>(rt: &W, go: &'c OnceLock<bool>, answer: bool) -> OnceToken<'c, bool>
    ensures { result.of ≡ go.now.id }
{
    go.init(rt, || answer)
}

// The last that begins says that the block is played, and one that has waited for long that it is not.
fn check_in<'c, W: Wait>(rt: &W, block: &Block<'c>) -> OnceToken<'c, bool>
    ensures { result.of ≡ block.now.go.now.id }
{
    if block.begun.fetch_add(1, SeqCst) == block.others {
        return decide(rt, block.go, true);
    }
    for _ in 0..TURNS {
        if let Some(token) = block.go.witness() {
            return token;
        }
        thread::yield_now();
    }
    decide(rt, block.go, false)
}

// Where a gateway has no memory for the block, none plays it.
fn stay<'c, W: Wait>(rt: &W, alloc: Global, block: &Block<'c>) -> Went<'c>
    ensures of { result.go.of ≡ block.now.go.now.id }
    ensures stays { result.go.value ≡ false }
{
    let go = decide(rt, block.go, false);
    if !*block.go.value(&go) {
        return Went {
            go,
            gathered: Gathered::new(alloc),
        };
    }
    // This is not reached, since this gateway has not checked in. No clause says so.
    for _ in rt.forever() {
        thread::yield_now();
    }
    unreachable!()
}

/// A gateway in a block.
#[derive(Drop)]
pub(crate) struct Member<'c, D> {
    pub part: Part<D>,
    /// What it knows once it has left.
    pub went: Option<Went<'c>>,
}

// Plays the rounds of the block, if all gateways do. The gateway's notes of a round stand from the first place on.
fn play_part<'c, W: Wait, D: SeenDesk, G: Gate>(
    rt: &W,
    alloc: Global,
    part: &mut Part<D>,
    first: usize,
    block: &Block<'c>,
    gate: &G,
) -> Went<'c>
    requires come { HasComeTo D.state D.fixed D.caller D.takes D.tells block.now.issues block.now.stage part.old }
    requires block { IsBlock block.now.stage block.now.count block.now.width (length block.now.cells.now) }
    requires own { first + block.now.issues ≤ block.now.width }
    ensures of { result.go.of ≡ block.now.go.now.id }
    ensures stays { result.go.value ≡ false → part.new ≡ part.old }
    ensures on { result.go.value ≡ true → Advances D.state D.fixed D.caller D.takes D.tells block.now.issues block.now.width block.now.stage block.now.count result.gathered.values part.old part.new }
{
    let Ok(desktop) = make_desktop(alloc, block.issues, block.width, block.cells.len()) else {
        return stay(rt, alloc, block);
    };
    let go = check_in(rt, block);
    if !*block.go.value(&go) {
        return Went {
            go,
            gathered: desktop.gathered,
        };
    }
    let gathered = play_rounds(
        rt,
        part,
        block.stage,
        block.count,
        block.cells,
        first,
        desktop,
        gate,
    );
    Went { go, gathered }
}

// A gateway plays the block, if all do, and notes what it knows then.
pub(crate) fn play_member<'c, W: Wait, D: SeenDesk, G: Gate>(
    rt: &W,
    alloc: Global,
    member: &mut Member<'c, D>,
    place: usize,
    block: &Block<'c>,
    gate: &G,
)
    requires come { HasComeTo D.state D.fixed D.caller D.takes D.tells block.now.issues block.now.stage member.old.part }
    requires block { IsBlock block.now.stage block.now.count block.now.width (length block.now.cells.now) }
    requires own { place * block.now.issues + block.now.issues ≤ block.now.width }
    ensures { HasLeft D.state D.fixed D.caller D.takes D.tells block.now.issues block.now.width block.now.stage block.now.count block.now.go.now.id member.old.part member.new }
{
    let first = place * block.issues;
    let went = play_part(rt, alloc, &mut member.part, first, block, gate);
    member.went = Some(went);
}

// Two gateways that left a block know the same of it. What a cell of notes holds carries no proof, so what the two have read is compared.
pub(crate) fn compare<'c, W: Wait>(rt: &W, block: &Block<'c>, a: &Went<'c>, b: &Went<'c>)
    requires first { a.now.go.of ≡ block.now.go.now.id }
    requires second { b.now.go.of ≡ block.now.go.now.id }
    ensures go { b.now.go.value ≡ a.now.go.value }
    ensures values { a.now.go.value ≡ true → b.now.gathered.values ≡ a.now.gathered.values }
{
    a.go.agrees(&b.go);
    if *block.go.value(&a.go) {
        agree(rt, &a.gathered, &b.gathered);
    }
}
