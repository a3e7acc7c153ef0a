// A round: the member's own values are written, and those of all are read.
ghost use Rattle.std.specs.Prelude.{◌≡◌, ℕ, ◌+◌, ◌<◌, ◌≤◌, ◌++◌, true, length, map, vec_capacity};
ghost use Rattle.all_gather.specs.Rounds.{Keeps};

use crate::{Cell, Gathered, Packed, Words};
use std::hint::spin_loop;
use std::sync::Wait;

/// How often a member looks at a cell before it sleeps: some microseconds. A round is mostly shorter than it takes to wake a thread;
/// with more members than processors the one that is waited for may need this processor, so it is not long.
const LOOKS: u32 = 1_000;

// Waits until the cell is written.
fn wait_for<R: Wait>(rt: &R, cell: &Cell) {
    for _ in 0..LOOKS {
        if cell.is_written() {
            return;
        }
        spin_loop();
    }
    for _ in rt.forever() {
        cell.sleep(rt);
        if cell.is_written() {
            return;
        }
    }
    unreachable!()
}

// What the cell holds, once it is written.
#[inline]
fn see<R: Wait>(rt: &R, cell: &Cell) -> Words {
    if !cell.is_written() {
        wait_for(rt, cell);
    }
    cell.read()
}

// Writes the values to the member's own cells, the last one first: who sleeps waits for the first one mostly, and finds all written.
fn give<V: Packed>(cells: &[Cell], values: &[V]) {
    for (cell, value) in cells.iter().zip(values).rev() {
        cell.write(value.pack());
    }
}

#[inline]
fn is_own(place: usize, first: usize, many: usize) -> bool
    ensures { first ≤ place → place < first + many → result ≡ true }
{
    place >= first && place - first < many
}

// What is to be read of a cell: a value of the member's own is known, and is not read back.
#[inline]
fn words_of<R: Wait, V: Packed>(rt: &R, cell: &Cell, own: bool, value: &V) -> Words
    ensures { own ≡ true → V.unpacked result ≡ value.now }
{
    if own { value.pack() } else { see(rt, cell) }
}

// Reads all cells of the round.
fn take_all<R: Wait, V: Packed>(
    rt: &R,
    round: &[Cell],
    first: usize,
    many: usize,
    board: &mut [V],
    log: &mut Vec<Words>,
)
    requires board { length board.old ≡ length round.now }
    requires room { length log.old.items + length round.now ≤ vec_capacity log.old }
    ensures values { map V.unpacked log.new.items ≡ map V.unpacked log.old.items ++ board.new }
    ensures own { Keeps first many board.old board.new }
    ensures room { vec_capacity log.new ≡ vec_capacity log.old }
{
    for (place, cell) in round.iter().enumerate() {
        let words = words_of(rt, cell, is_own(place, first, many), &board[place]);
        board[place] = V::unpack(words);
        log.push_reserved(words);
    }
}

/// Writes the member's own values to its cells of a round, waits until all cells of the round are written, and reads them. The member's own are
/// the cells from `first` on, so many, and on the board its own values stand at the same places. What a cell holds is known to no contract: that
/// two members have read the same is compared by `agree`. It takes no memory. May wait.
pub fn gather<R: Wait, V: Packed>(
    rt: &R,
    round: &[Cell],
    first: usize,
    many: usize,
    board: &mut [V],
    all: &mut Gathered<V>,
)
    requires own { first + many ≤ length round.now }
    requires board { length board.old ≡ length round.now }
    requires room { length all.old.values + length round.now ≤ all.old.room }
    ensures values { all.new.values ≡ all.old.values ++ board.new }
    ensures own { Keeps first many board.old board.new }
    ensures room { all.new.room ≡ all.old.room }
{
    give(&round[first..first + many], &board[first..first + many]);
    take_all(rt, round, first, many, board, &mut all.log);
}
