// The cells of rounds, each of which is written once, until they are emptied for the next rounds.
ghost use Rattle.std.specs.Prelude.{◌≡◌, length, vec_len, IfOk};

use crate::Words;
use std::alloc::{AllocError, Global};
use std::sync::Wait;
use std::sync::atomic::AtomicU64;
use std::sync::atomic::Ordering::SeqCst;

/// Of the sign of a cell: the words are not written, and nobody sleeps.
const EMPTY: u64 = 0;

/// The words are not written, and somebody sleeps until they are, or is about to.
const AWAITED: u64 = 1;

const WRITTEN: u64 = 2;

/// A cell for one value. It is of plain atomic words, so to write it where nobody sleeps is no call of the system; but no contract says what
/// such words hold. So what was read is compared in the end, by `agree`.
#[derive(Drop)]
pub struct Cell {
    first: AtomicU64,
    second: AtomicU64,
    third: AtomicU64,
    sign: AtomicU64,
}

impl Cell {
    // Writes the words, which are all there before the sign says so, and wakes whoever sleeps.
    #[inline]
    pub(crate) fn write(&self, words: Words) {
        self.first.store(words.first, SeqCst);
        self.second.store(words.second, SeqCst);
        self.third.store(words.third, SeqCst);
        if self.sign.swap(WRITTEN, SeqCst) == AWAITED {
            self.sign.wake_all();
        }
    }

    #[inline]
    pub(crate) fn is_written(&self) -> bool {
        self.sign.load(SeqCst) == WRITTEN
    }

    // Sleeps until the cell is written, or less long. No wake is lost: whoever writes finds that the cell is awaited, or has written it before,
    // and then there is no sleep.
    pub(crate) fn sleep<R: Wait>(&self, rt: &R) {
        let _ = self.sign.compare_exchange(EMPTY, AWAITED, SeqCst, SeqCst);
        self.sign.park(rt, AWAITED as u32);
    }

    // The words of a cell that is written.
    #[inline]
    pub(crate) fn read(&self) -> Words {
        Words {
            first: self.first.load(SeqCst),
            second: self.second.load(SeqCst),
            third: self.third.load(SeqCst),
        }
    }
}

fn empty_cell() -> Cell {
    Cell {
        first: AtomicU64::new(0),
        second: AtomicU64::new(0),
        third: AtomicU64::new(0),
        sign: AtomicU64::new(EMPTY),
    }
}

/// So many empty cells.
pub fn make_cells(alloc: Global, many: usize) -> Result<Vec<Cell>, AllocError>
    ensures { IfOk result (λ cells. vec_len cells ≡ many) }
{
    let mut cells = Vec::with_capacity(alloc, many)?;
    for _ in 0..many {
        cells.push_reserved(empty_cell());
    }
    Ok(cells)
}

/// Empties the cells. Nothing that was read of them says anything of what they are to hold.
pub fn empty_cells(cells: &mut [Cell]) {
    for cell in cells {
        *cell.sign.get_mut() = EMPTY;
    }
}
