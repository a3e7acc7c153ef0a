// The search for the run of prices that meet the three conditions.
ghost use Rattle.std.specs.Prelude.{◌≡◌, ℕ, ◌+◌, ◌-◌, ◌*◌, ◌^◌, ◌<◌, ◌≤◌, length};
ghost use Rattle.order_book.specs.Levels.{with_price};
ghost use Rattle.order_book.specs.Reads.{TakesTwoReads};
ghost use Rattle.itayose.specs.Reads.{ReadsWithin};
ghost use Rattle.itayose.specs.Search.{IsFirstPast, is_past};
ghost use Rattle.itayose.specs.Walk.{sums_of};

use depth_index::Steps;
use mkt_base::{Price, Sums};
use order_book::{Book, Levels};
use std::sync::ledger::Ledger;
use tick_grid::Grid;

// An end of the run.
#[derive(Clone, Copy)]
pub(crate) enum End {
    Lower,
    Upper,
}

// The first position from `from` on that is past an end of the run, by a search among those below `to`; `to` where none of them
// is. It halves the positions with two sum reads a time.
pub(crate) fn first_past<L: Ledger>(
    book: &Book,
    grid: &Grid,
    end: End,
    from: u32,
    to: u32,
    steps: &mut Steps<L>,
) -> u32
    requires size { length grid.now ≡ book.now.prices }
    requires order { from ≤ to }
    requires in_range { to ≤ length grid.now }
    ensures found { IsFirstPast book.now grid.now end from to result }
    ensures reads { (halvings : ℕ) → to - from < 2 ^ halvings → ReadsWithin book.now.prices 0 (2 * halvings) steps.old steps.new }
{
    grid.stands();
    let (mut low, mut high) = (from, to);
    while low < high {
        let middle = low + (high - low) / 2;
        if is_past(end, &sums_counted(book, grid, middle, steps)) {
            high = middle;
        } else {
            low = middle + 1;
        }
    }
    low
}

// Whether the position of these sums is past an end of the run.
fn is_past(end: End, sums: &Sums) -> bool
    ensures { result ≡ is_past end sums.now }
{
    match end {
        End::Lower => sums.sells >= 1 && sums.above <= sums.sells,
        End::Upper => sums.buys < 1 || sums.buys < sums.below,
    }
}

// The price of a position with its sums, by two sum reads.
pub(crate) fn sums_counted<L: Ledger>(
    book: &Book,
    grid: &Grid,
    i: u32,
    steps: &mut Steps<L>,
) -> Sums
    requires size { length grid.now ≡ book.now.prices }
    requires in_range { i < length grid.now }
    ensures sums { result ≡ sums_of book.now grid.now i }
    ensures reads { TakesTwoReads book.now.prices steps.old steps.new }
{
    grid.stands();
    let levels = book.sums_counted(i, steps);
    sums_with(grid.price(i), &levels)
}

// Four sums with the price that they belong to.
pub(crate) fn sums_with(price: Price, levels: &Levels) -> Sums
    ensures { result ≡ with_price price.0 levels.now }
{
    Sums {
        price,
        buys: levels.buys,
        above: levels.above,
        sells: levels.sells,
        below: levels.below,
    }
}
