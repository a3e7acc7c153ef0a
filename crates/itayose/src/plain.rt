// The attempt as the definition says it, price by price in order of nearness.
ghost use Rattle.std.specs.Prelude.{◌≡◌, ℕ, ◌<◌, ◌≤◌, IsSome, IsTrue, Some, length};
ghost use Rattle.mkt_base.specs.Book.{price_at};
ghost use Rattle.auction_law.specs.Attempt.{attempt as attempt_outcome, chosen, meets, traded_outcome};
ghost use Rattle.book_law.specs.BookView.{orders};
ghost use Rattle.itayose.specs.Answer.{IsOnPositions, outcome_of};

use crate::Attempt;
use crate::answer::{calm, traded};
use crate::outward::Outward;
use crate::telling::sums_there;
use auction_law::meets;
use mkt_base::Side;
use order_book::Book;
use tick_grid::Grid;

/// The same answer as `attempt`, by a walk over the prices in order of nearness: the definition's own program. It takes a time
/// that grows with the number of prices.
pub fn plain_attempt(book: &Book, grid: &Grid, reference: u32, lo: u32, hi: u32) -> Attempt
    requires size { length grid.now ≡ book.now.prices }
    requires lo { lo ≤ reference }
    requires hi { reference ≤ hi }
    requires in_range { hi < length grid.now }
    ensures positions { IsOnPositions grid.now result }
    ensures answer { outcome_of grid.now (orders book.now) lo hi result
        ≡ attempt_outcome grid.now (orders book.now) (price_at grid.now reference) (price_at grid.now lo) (price_at grid.now hi) }
    ensures meets { (at volume : ℕ) → result ≡ Attempt.Traded at volume → IsTrue (meets grid.now (orders book.now) (price_at grid.now at)) }
{
    book.stands();
    grid.stands();
    if let Some(calm) = calm(book) {
        return calm;
    }
    let high = sums_there(book, grid, hi);
    if high.above > high.sells {
        return Attempt::Pressed(Side::Buy);
    }
    let low = sums_there(book, grid, lo);
    if low.below > low.buys {
        return Attempt::Pressed(Side::Sell);
    }
    nearest(book, grid, reference)
}

// The nearest price that meets the three conditions, where there is one.
fn nearest(book: &Book, grid: &Grid, reference: u32) -> Attempt
    requires size { length grid.now ≡ book.now.prices }
    requires in_range { reference < length grid.now }
    requires some { IsSome (chosen grid.now (orders book.now) (price_at grid.now reference)) }
    ensures positions { IsOnPositions grid.now result }
    ensures answer { (lo hi p : ℕ) → chosen grid.now (orders book.now) (price_at grid.now reference) ≡ Some p
        → outcome_of grid.now (orders book.now) lo hi result ≡ traded_outcome grid.now (orders book.now) p }
{
    grid.stands();
    let sums = sums_there(book, grid, reference);
    if meets(&sums) {
        return traded(reference, &sums);
    }
    let mut rest = Outward::new(book, grid, reference, sums);
    while let Some((at, sums)) = rest.next() {
        if meets(&sums) {
            return traded(at, &sums);
        }
    }
    unreachable!()
}
