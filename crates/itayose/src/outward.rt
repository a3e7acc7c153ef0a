// The walk outward from a reference, with the sums at each price from those at its neighbour.
ghost use Rattle.std.specs.Prelude.{◌≡◌, ℕ, ◌+◌, ◌-◌, ◌<◌, ◌≤◌, [], ◌∷◌, MatchOption, length};
ghost use Rattle.mkt_base.specs.Book.{price_at, sums_at};
ghost use Rattle.auction_law.specs.Nearness.{by_nearness, is_nearer, prices_of};
ghost use Rattle.book_law.specs.BookView.{orders};
ghost use Rattle.itayose.specs.Walk.{sums_of};

use mkt_base::{Price, Side, Spot, Sums};
use order_book::Book;
use std::marker::Model;
use tick_grid::Grid;

// The prices of a grid other than the reference that are left, the nearest first, with the sums of a book at each.
#[derive(Drop)]
pub(crate) struct Outward<'a> {
    book: &'a Book,
    grid: &'a Grid,
    reference: Price,
    // the positions below this one are left, and
    below: u32,
    // those from this one on
    above: u32,
    // the sums at `below`, and at the position before `above`
    low: Sums,
    high: Sums,
}

impl<'a> Model for Outward<'a> {
    ghost use Rattle.std.specs.Prelude.{◌++◌, take, drop};
    ghost use Rattle.auction_law.specs.Nearness.{by_nearness, prices_of};
    ghost use Rattle.book_law.specs.BookView.{orders};
    ghost use Rattle.itayose.specs.Walk.{IsOutward, Outward as Left};

    ghost Value = { Left };

    ghost view = { λ w. record {
      grid = w.grid.now;
      orders = orders w.book.now;
      left = by_nearness w.reference.0 (prices_of (take w.below w.grid.now ++ drop w.above w.grid.now));
    } };

    ghost invariant = { λ w. IsOutward w.book.now w.grid.now w.reference.0 w.below w.above w.low w.high };
}

impl<'a> Outward<'a> {
    // From a reference on, whose own sums are known.
    pub(crate) fn new(book: &'a Book, grid: &'a Grid, reference: u32, sums: Sums) -> Outward<'a>
        requires size { length grid.now ≡ book.now.prices }
        requires in_range { reference < length grid.now }
        requires sums { sums ≡ sums_of book.now grid.now reference }
        ensures grid { result.grid ≡ grid.now }
        ensures orders { result.orders ≡ orders book.now }
        ensures left { by_nearness (price_at grid.now reference) (prices_of grid.now) ≡ price_at grid.now reference ∷ result.left }
    {
        grid.stands();
        Outward {
            book,
            grid,
            reference: grid.price(reference),
            below: reference,
            above: reference + 1,
            low: sums,
            high: sums,
        }
    }

    // Takes the nearest price that is left: its position, and its sums.
    pub(crate) fn next(&mut self) -> Option<(u32, Sums)>
        ensures grid { self.new.grid ≡ self.old.grid }
        ensures orders { self.new.orders ≡ self.old.orders }
        ensures next { MatchOption result (self.old.left ≡ []) (λ found.
            (found.0 < length self.old.grid)
            × (found.1 ≡ sums_at self.old.grid self.old.orders (price_at self.old.grid found.0))
            × (self.old.left ≡ price_at self.old.grid found.0 ∷ self.new.left)) }
    {
        let size = self.grid.size();
        if self.below > 0
            && (self.above >= size
                || is_lower_nearer(
                    self.grid.price(self.below - 1),
                    self.reference,
                    self.grid.price(self.above),
                ))
        {
            self.below -= 1;
            self.low = sums_below(self.book, self.grid, self.below, &self.low);
            return Some((self.below, self.low));
        }
        if self.above >= size {
            return None;
        }
        let at = self.above;
        self.high = sums_above(self.book, self.grid, at, &self.high);
        self.above += 1;
        Some((at, self.high))
    }
}

// Of two prices on both sides of a reference, the lower is no farther from it.
fn is_lower_nearer(lower: Price, reference: Price, upper: Price) -> bool
    requires lower { lower.0 ≤ reference.0 }
    requires upper { reference.0 < upper.0 }
    ensures { result ≡ is_nearer reference.0 lower.0 upper.0 }
{
    reference.0 - lower.0 <= upper.0 - reference.0
}

// The sums at a position, from those at the next one above it.
pub(crate) fn sums_below(book: &Book, grid: &Grid, i: u32, next: &Sums) -> Sums
    requires size { length grid.now ≡ book.now.prices }
    requires in_range { i + 1 < length grid.now }
    requires next { next.now ≡ sums_of book.now grid.now (i + 1) }
    ensures { result ≡ sums_of book.now grid.now i }
{
    book.stands();
    grid.stands();
    Sums {
        price: grid.price(i),
        buys: next.buys + book.level(Side::Buy, Spot::At(i)),
        above: next.buys,
        sells: next.below,
        below: next.below - book.level(Side::Sell, Spot::At(i)),
    }
}

// The sums at a position, from those at the next one below it.
pub(crate) fn sums_above(book: &Book, grid: &Grid, i: u32, next: &Sums) -> Sums
    requires size { length grid.now ≡ book.now.prices }
    requires in_range { i < length grid.now }
    requires some { 0 < i }
    requires next { next.now ≡ sums_of book.now grid.now (i - 1) }
    ensures { result ≡ sums_of book.now grid.now i }
{
    book.stands();
    grid.stands();
    Sums {
        price: grid.price(i),
        buys: next.above,
        above: next.above - book.level(Side::Buy, Spot::At(i)),
        sells: next.sells + book.level(Side::Sell, Spot::At(i)),
        below: next.sells,
    }
}
