// The walk outward from a reference over a grid, with the sums at each price from those at its neighbour.
ghost use Rattle.std.specs.Prelude.{◌≡◌, ℕ, ◌+◌, ◌-◌, ◌<◌, ◌≤◌, [], ◌∷◌, MatchOption, length};
ghost use Rattle.mkt_base.specs.Book.{price_at, sums_at};
ghost use Rattle.auction_law.specs.Nearness.{by_nearness, is_nearer, prices_of};
ghost use Rattle.level_auction.specs.Walk.{CanWalk};

use auction_file::Levels;
use mkt_base::{Price, Side, Spot, Sums};
use std::marker::Model;

// The prices of a grid other than the reference that are left, the nearest first, with the sums of some levels at each.
#[derive(Drop)]
pub(crate) struct LevelWalk<'a> {
    levels: &'a Levels,
    grid: &'a [Price],
    reference: Price,
    // the positions below this one are left, and
    below: u32,
    // those from this one on
    above: u32,
    // the sums at `below`, and at the position before `above`
    low: Sums,
    high: Sums,
}

impl<'a> Model for LevelWalk<'a> {
    ghost use Rattle.std.specs.Prelude.{◌++◌, take, drop};
    ghost use Rattle.auction_law.specs.Nearness.{by_nearness, prices_of};
    ghost use Rattle.itayose.specs.Walk.{Outward};
    ghost use Rattle.level_auction.specs.Walk.{IsLevelWalk};

    ghost Value = { Outward };

    ghost view = { λ w. record {
      grid = w.grid.now;
      orders = w.levels.now.orders;
      left = by_nearness w.reference.0 (prices_of (take w.below w.grid.now ++ drop w.above w.grid.now));
    } };

    ghost invariant = { λ w. IsLevelWalk w.levels.now.orders w.grid.now w.reference.0 w.below w.above w.low w.high };
}

impl<'a> LevelWalk<'a> {
    // From a reference on, whose own sums are known.
    pub(crate) fn new(
        levels: &'a Levels,
        grid: &'a [Price],
        reference: u32,
        sums: Sums,
    ) -> LevelWalk<'a>
        requires can { CanWalk grid.now levels.now.orders }
        requires in_range { reference < length grid.now }
        requires sums { sums ≡ sums_at grid.now levels.now.orders (price_at grid.now reference) }
        ensures grid { result.grid ≡ grid.now }
        ensures orders { result.orders ≡ levels.now.orders }
        ensures left { by_nearness (price_at grid.now reference) (prices_of grid.now) ≡ price_at grid.now reference ∷ result.left }
    {
        LevelWalk {
            levels,
            grid,
            reference: grid[reference as usize],
            below: reference,
            above: reference + 1,
            low: sums,
            high: sums,
        }
    }

    // Takes the nearest price that is left: its position, and its sums.
    pub(crate) fn next(&mut self) -> Option<(u32, Sums)>
        ensures grid { self.new.grid ≡ self.old.grid }
        ensures orders { self.new.orders ≡ self.old.orders }
        ensures next { MatchOption result (self.old.left ≡ []) (λ found.
            (found.0 < length self.old.grid)
            × (found.1 ≡ sums_at self.old.grid self.old.orders (price_at self.old.grid found.0))
            × (self.old.left ≡ price_at self.old.grid found.0 ∷ self.new.left)) }
    {
        let size = self.grid.len() as u32;
        if self.below > 0
            && (self.above >= size
                || is_lower_nearer(
                    self.grid[self.below as usize - 1],
                    self.reference,
                    self.grid[self.above as usize],
                ))
        {
            self.below -= 1;
            self.low = sums_below(self.levels, self.grid, self.below, &self.low);
            return Some((self.below, self.low));
        }
        if self.above >= size {
            return None;
        }
        let at = self.above;
        self.high = sums_above(self.levels, self.grid, at, &self.high);
        self.above += 1;
        Some((at, self.high))
    }
}

// Of two prices on both sides of a reference, the lower is no farther from it.
fn is_lower_nearer(lower: Price, reference: Price, upper: Price) -> bool
    requires lower { lower.0 ≤ reference.0 }
    requires upper { reference.0 < upper.0 }
    ensures { result ≡ is_nearer reference.0 lower.0 upper.0 }
{
    reference.0 - lower.0 <= upper.0 - reference.0
}

// The sums at a position, from those at the next one above it.
fn sums_below(levels: &Levels, grid: &[Price], i: u32, next: &Sums) -> Sums
    requires can { CanWalk grid.now levels.now.orders }
    requires in_range { i + 1 < length grid.now }
    requires next { next.now ≡ sums_at grid.now levels.now.orders (price_at grid.now (i + 1)) }
    ensures { result ≡ sums_at grid.now levels.now.orders (price_at grid.now i) }
{
    Sums {
        price: grid[i as usize],
        buys: next.buys + levels.left(Side::Buy, Spot::At(i)),
        above: next.buys,
        sells: next.below,
        below: next.below - levels.left(Side::Sell, Spot::At(i)),
    }
}

// The sums at a position, from those at the next one below it.
fn sums_above(levels: &Levels, grid: &[Price], i: u32, next: &Sums) -> Sums
    requires can { CanWalk grid.now levels.now.orders }
    requires in_range { i < length grid.now }
    requires some { 0 < i }
    requires next { next.now ≡ sums_at grid.now levels.now.orders (price_at grid.now (i - 1)) }
    ensures { result ≡ sums_at grid.now levels.now.orders (price_at grid.now i) }
{
    Sums {
        price: grid[i as usize],
        buys: next.above,
        above: next.above - levels.left(Side::Buy, Spot::At(i)),
        sells: next.sells + levels.left(Side::Sell, Spot::At(i)),
        below: next.sells,
    }
}
