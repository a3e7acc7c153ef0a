// The walk over a grid in order of nearness.
ghost use Rattle.std.specs.Prelude.{◌≡◌, ◌<◌, ◌≤◌, [], ◌∷◌, length, MatchOption};
ghost use Rattle.mkt_base.specs.Book.{IsRising, price_at};
ghost use Rattle.auction_law.specs.Nearness.{by_nearness, is_nearer, prices_of};

use mkt_base::Price;
use std::marker::Model;

/// The prices of a grid that are left, in order of their nearness to a reference on it. Of two that are
/// equally far the lower comes first.
#[derive(Drop)]
pub struct ByNearness<'a> {
    grid: &'a [Price],
    reference: Price,
    /// The prices at the positions below this one are left, and
    below: usize,
    /// those from this one on.
    above: usize,
}

impl<'a> Model for ByNearness<'a> {
    ghost use Rattle.std.specs.Prelude.{List, ℕ, ◌++◌, take, drop};
    ghost use Rattle.auction_law.specs.Nearness.{IsWalk, by_nearness, prices_of};

    ghost Value = { List ℕ };

    ghost view = { λ w. by_nearness w.reference.0 (prices_of (take w.below w.grid.now ++ drop w.above w.grid.now)) };

    ghost invariant = { λ w. IsWalk w.grid.now w.reference.0 w.below w.above };
}

impl<'a> ByNearness<'a> {
    /// All the prices of a rising grid, whose reference is at this position.
    pub fn new(grid: &'a [Price], reference: u32) -> ByNearness<'a>
        requires rising { IsRising grid.now }
        requires in_range { reference < length grid.now }
        ensures { result ≡ by_nearness (price_at grid.now reference) (prices_of grid.now) }
    {
        let after = reference as usize + 1;
        ByNearness {
            grid,
            reference: grid[reference as usize],
            below: after,
            above: after,
        }
    }

    /// Takes the nearest price. None where no price is left.
    pub fn next(&mut self) -> Option<Price>
        ensures { MatchOption result ((self.old ≡ []) × (self.new ≡ [])) (λ price.
            self.old ≡ price.0 ∷ self.new) }
    {
        if self.below > 0
            && (self.above >= self.grid.len()
                || is_lower_nearer(
                    self.grid[self.below - 1],
                    self.reference,
                    self.grid[self.above],
                ))
        {
            self.below -= 1;
            return Some(self.grid[self.below]);
        }
        let price = *self.grid.get(self.above)?;
        self.above += 1;
        Some(price)
    }
}

// Of the two prices next to those that were taken, the lower is no farther from the reference.
fn is_lower_nearer(lower: Price, reference: Price, upper: Price) -> bool
    requires lower { lower.0 ≤ reference.0 }
    requires upper { reference.0 < upper.0 }
    ensures { result ≡ is_nearer reference.0 lower.0 upper.0 }
{
    reference.0 - lower.0 <= upper.0 - reference.0
}
