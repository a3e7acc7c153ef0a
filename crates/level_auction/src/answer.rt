// What an attempt over a whole grid answers, for the levels of its orders.
ghost use Rattle.std.specs.Prelude.{◌≡◌, ◌-◌, ◌<◌, All, MatchOption, None, Some, length};
ghost use Rattle.mkt_base.specs.Book.{price_at, sums_at};
ghost use Rattle.auction_law.specs.Attempt.{IsAttempt, chosen};
ghost use Rattle.level_auction.specs.Walk.{CanWalk};

use crate::walk::LevelWalk;
use auction_file::Levels;
use auction_law::{meets, plain_sums, without_trade};
use mkt_base::{Outcome, Price, Sums};

/// What an attempt with the reference at this position answers over the whole grid.
pub fn attempt(levels: &Levels, grid: &[Price], reference: u32) -> Outcome
    requires can { CanWalk grid.now levels.now.orders }
    requires left { All (λ o. 0 < o.left) levels.now.orders }
    requires in_range { reference < length grid.now }
    ensures { IsAttempt grid.now levels.now.orders (price_at grid.now reference) (price_at grid.now 0) (price_at grid.now (length grid.now - 1)) result }
{
    match chosen(levels, grid, reference) {
        Some(sums) => {
            let volume = sums.buys.min(sums.sells);
            Outcome::Traded { volume, sums }
        }
        None => without_trade(levels.as_slice(), grid, 0, grid.len() as u32 - 1),
    }
}

// The sums at the nearest price that meets the three conditions; none where no price of the grid does.
fn chosen(levels: &Levels, grid: &[Price], reference: u32) -> Option<Sums>
    requires can { CanWalk grid.now levels.now.orders }
    requires in_range { reference < length grid.now }
    ensures { MatchOption result (chosen grid.now levels.now.orders (price_at grid.now reference) ≡ None)
        (λ s. (chosen grid.now levels.now.orders (price_at grid.now reference) ≡ Some s.price.0)
        × (s ≡ sums_at grid.now levels.now.orders s.price.0)) }
{
    let sums = plain_sums(levels.as_slice(), grid, grid[reference as usize]);
    if meets(&sums) {
        return Some(sums);
    }
    let mut rest = LevelWalk::new(levels, grid, reference, sums);
    while let Some((_, sums)) = rest.next() {
        if meets(&sums) {
            return Some(sums);
        }
    }
    None
}
