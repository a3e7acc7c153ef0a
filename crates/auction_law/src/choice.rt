// The chosen price, by scanning every price of the grid.
ghost use Rattle.std.specs.Prelude.{◌≡◌, ◌<◌, ◌&&◌, All, IsTrue, MatchOption, Some, None, cond, false, length, min, nat_le};
ghost use Rattle.mkt_base.specs.Book.{FitsSums, IsOnGrid, sums_at};
ghost use Rattle.auction_law.specs.Attempt.{chosen, is_traded};
ghost use Rattle.auction_law.specs.Nearness.{is_nearer};

use crate::sums::plain_sums;
use mkt_base::{Order, Price, Sums};

/// The sums at the chosen price. None where no price of the grid meets the three conditions.
pub fn chosen_sums(orders: &[Order], grid: &[Price], reference: Price) -> Option<Sums>
    requires on_grid { All (λ o. IsOnGrid grid.now o.spot) orders.now }
    requires fits { FitsSums orders.now }
    ensures { MatchOption result (chosen grid.now orders.now reference.0 ≡ None)
        (λ s. (chosen grid.now orders.now reference.0 ≡ Some s.price.0)
        × (s ≡ sums_at grid.now orders.now s.price.0)) }
{
    let mut best = None;
    for i in (0..grid.len()).rev() {
        let sums = plain_sums(orders, grid, grid[i]);
        if meets(&sums) {
            best = Some(nearest(reference, best, sums));
        }
    }
    best
}

// The sums at the chosen price where it lies in the window between these prices, both included.
pub fn chosen_within(
    orders: &[Order],
    grid: &[Price],
    reference: Price,
    lo: Price,
    hi: Price,
) -> Option<Sums>
    requires on_grid { All (λ o. IsOnGrid grid.now o.spot) orders.now }
    requires fits { FitsSums orders.now }
    ensures { MatchOption result (is_traded grid.now orders.now reference.0 lo.0 hi.0 ≡ false)
        (λ s. IsTrue (is_traded grid.now orders.now reference.0 lo.0 hi.0)
        × (chosen grid.now orders.now reference.0 ≡ Some s.price.0)
        × (s ≡ sums_at grid.now orders.now s.price.0)) }
{
    let sums = chosen_sums(orders, grid, reference)?;
    if !is_within(sums.price, lo, hi) {
        return None;
    }
    Some(sums)
}

// The price is between the two, both included.
fn is_within(price: Price, lo: Price, hi: Price) -> bool
    ensures { result ≡ (nat_le lo.0 price.0 && nat_le price.0 hi.0) }
{
    lo <= price && price <= hi
}

/// Whether the price of these sums meets the three conditions: at least one share trades, and so does all that is better
/// than the price on either side.
pub fn meets(sums: &Sums) -> bool
    ensures { result ≡ (nat_le 1 (min sums.now.buys sums.now.sells) && nat_le sums.now.above (min sums.now.buys sums.now.sells)
        && nat_le sums.now.below (min sums.now.buys sums.now.sells)) }
{
    let volume = sums.buys.min(sums.sells);
    volume >= 1 && sums.above <= volume && sums.below <= volume
}

// The sums at the nearer price; `sums` itself where there are no others.
fn nearest(reference: Price, best: Option<Sums>, sums: Sums) -> Sums
    ensures { MatchOption best (result ≡ sums) (λ b.
        result ≡ cond (is_nearer reference.0 sums.price.0 b.price.0) sums b) }
{
    match best {
        Some(best) if !is_nearer(reference, sums.price, best.price) => best,
        _ => sums,
    }
}

// The first price is less far from the reference than the second, or as far and lower.
fn is_nearer(reference: Price, price: Price, other: Price) -> bool
    ensures { result ≡ is_nearer reference.0 price.0 other.0 }
{
    let distance = reference.0.abs_diff(price.0);
    let other_distance = reference.0.abs_diff(other.0);
    distance < other_distance || (distance == other_distance && price < other)
}
