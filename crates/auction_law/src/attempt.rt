// The attempt, by scanning every price of the grid against the whole list of orders.
ghost use Rattle.std.specs.Prelude.{◌≡◌, ◌<◌, ◌≤◌, ℕ, All, false, length, option_map, true};
ghost use Rattle.mkt_base.specs.Book.{FitsSums, IsOnGrid, IsRising, price_at};
ghost use Rattle.auction_law.specs.Attempt.{IsAttempt, all_limited, best_ask, best_bid, crosses, higher, is_calm, is_traded, lower, side_limit};

use crate::choice::chosen_within;
use crate::sums::{limit_of, plain_sums};
use mkt_base::{Order, Outcome, Price, Side};

/// What an attempt with the reference at this position answers over the window of the positions from
/// `lo` to `hi`, both included.
pub fn plain_attempt(orders: &[Order], grid: &[Price], reference: u32, lo: u32, hi: u32) -> Outcome
    requires rising { IsRising grid.now }
    requires on_grid { All (λ o. IsOnGrid grid.now o.spot) orders.now }
    requires left { All (λ o. 0 < o.left) orders.now }
    requires fits { FitsSums orders.now }
    requires lo { lo ≤ reference }
    requires hi { reference ≤ hi }
    requires in_range { hi < length grid.now }
    ensures { IsAttempt grid.now orders.now (price_at grid.now reference) (price_at grid.now lo) (price_at grid.now hi) result }
{
    let at = grid[reference as usize];
    let lowest = grid[lo as usize];
    let highest = grid[hi as usize];
    match chosen_within(orders, grid, at, lowest, highest) {
        Some(sums) => {
            let volume = sums.buys.min(sums.sells);
            Outcome::Traded { volume, sums }
        }
        None => without_trade(orders, grid, lo, hi),
    }
}

/// The answer where the chosen price does not lie in the window of the positions from `lo` to `hi`, both included.
pub fn without_trade(orders: &[Order], grid: &[Price], lo: u32, hi: u32) -> Outcome
    requires rising { IsRising grid.now }
    requires on_grid { All (λ o. IsOnGrid grid.now o.spot) orders.now }
    requires left { All (λ o. 0 < o.left) orders.now }
    requires fits { FitsSums orders.now }
    requires window { lo ≤ hi }
    requires in_range { hi < length grid.now }
    ensures { (reference : ℕ) → lo ≤ reference → reference ≤ hi
        → is_traded grid.now orders.now (price_at grid.now reference) (price_at grid.now lo) (price_at grid.now hi) ≡ false
        → IsAttempt grid.now orders.now (price_at grid.now reference) (price_at grid.now lo) (price_at grid.now hi) result }
{
    let bid = best_bid(orders, grid);
    let ask = best_ask(orders, grid);
    if is_calm(orders, grid, bid, ask) {
        return Outcome::Calm { bid, ask };
    }
    let high = plain_sums(orders, grid, grid[hi as usize]);
    if high.above > high.sells {
        return Outcome::Pressed {
            side: Side::Buy,
            price: high.price,
            pressing: high.above,
            facing: high.sells,
        };
    }
    let low = plain_sums(orders, grid, grid[lo as usize]);
    Outcome::Pressed {
        side: Side::Sell,
        price: low.price,
        pressing: low.below,
        facing: low.buys,
    }
}

// No order is a market order, and the best bid is not at or above the best ask.
fn is_calm(orders: &[Order], grid: &[Price], bid: Option<Price>, ask: Option<Price>) -> bool
    requires on_grid { All (λ o. IsOnGrid grid.now o.spot) orders.now }
    requires bid { bid ≡ best_bid grid.now orders.now }
    requires ask { ask ≡ best_ask grid.now orders.now }
    ensures { result ≡ is_calm grid.now orders.now }
{
    all_limited(orders, grid) && !crosses(bid, ask)
}

// No order is a market order.
fn all_limited(orders: &[Order], grid: &[Price]) -> bool
    requires on_grid { All (λ o. IsOnGrid grid.now o.spot) orders.now }
    ensures { result ≡ all_limited grid.now orders.now }
{
    for order in orders {
        if limit_of(grid, order.spot).is_none() {
            return false;
        }
    }
    true
}

// The limit buy is at or above the limit sell.
fn crosses(bid: Option<Price>, ask: Option<Price>) -> bool
    ensures { result ≡ crosses (option_map (λ p. p.0) bid) (option_map (λ p. p.0) ask) }
{
    match (bid, ask) {
        (Some(bid), Some(ask)) => bid >= ask,
        _ => false,
    }
}

/// The highest limit of the limit buys. None where there is none.
pub fn best_bid(orders: &[Order], grid: &[Price]) -> Option<Price>
    requires on_grid { All (λ o. IsOnGrid grid.now o.spot) orders.now }
    ensures { result ≡ best_bid grid.now orders.now }
{
    let mut best = None;
    for order in orders {
        best = higher(best, bid_of(grid, order));
    }
    best
}

/// The lowest limit of the limit sells. None where there is none.
pub fn best_ask(orders: &[Order], grid: &[Price]) -> Option<Price>
    requires on_grid { All (λ o. IsOnGrid grid.now o.spot) orders.now }
    ensures { result ≡ best_ask grid.now orders.now }
{
    let mut best = None;
    for order in orders {
        best = lower(best, ask_of(grid, order));
    }
    best
}

// The limit of a limit buy. None for any other order.
fn bid_of(grid: &[Price], order: &Order) -> Option<Price>
    requires on_grid { IsOnGrid grid.now order.now.spot }
    ensures { option_map (λ p. p.0) result ≡ side_limit grid.now true order.now }
{
    match order.side {
        Side::Buy => limit_of(grid, order.spot),
        Side::Sell => None,
    }
}

// The limit of a limit sell. None for any other order.
fn ask_of(grid: &[Price], order: &Order) -> Option<Price>
    requires on_grid { IsOnGrid grid.now order.now.spot }
    ensures { option_map (λ p. p.0) result ≡ side_limit grid.now false order.now }
{
    match order.side {
        Side::Buy => None,
        Side::Sell => limit_of(grid, order.spot),
    }
}

// The higher of two prices, where there are any.
fn higher(first: Option<Price>, second: Option<Price>) -> Option<Price>
    ensures { option_map (λ p. p.0) result
        ≡ higher (option_map (λ p. p.0) first) (option_map (λ p. p.0) second) }
{
    match (first, second) {
        (Some(a), Some(b)) => Some(if a < b { b } else { a }),
        (Some(a), None) => Some(a),
        (None, b) => b,
    }
}

// The lower of two prices, where there are any.
fn lower(first: Option<Price>, second: Option<Price>) -> Option<Price>
    ensures { option_map (λ p. p.0) result
        ≡ lower (option_map (λ p. p.0) first) (option_map (λ p. p.0) second) }
{
    match (first, second) {
        (Some(a), Some(b)) => Some(if b < a { b } else { a }),
        (Some(a), None) => Some(a),
        (None, b) => b,
    }
}
