// The attempt on a book.
ghost use Rattle.std.specs.Prelude.{◌≡◌, ◌≢◌, ℕ, ◌+◌, ◌*◌, ◌^◌, ◌<◌, ◌≤◌, true, false, IfSome, IsTrue, List, MatchOption, Some, length, min, option_map};
ghost use Rattle.mkt_base.specs.Book.{IsRising, price_at};
ghost use Rattle.mkt_base.specs.declared.order.Spot.{Spot};
ghost use Rattle.mkt_base.specs.declared.units.Price.{Price};
ghost use Rattle.auction_law.specs.Attempt.{attempt as attempt_outcome, chosen, crosses, is_calm, is_traded, meets, traded_outcome};
ghost use Rattle.book_law.specs.BookView.{IsGridOf, orders};
ghost use Rattle.itayose.specs.declared.positions.Attempt.{Attempt};
ghost use Rattle.itayose.specs.Answer.{IsCalmAnswer, IsOnPositions, best_spot, outcome_of, position_of};
ghost use Rattle.itayose.specs.Reads.{ReadsWithin, least_reads};

use crate::Attempt;
use crate::search::{End, first_past, sums_counted};
use depth_index::Steps;
use mkt_base::{Side, Spot, Sums};
use order_book::Book;
use std::sync::ledger::Ledger;
use tick_grid::Grid;

/// What an attempt with the reference at this position answers over the window of the positions from `lo` to `hi`, both
/// included. The book is over as many prices as the grid has.
///
/// Where it trades, a search over the book's sums finds both ends of the run of prices that meet the conditions, and the price of
/// the run that is nearest the reference is taken. With d the number of binary digits of the number of prices, one attempt makes
/// at most 4 * d + 8 sum reads, and each takes at most d + 1 of the steps that are counted.
pub fn attempt<L: Ledger>(
    book: &Book,
    grid: &Grid,
    reference: u32,
    lo: u32,
    hi: u32,
    steps: &mut Steps<L>,
) -> Attempt
    requires size { length grid.now ≡ book.now.prices }
    requires lo { lo ≤ reference }
    requires hi { reference ≤ hi }
    requires in_range { hi < length grid.now }
    ensures positions { IsOnPositions grid.now result }
    ensures answer { outcome_of grid.now (orders book.now) lo hi result
        ≡ attempt_outcome grid.now (orders book.now) (price_at grid.now reference) (price_at grid.now lo) (price_at grid.now hi) }
    ensures meets { (at volume : ℕ) → result ≡ Attempt.Traded at volume → IsTrue (meets grid.now (orders book.now) (price_at grid.now at)) }
    ensures reads { (digits : ℕ) → book.now.prices < 2 ^ digits
        → ReadsWithin book.now.prices (least_reads result) (4 * digits + 8) steps.old steps.new }
    ensures steps { (digits : ℕ) → book.now.prices < 2 ^ digits → steps.new ≤ steps.old + (4 * digits + 8) * (digits + 1) }
{
    book.stands();
    grid.stands();
    if let Some(calm) = calm(book) {
        return calm;
    }
    let high = sums_counted(book, grid, hi, steps);
    if high.above > high.sells {
        return Attempt::Pressed(Side::Buy);
    }
    let low = sums_counted(book, grid, lo, steps);
    if low.below > low.buys {
        return Attempt::Pressed(Side::Sell);
    }
    chosen(book, grid, reference, lo, hi, steps)
}

// The best limits of a book that has no market order and no limit buy at or above a limit sell; none of any other.
pub(crate) fn calm(book: &Book) -> Option<Attempt>
    ensures { (grid : List Price) → IsGridOf book.now grid
        → MatchOption result (is_calm grid (orders book.now) ≡ false) (IsCalmAnswer grid (orders book.now)) }
{
    book.stands();
    let (bid, ask) = (best_spot(book, Side::Buy), best_spot(book, Side::Sell));
    if is_market(bid) || is_market(ask) {
        return None;
    }
    let (bid, ask) = (position(bid), position(ask));
    if is_crossed(bid, ask) {
        return None;
    }
    Some(Attempt::Calm { bid, ask })
}

// Whether the best order of a side is a market order.
fn is_market(spot: Option<Spot>) -> bool
    ensures yes { result ≡ true → spot ≡ Some Spot.Market }
    ensures not { result ≡ false → spot ≢ Some Spot.Market }
{
    matches!(spot, Some(Spot::Market))
}

// Whether there are both limits, and the buy is at or above the sell.
fn is_crossed(bid: Option<u32>, ask: Option<u32>) -> bool
    ensures { (grid : List Price) → IsRising grid → IfSome bid (λ i. i < length grid) → IfSome ask (λ i. i < length grid)
        → result ≡ crosses (option_map (price_at grid) bid) (option_map (price_at grid) ask) }
{
    match (bid, ask) {
        (Some(bid), Some(ask)) => ask <= bid,
        _ => false,
    }
}

// Where the best order of a side stands; none where the side has no order.
fn best_spot(book: &Book, side: Side) -> Option<Spot>
    ensures { result ≡ best_spot book.now side }
{
    match book.best(side) {
        Some(best) => Some(book.order(best).spot),
        None => None,
    }
}

// The price of the run that is nearest to the reference, where an attempt trades in the window.
fn chosen<L: Ledger>(
    book: &Book,
    grid: &Grid,
    reference: u32,
    lo: u32,
    hi: u32,
    steps: &mut Steps<L>,
) -> Attempt
    requires size { length grid.now ≡ book.now.prices }
    requires lo { lo ≤ reference }
    requires hi { reference ≤ hi }
    requires in_range { hi < length grid.now }
    requires traded { IsTrue (is_traded grid.now (orders book.now) (price_at grid.now reference) (price_at grid.now lo) (price_at grid.now hi)) }
    ensures positions { IsOnPositions grid.now result }
    ensures answer { (p : ℕ) → chosen grid.now (orders book.now) (price_at grid.now reference) ≡ Some p
        → outcome_of grid.now (orders book.now) lo hi result ≡ traded_outcome grid.now (orders book.now) p }
    ensures trades { least_reads result ≡ 6 }
    ensures reads { (digits : ℕ) → book.now.prices < 2 ^ digits → ReadsWithin book.now.prices 2 (4 * digits + 2) steps.old steps.new }
{
    grid.stands();
    let first = first_past(book, grid, End::Lower, lo, hi, steps);
    let past = first_past(book, grid, End::Upper, first + 1, hi + 1, steps);
    let at = reference.min(past - 1).max(first);
    let sums = sums_counted(book, grid, at, steps);
    traded(at, &sums)
}

// The volume at a position of these sums.
pub(crate) fn traded(at: u32, sums: &Sums) -> Attempt
    ensures { result ≡ Attempt.Traded at (min sums.now.buys sums.now.sells) }
{
    Attempt::Traded {
        at,
        volume: sums.buys.min(sums.sells),
    }
}

// The position of a limit; none of the market.
fn position(spot: Option<Spot>) -> Option<u32>
    ensures { result ≡ position_of spot }
{
    match spot {
        Some(Spot::At(i)) => Some(i),
        _ => None,
    }
}
