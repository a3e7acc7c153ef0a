// An order that arrives.
ghost use Rattle.std.specs.Prelude.{◌≡◌, ℕ, ◌+◌, ◌-◌, ◌<◌, ◌≤◌, List, [], ◌∷◌, ◌++◌, IsTrue, length, map};
ghost use Rattle.mkt_base.specs.Book.{price_at};
ghost use Rattle.mkt_base.specs.declared.order.Spot.TheVariants.{At};
ghost use Rattle.mkt_base.specs.declared.output.Output.{Output};
ghost use Rattle.tick_grid.specs.Rows.{AreBandRows, band_of};
ghost use Rattle.auction_law.specs.Attempt.{is_calm};
ghost use Rattle.book_law.specs.BookView.{IsFresh, IsSpotBelow, Names, orders};
ghost use Rattle.zaraba.specs.declared.stop.Stop.TheVariants.{Done};
ghost use Rattle.zaraba.specs.Arrival.{arrival, book_after, rest_of, trade_with};
ghost use Rattle.zaraba.specs.Walk.{Awaits, IsNext, IsStopped, IsWalked, IsWalking, with_left};

use crate::Stop;
use crate::next::{Next, next_against};
use mkt_base::{Order, Side, Trade, Watch};
use order_book::{Book, take};
use tick_grid::{BandRow, Grid};

/// What became of an order that arrived.
#[derive(Clone, Copy, Debug, PartialEq, Eq)]
pub struct Arrived {
    pub stop: Stop,
    /// The shares that it has left, which stand in the book.
    pub left: u64,
    /// The position of the last price afterwards.
    pub last: u32,
}

/// Lets an order trade with the best opposite orders that it crosses, at their prices, until the next price is too far by
/// the ranges, and puts what is left of it into the book. Tells a watch its trades. The book is over as many prices as the
/// grid has, and holds no market order and no limit buy at or above a limit sell; it is so afterwards, too, where the stop
/// is `Done`. `last` is the position of the last price.
pub fn incoming<W: Watch>(
    book: &mut Book,
    grid: &Grid,
    ranges: &[BandRow],
    order: Order,
    last: u32,
    watch: &mut W,
) -> Arrived
    requires size { length grid.now ≡ book.old.prices }
    requires ranges { AreBandRows ranges.now }
    requires calm { IsTrue (is_calm grid.now (orders book.old)) }
    requires order { IsFresh book.old order }
    requires last { last < length grid.now }
    ensures stop { result.stop ≡ (arrival grid.now (band_of ranges.now) (orders book.old) order (price_at grid.now last)).stop }
    ensures left { result.left ≡ (arrival grid.now (band_of ranges.now) (orders book.old) order (price_at grid.now last)).left }
    ensures last { price_at grid.now result.last ≡ (arrival grid.now (band_of ranges.now) (orders book.old) order (price_at grid.now last)).last }
    ensures in_range { result.last < length grid.now }
    ensures book { orders book.new
        ≡ book_after (arrival grid.now (band_of ranges.now) (orders book.old) order (price_at grid.now last)) (orders book.old) order }
    ensures calm { result.stop ≡ Done → IsTrue (is_calm grid.now (orders book.new)) }
    ensures prices { book.new.prices ≡ book.old.prices }
    ensures capacity { book.new.capacity ≡ book.old.capacity }
    ensures told { (from : W) (outputs : List Output) → W.took from outputs watch.old
        → W.took from (outputs ++ map (λ t. Output.Traded t)
        (arrival grid.now (band_of ranges.now) (orders book.old) order (price_at grid.now last)).trades) watch.new }
{
    book.stands();
    let arrived = walk(book, grid, ranges, &order, last, watch);
    join(book, &order, arrived.left);
    arrived
}

// Lets an order trade with the best opposite orders that it crosses, until it has nothing left or stops.
fn walk<W: Watch>(
    book: &mut Book,
    grid: &Grid,
    ranges: &[BandRow],
    order: &Order,
    first: u32,
    watch: &mut W,
) -> Arrived
    requires awaits { Awaits grid.now order.now book.old }
    requires own { IsSpotBelow (length grid.now) order.now.spot }
    requires ranges { AreBandRows ranges.now }
    requires first { first < length grid.now }
    ensures walked { IsWalking W.took grid.now (band_of ranges.now) (price_at grid.now first) order.now book.old book.new result.left (price_at grid.now result.last) watch.old watch.new }
    ensures stopped { IsStopped grid.now (band_of ranges.now) (price_at grid.now first) order.now book.new result.left (price_at grid.now result.last) result.stop }
    ensures in_range { result.last < length grid.now }
{
    book.stands();
    let mut left = order.left;
    let mut last = first;
    while left > 0 {
        match next_against(book, grid, ranges, order, first, last) {
            Ok(next) => {
                left -= meet(book, grid, order, &next, left, watch);
                last = next.at;
            }
            Err(stop) => return Arrived { stop, left, last },
        }
    }
    Arrived {
        stop: Stop::Done,
        left,
        last,
    }
}

// Trades with the next order as much as both have left, and answers how much that is.
fn meet<W: Watch>(
    book: &mut Book,
    grid: &Grid,
    order: &Order,
    next: &Next,
    left: u64,
    watch: &mut W,
) -> u64
    requires awaits { Awaits grid.now order.now book.old }
    requires names { Names book.old next.now.handle next.now.order }
    requires spot { next.now.order.spot ≡ At next.now.at }
    requires inside { next.now.at < length grid.now }
    requires some { 1 ≤ next.now.order.left }
    requires wanted { 1 ≤ left }
    ensures some { 1 ≤ result }
    ensures walked { (range : ℕ → ℕ) (first last : ℕ) → IsNext grid.now range first last order.now book.old next.now
        → IsWalked grid.now range first order.now book.old book.new left (left - result) last (price_at grid.now next.now.at)
        (trade_with grid.now order.now next.now.order result ∷ []) }
    ensures within { result ≤ left }
    ensures told { (from : W) (outputs : List Output) → W.took from outputs watch.old
        → W.took from (outputs ++ Output.Traded (trade_with grid.now order.now next.now.order result) ∷ []) watch.new }
{
    book.stands();
    grid.stands();
    let qty = left.min(next.order.left);
    take(book, next.handle, &next.order, qty);
    watch.trade(trade(grid, order, next, qty));
    qty
}

// The trade of an order with the next one, at the next one's price.
fn trade(grid: &Grid, order: &Order, next: &Next, qty: u64) -> Trade
    requires spot { next.now.order.spot ≡ At next.now.at }
    requires inside { next.now.at < length grid.now }
    ensures { result ≡ trade_with grid.now order.now next.now.order qty }
{
    let price = grid.price(next.at);
    match order.side {
        Side::Buy => Trade {
            price,
            qty,
            buy: order.place,
            sell: next.order.place,
        },
        Side::Sell => Trade {
            price,
            qty,
            buy: next.order.place,
            sell: order.place,
        },
    }
}

// Puts what is left of an order into the book.
fn join(book: &mut Book, order: &Order, left: u64)
    requires fresh { 0 < left → IsFresh book.old (with_left order.now left) }
    ensures orders { orders book.new ≡ orders book.old ++ rest_of order.now left }
    ensures prices { book.new.prices ≡ book.old.prices }
    ensures capacity { book.new.capacity ≡ book.old.capacity }
{
    if left > 0 {
        let _ = book.insert(Order { left, ..*order });
    }
}
