// The order that an arriving order meets next, and why it stops before it.
ghost use Rattle.std.specs.Prelude.{◌≡◌, ℕ, ◌<◌, ◌≤◌, [], IfErr, IfNone, IfOk, IfSome, length};
ghost use Rattle.mkt_base.specs.Book.{is_market_or, limit_of, price_at};
ghost use Rattle.mkt_base.specs.declared.order.Side.{Side};
ghost use Rattle.mkt_base.specs.declared.order.Order.{Order};
ghost use Rattle.tick_grid.specs.Rows.{AreBandRows, band_of};
ghost use Rattle.book_law.specs.BookView.{IsSpotBelow, side_of};
ghost use Rattle.zaraba.specs.Arrival.{Jump, crosses_at, ended_stop, opposite};
ghost use Rattle.zaraba.specs.Walk.{Awaits, IsFront, IsNext, IsStopped, jump, stop_before};

use crate::Stop;
use mkt_base::{Order, Side, Spot};
use order_book::{Book, Handle};
use tick_grid::{BandRow, Grid, band};

// A resting order: its handle, itself, and the position of its limit.
#[derive(Clone, Copy)]
pub(crate) struct Next {
    pub(crate) handle: Handle,
    pub(crate) order: Order,
    pub(crate) at: u32,
}

// The side against which an order of a side trades.
fn against(side: Side) -> Side
    ensures { result ≡ opposite side }
{
    match side {
        Side::Buy => Side::Sell,
        Side::Sell => Side::Buy,
    }
}

// Whether an order crosses the price at a position.
fn crosses(grid: &Grid, order: &Order, at: u32) -> bool
    requires at { at < length grid.now }
    requires own { IsSpotBelow (length grid.now) order.now.spot }
    ensures { result ≡ is_market_or (crosses_at order.now.side (price_at grid.now at)) (limit_of grid.now order.now.spot) }
{
    let price = grid.price(at);
    let Spot::At(own) = order.spot else {
        return true;
    };
    let limit = grid.price(own);
    match order.side {
        Side::Buy => price <= limit,
        Side::Sell => limit <= price,
    }
}

// Why an order with nothing more to cross stops.
fn ended(order: &Order) -> Stop
    ensures { result ≡ ended_stop order.now.side order.now.spot }
{
    match order.spot {
        Spot::Market => Stop::Gap(order.side),
        Spot::At(_) => Stop::Done,
    }
}

// Why an order of a side that came at the first price stops before it goes from the last price to the next, if it does.
fn cut(
    grid: &Grid,
    ranges: &[BandRow],
    side: Side,
    first: u32,
    last: u32,
    next: u32,
) -> Option<Stop>
    requires ranges { AreBandRows ranges.now }
    requires first { first < length grid.now }
    requires last { last < length grid.now }
    requires next { next < length grid.now }
    ensures { result ≡ stop_before (band_of ranges.now) (price_at grid.now first) side (jump (price_at grid.now last) (price_at grid.now next)) }
{
    let start = grid.price(first);
    let from = grid.price(last);
    let to = grid.price(next);
    if from.0.abs_diff(to.0) > band(ranges, from) {
        let way = if from < to { Side::Buy } else { Side::Sell };
        return Some(Stop::Gap(way));
    }
    if start.0.abs_diff(to.0) > 2 * band(ranges, start) {
        return Some(Stop::Sequence(side));
    }
    None
}

// The first order on the other side, if there is one.
fn front(book: &Book, grid: &Grid, order: &Order) -> Option<Next>
    requires { Awaits grid.now order.now book.now }
    ensures none { IfNone result (side_of book.now (opposite order.now.side) ≡ []) }
    ensures first { IfSome result (IsFront grid.now order.now book.now) }
{
    book.stands();
    let handle = book.best(against(order.side))?;
    let resting = book.order(handle);
    let Spot::At(at) = resting.spot else {
        unreachable!()
    };
    Some(Next {
        handle,
        order: resting,
        at,
    })
}

// The first order on the other side, where it is crossed and its price is near enough; else why the order stops.
pub(crate) fn next_against(
    book: &Book,
    grid: &Grid,
    ranges: &[BandRow],
    order: &Order,
    first: u32,
    last: u32,
) -> Result<Next, Stop>
    requires awaits { Awaits grid.now order.now book.now }
    requires own { IsSpotBelow (length grid.now) order.now.spot }
    requires ranges { AreBandRows ranges.now }
    requires first { first < length grid.now }
    requires last { last < length grid.now }
    ensures next { IfOk result (IsNext grid.now (band_of ranges.now) (price_at grid.now first) (price_at grid.now last) order.now book.now) }
    ensures stop { IfErr result (λ stop. (left : ℕ) → 0 < left
        → IsStopped grid.now (band_of ranges.now) (price_at grid.now first) order.now book.now left (price_at grid.now last) stop) }
{
    book.stands();
    grid.stands();
    let Some(next) = front(book, grid, order) else {
        return Err(ended(order));
    };
    if !crosses(grid, order, next.at) {
        return Err(ended(order));
    }
    match cut(grid, ranges, order.side, first, last, next.at) {
        Some(stop) => Err(stop),
        None => Ok(next),
    }
}
