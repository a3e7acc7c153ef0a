// How a close shares, and whether it is allotted.
ghost use Rattle.std.specs.Prelude.{◌≡◌, ℕ, ◌==◌, ◌&&◌, ◌||◌, ◌<◌, length, nat_lt};
ghost use Rattle.std.specs.List.{list_any};
ghost use Rattle.mkt_base.specs.Book.{price_at};
ghost use Rattle.mkt_base.specs.Priority.{is_same_side};
ghost use Rattle.mkt_base.specs.declared.order.Order.{Order};
ghost use Rattle.book_law.specs.BookView.{orders};
ghost use Rattle.itayose.specs.Fills.{limit_position};
ghost use Rattle.quote_law.specs.Quotes.{daily_limit, opposite};
ghost use Rattle.issue_book.specs.Closing.{end_of};
ghost use Rattle.issue_book.specs.Sessions.{close_margin, is_allotted};
ghost use Rattle.issue_book.specs.State.{State, Terms};

use crate::Window;
use book_law::sides_add_up;
use itayose::Margin;
use mkt_base::Side;
use order_book::{Book, Levels};
use tick_grid::Grid;

// The position of a side's daily limit.
pub(crate) fn limit_position(grid: &Grid, side: Side) -> u32
    ensures position { result ≡ limit_position grid.now side }
    ensures within { result < length grid.now }
{
    grid.stands();
    match side {
        Side::Buy => grid.size() - 1,
        Side::Sell => 0,
    }
}

// Whether a position is that of a side's daily limit.
fn is_limit(grid: &Grid, side: Side, at: u32) -> bool
    requires { at < length grid.now }
    ensures { result ≡ (price_at grid.now at == daily_limit grid.now side) }
{
    grid.stands();
    at == limit_position(grid, side)
}

// Whether a limit bounds the side that has more at it.
fn is_bound(upper: bool, lower: bool, levels: &Levels) -> bool
    ensures { result ≡ (upper && nat_lt levels.now.sells levels.now.buys) || (lower && nat_lt levels.now.buys levels.now.sells) }
{
    upper && levels.sells < levels.buys || lower && levels.buys < levels.sells
}

// How the orders at the price of a position share at a close.
pub(crate) fn close_margin(book: &Book, grid: &Grid, at: u32) -> Margin
    requires size { length grid.now ≡ book.now.prices }
    requires within { at < length grid.now }
    ensures { (t : Terms) (s : State) → t.grid ≡ grid.now → s.orders ≡ orders book.now → result ≡ close_margin t (price_at grid.now at) s }
{
    grid.stands();
    let levels = book.sums_at(at);
    let upper = is_limit(grid, Side::Buy, at);
    let lower = is_limit(grid, Side::Sell, at);
    if is_bound(upper, lower, &levels) {
        Margin::Rounds
    } else {
        Margin::Time
    }
}

// The other side.
fn opposite(side: Side) -> Side
    ensures { result ≡ opposite side }
{
    match side {
        Side::Buy => Side::Sell,
        Side::Sell => Side::Buy,
    }
}

// Whether a side has an order.
fn has_orders(book: &Book, side: Side) -> bool
    ensures { result ≡ list_any (λ o. is_same_side side o.side) (orders book.now) }
{
    book.stands();
    sides_add_up();
    book.best(side).is_some()
}

// The end of a window at which a side presses.
pub(crate) fn end_of(window: &Window, side: Side) -> u32
    ensures { result ≡ end_of side window.now }
{
    match side {
        Side::Buy => window.hi,
        Side::Sell => window.lo,
    }
}

// Whether the close of a side that presses at a position is allotted.
pub(crate) fn is_allotted(book: &Book, grid: &Grid, side: Side, at: u32) -> bool
    requires { at < length grid.now }
    ensures { (t : Terms) (s : State) → t.grid ≡ grid.now → s.orders ≡ orders book.now → result ≡ is_allotted t side (price_at grid.now at) s }
{
    is_limit(grid, side, at) && has_orders(book, opposite(side))
}
