// The windows in which a quote is tried, as positions of the grid.
ghost use Rattle.std.specs.Prelude.{◌≡◌, ◌<◌, ◌≤◌, IfSome, Some, length};
ghost use Rattle.mkt_base.specs.Book.{price_at};
ghost use Rattle.tick_grid.specs.Grid.{index_of};
ghost use Rattle.tick_grid.specs.Rows.{AreBandRows};
ghost use Rattle.quote_law.specs.Quotes.{IsOn, IsToward, due_window, opposite, window, window_to};

use crate::renewed;
use mkt_base::{Quote, Side};
use tick_grid::{BandRow, Grid};

// The other side.
fn opposite(side: Side) -> Side
    ensures { result ≡ opposite side }
{
    match side {
        Side::Buy => Side::Sell,
        Side::Sell => Side::Buy,
    }
}

// The two ends of a window for a quote of a side, the lower first.
fn window_to(side: Side, near: u32, far: u32) -> (u32, u32)
    ensures { result ≡ window_to side near far }
{
    match side {
        Side::Buy => (near, far),
        Side::Sell => (far, near),
    }
}

/// The position of a quote's price, which stands on the grid.
pub fn position(grid: &Grid, quote: &Quote) -> u32
    requires { IsOn grid.now quote.now }
    ensures exact { index_of grid.now quote.now.price.0 ≡ Some result }
    ensures price { price_at grid.now result ≡ quote.now.price.0 }
    ensures within { result < length grid.now }
{
    let Some(at) = grid.index(quote.price) else {
        unreachable!()
    };
    at
}

/// The positions of the lowest and the highest price that are tried after an event while a quote is shown: from one renewal
/// of the last price, to the other side's way, to the quote's price. `last` is the position of the last price. The quote's
/// price lies in the window where it is the last price or lies to the quote's way from it.
pub fn window(grid: &Grid, ranges: &[BandRow], quote: &Quote, last: u32) -> (u32, u32)
    requires rows { AreBandRows ranges.now }
    requires quote { IsOn grid.now quote.now }
    requires last { last < length grid.now }
    ensures low { price_at grid.now result.0 ≡ (window grid.now ranges.now quote.now (price_at grid.now last)).0 }
    ensures high { price_at grid.now result.1 ≡ (window grid.now ranges.now quote.now (price_at grid.now last)).1 }
    ensures low_within { result.0 < length grid.now }
    ensures high_within { result.1 < length grid.now }
    ensures holds { IsToward quote.now.side (price_at grid.now last) quote.now.price.0
        → IfSome (index_of grid.now quote.now.price.0) (λ i. (result.0 ≤ i) × (i ≤ result.1)) }
{
    grid.stands();
    let at = position(grid, quote);
    let near = renewed(grid, ranges, opposite(quote.side), last);
    window_to(quote.side, near, at)
}

/// The positions of the lowest and the highest price that are tried at the due moment of a quote and at a close: on the
/// quote's side they go one renewal beyond its price, and on the other side as far as after an event. The quote's price lies
/// in this window where it lies in that one.
pub fn due_window(grid: &Grid, ranges: &[BandRow], quote: &Quote, last: u32) -> (u32, u32)
    requires rows { AreBandRows ranges.now }
    requires quote { IsOn grid.now quote.now }
    requires last { last < length grid.now }
    ensures low { price_at grid.now result.0 ≡ (due_window grid.now ranges.now quote.now (price_at grid.now last)).0 }
    ensures high { price_at grid.now result.1 ≡ (due_window grid.now ranges.now quote.now (price_at grid.now last)).1 }
    ensures low_within { result.0 < length grid.now }
    ensures high_within { result.1 < length grid.now }
    ensures holds { IsToward quote.now.side (price_at grid.now last) quote.now.price.0
        → IfSome (index_of grid.now quote.now.price.0) (λ i. (result.0 ≤ i) × (i ≤ result.1)) }
{
    grid.stands();
    let at = position(grid, quote);
    let near = renewed(grid, ranges, opposite(quote.side), last);
    let far = renewed(grid, ranges, quote.side, at);
    window_to(quote.side, near, far)
}
