// When a quote is due, and how far one renewal goes.
ghost use Rattle.std.specs.Prelude.{◌≡◌, ◌<◌, ◌≤◌, length};
ghost use Rattle.mkt_base.specs.Book.{price_at};
ghost use Rattle.tick_grid.specs.Rows.{AreBandRows};
ghost use Rattle.quote_law.specs.Quotes.{IsToward, daily_limit, later, renewed};

use mkt_base::{Moment, Price, Side};
use tick_grid::{BandRow, Grid, down, up};

/// The moment so many milliseconds after another, at most 86,399,999; none where the day has ended by then.
pub fn later(now: Moment, interval: u32) -> Option<Moment>
    requires { interval ≤ 86399999 }
    ensures { result ≡ later now interval }
{
    Moment::new(now.ms() + interval)
}

/// The price at which a special quote of a side is not renewed: the last price of the grid for a buy, the first for a sell.
pub fn daily_limit(grid: &Grid, side: Side) -> Price
    ensures { result.0 ≡ daily_limit grid.now side }
{
    grid.stands();
    match side {
        Side::Buy => grid.price(grid.size() - 1),
        Side::Sell => grid.price(0),
    }
}

/// The position of the price one renewal from that of position `i`, up for a buy and down for a sell.
pub fn renewed(grid: &Grid, ranges: &[BandRow], side: Side, i: u32) -> u32
    requires rows { AreBandRows ranges.now }
    requires position { i < length grid.now }
    ensures exact { price_at grid.now result ≡ renewed grid.now ranges.now side (price_at grid.now i) }
    ensures within { result < length grid.now }
    ensures toward { IsToward side i result }
{
    match side {
        Side::Buy => up(grid, ranges, i),
        Side::Sell => down(grid, ranges, i),
    }
}
