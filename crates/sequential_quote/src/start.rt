// Where a sequential quote begins.
ghost use Rattle.std.specs.Prelude.{◌≡◌, ℕ, ◌+◌, ◌-◌, ◌*◌, ◌<◌, ◌≤◌, length};
ghost use Rattle.mkt_base.specs.Book.{price_at};
ghost use Rattle.tick_grid.specs.Range.{greatest_upto, least_from};
ghost use Rattle.tick_grid.specs.Rows.{AreBandRows, band_of};
ghost use Rattle.quote_law.specs.Quotes.{IsNear, IsOn, IsToward, sequential_quote, twice_away};

use mkt_base::{Moment, Price, Quote, QuoteKind, Side};
use quote_law::later;
use tick_grid::{BandRow, Grid, band};

// The position of the greatest price that is at most so far above that of position `b`.
fn above(grid: &Grid, b: u32, far: u32) -> u32
    requires position { b < length grid.now }
    requires far { far ≤ 2000000000 }
    ensures exact { price_at grid.now result ≡ greatest_upto grid.now (price_at grid.now b + far) }
    ensures within { result < length grid.now }
    ensures farthest { (k : ℕ) → k < length grid.now → price_at grid.now k ≤ price_at grid.now b + far
        → price_at grid.now k ≤ price_at grid.now result }
{
    grid.stands();
    let end = Price(grid.price(b).0 + far);
    let Some(at) = grid.floor(end) else {
        unreachable!()
    };
    at
}

// The position of the least price that is at most so far below that of position `b`.
fn below(grid: &Grid, b: u32, far: u32) -> u32
    requires position { b < length grid.now }
    ensures exact { price_at grid.now result ≡ least_from grid.now (price_at grid.now b - far) }
    ensures within { result < length grid.now }
    ensures farthest { (k : ℕ) → k < length grid.now → price_at grid.now b ≤ price_at grid.now k + far
        → price_at grid.now result ≤ price_at grid.now k }
{
    grid.stands();
    let end = Price(grid.price(b).0.saturating_sub(far));
    let Some(at) = grid.ceil(end) else {
        unreachable!()
    };
    at
}

// The position of the last price within twice the range of that of position `b`, to the side's way.
fn twice_away(grid: &Grid, ranges: &[BandRow], side: Side, b: u32) -> u32
    requires rows { AreBandRows ranges.now }
    requires position { b < length grid.now }
    ensures exact { price_at grid.now result ≡ twice_away grid.now ranges.now side (price_at grid.now b) }
    ensures within { result < length grid.now }
    ensures farthest { (k : ℕ) → k < length grid.now
        → IsNear side (2 * band_of ranges.now (price_at grid.now b)) (price_at grid.now b) (price_at grid.now k)
        → IsToward side (price_at grid.now k) (price_at grid.now result) }
{
    grid.stands();
    let far = 2 * band(ranges, grid.price(b));
    match side {
        Side::Buy => above(grid, b, far),
        Side::Sell => below(grid, b, far),
    }
}

/// The sequential quote of a side that begins at `now`: its price is the last one of the grid within twice the range from that
/// of position `b`, to the side's way, and it is due `interval` milliseconds later, at most 86,399,999, and never where the day
/// has ended by then. Each price of the grid that is no farther than that to the side's way from the one of `b` is the quote's
/// price or lies before it.
pub fn begin(
    grid: &Grid,
    ranges: &[BandRow],
    side: Side,
    b: u32,
    now: Moment,
    interval: u32,
) -> Quote
    requires rows { AreBandRows ranges.now }
    requires position { b < length grid.now }
    requires interval { interval ≤ 86399999 }
    ensures exact { result ≡ sequential_quote grid.now ranges.now side (price_at grid.now b) now interval }
    ensures on_grid { IsOn grid.now result }
    ensures farthest { (k : ℕ) → k < length grid.now
        → IsNear side (2 * band_of ranges.now (price_at grid.now b)) (price_at grid.now b) (price_at grid.now k)
        → IsToward side (price_at grid.now k) result.price.0 }
{
    grid.stands();
    Quote {
        kind: QuoteKind::Sequential,
        side,
        price: grid.price(twice_away(grid, ranges, side, b)),
        due: later(now, interval),
    }
}
