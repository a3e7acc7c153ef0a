// The prices to which a quote is renewed, one range up or down.
ghost use Rattle.std.specs.Prelude.{◌≡◌, ◌<◌, ◌≤◌, length};
ghost use Rattle.mkt_base.specs.Book.{price_at};
ghost use Rattle.tick_grid.specs.Range.{down_of, up_of};
ghost use Rattle.tick_grid.specs.Rows.{AreBandRows};

use crate::{BandRow, Grid, band};
use mkt_base::Price;

/// The position of the price one range above that of position `i`: at least one position further, and `i` itself at the
/// end of the grid.
pub fn up(grid: &Grid, ranges: &[BandRow], i: u32) -> u32
    requires rows { AreBandRows ranges.now }
    requires position { i < length grid.now }
    ensures exact { price_at grid.now result ≡ up_of grid.now ranges.now (price_at grid.now i) }
    ensures within { result < length grid.now }
    ensures not_below { i ≤ result }
{
    grid.stands();
    let next = i + 1;
    if next == grid.size() {
        return i;
    }
    let p = grid.price(i);
    match grid.floor(Price(p.0 + band(ranges, p))) {
        Some(far) => far.max(next),
        None => next,
    }
}

/// The position of the price one range below that of position `i`: at least one position further down, and `i` itself at
/// the start of the grid.
pub fn down(grid: &Grid, ranges: &[BandRow], i: u32) -> u32
    requires rows { AreBandRows ranges.now }
    requires position { i < length grid.now }
    ensures exact { price_at grid.now result ≡ down_of grid.now ranges.now (price_at grid.now i) }
    ensures within { result < length grid.now }
    ensures not_above { result ≤ i }
{
    grid.stands();
    if i == 0 {
        return 0;
    }
    let next = i - 1;
    let p = grid.price(i);
    match grid.ceil(Price(p.0.saturating_sub(band(ranges, p)))) {
        Some(far) => far.min(next),
        None => next,
    }
}
