// Where a special quote begins, and what a quote is renewed to.
ghost use Rattle.std.specs.Prelude.{◌≡◌, ◌<◌, ◌≤◌, length};
ghost use Rattle.mkt_base.specs.Book.{price_at};
ghost use Rattle.tick_grid.specs.Rows.{AreBandRows};
ghost use Rattle.quote_law.specs.Quotes.{IsOn, IsToward, renewed, special_at, special_quote};

use mkt_base::{Moment, Quote, QuoteKind, Side};
use quote_law::{daily_limit, later, position};
use tick_grid::{BandRow, Grid};

/// The special quote of a side that begins at `now`: its price is one renewal from the last price, whose position is `last`,
/// and it is due `interval` milliseconds later, at most 86,399,999. It has no due moment at the daily limit of its side, and
/// where the day has ended by then. Its price stands on the grid, at the last price or to the side's way from it.
pub fn begin(
    grid: &Grid,
    ranges: &[BandRow],
    side: Side,
    last: u32,
    now: Moment,
    interval: u32,
) -> Quote
    requires rows { AreBandRows ranges.now }
    requires last { last < length grid.now }
    requires interval { interval ≤ 86399999 }
    ensures exact { result ≡ special_quote grid.now ranges.now side (price_at grid.now last) now interval }
    ensures on_grid { IsOn grid.now result }
    ensures toward { IsToward side (price_at grid.now last) result.price.0 }
{
    grid.stands();
    let price = grid.price(quote_law::renewed(grid, ranges, side, last));
    let due = if price == daily_limit(grid, side) {
        None
    } else {
        later(now, interval)
    };
    Quote {
        kind: QuoteKind::Special,
        side,
        price,
        due,
    }
}

/// The quote to which a special or sequential quote is renewed at `now`, where its own side presses: the special quote of its
/// side one renewal from its price, due `interval` milliseconds later like one that begins.
pub fn renewed(grid: &Grid, ranges: &[BandRow], quote: &Quote, now: Moment, interval: u32) -> Quote
    requires rows { AreBandRows ranges.now }
    requires quote { IsOn grid.now quote.now }
    requires interval { interval ≤ 86399999 }
    ensures exact { result
        ≡ special_at grid.now quote.now.side (renewed grid.now ranges.now quote.now.side quote.now.price.0) now interval }
    ensures on_grid { IsOn grid.now result }
    ensures toward { IsToward quote.now.side quote.now.price.0 result.price.0 }
{
    let at = position(grid, quote);
    begin(grid, ranges, quote.side, at, now, interval)
}
