// Rows that give a tick or a band by price.
ghost use Rattle.std.specs.Prelude.{◌≡◌, ◌≤◌};
ghost use Rattle.tick_grid.specs.Rows.{AreBandRows, band_of};

use mkt_base::Price;

/// Prices up to `upto`, and above the row before, are multiples of `tick`. Both are in tenths of a yen, `upto` 1 to
/// 1,000,000,000 and `tick` 1 to 1,000,000.
#[derive(Clone, Copy, Debug, PartialEq, Eq)]
pub struct TickRow {
    pub upto: u32,
    pub tick: u32,
}

/// Prices below `below`, and not below that of the row before, have this value. Both are in tenths of a yen, `below` 1 to
/// 1,000,000,001 and `value` 1 to 1,000,000,000.
#[derive(Clone, Copy, Debug, PartialEq, Eq)]
pub struct BandRow {
    pub below: u32,
    pub value: u32,
}

/// The value of the first row whose bound the price is below: the width of the daily limits at a base price, or the
/// range of a renewal at a price.
pub fn band(rows: &[BandRow], p: Price) -> u32
    requires rows { AreBandRows rows.now }
    requires price { p.0 ≤ 1000000000 }
    ensures exact { result ≡ band_of rows.now p.0 }
    ensures within { 1 ≤ result }
    ensures at_most { result ≤ 1000000000 }
{
    for row in rows {
        if p.0 < row.below {
            return row.value;
        }
    }
    unreachable!()
}
