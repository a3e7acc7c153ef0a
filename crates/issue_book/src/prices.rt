// Prices and their positions.
ghost use Rattle.std.specs.Prelude.{◌≡◌, ◌<◌, length};
ghost use Rattle.mkt_base.specs.Book.{price_at};
ghost use Rattle.issue_book.specs.IssueView.{IsPriceOf};

use mkt_base::Price;
use tick_grid::{Grid, positions_are_found};

// The position of a price of the grid.
pub(crate) fn position_of(grid: &Grid, price: Price) -> u32
    requires { IsPriceOf grid.now price.0 }
    ensures price { price_at grid.now result ≡ price.0 }
    ensures within { result < length grid.now }
{
    grid.stands();
    positions_are_found();
    let Some(at) = grid.index(price) else {
        unreachable!()
    };
    at
}
