// The four sums at a price, by one walk over the whole list of orders.
ghost use Rattle.std.specs.Prelude.{◌≡◌, All, option_map, if◌then◌else◌};
ghost use Rattle.mkt_base.specs.Book.{FitsSums, IsOnGrid, is_buy_above, is_buy_at, is_sell_at, is_sell_below, limit_of, sums_at};

use mkt_base::{Order, Price, Side, Spot, Sums};

/// The four sums of the orders at a price in tenths of a yen, which need not be on the grid. The price of a
/// position is the grid's price there.
pub fn plain_sums(orders: &[Order], grid: &[Price], price: Price) -> Sums
    requires on_grid { All (λ o. IsOnGrid grid.now o.spot) orders.now }
    requires fits { FitsSums orders.now }
    ensures { result ≡ sums_at grid.now orders.now price.0 }
{
    let mut buys = 0;
    let mut above = 0;
    let mut sells = 0;
    let mut below = 0;
    for order in orders {
        buys += left_if(is_buy_at(grid, order, price), order.left);
        above += left_if(is_buy_above(grid, order, price), order.left);
        sells += left_if(is_sell_at(grid, order, price), order.left);
        below += left_if(is_sell_below(grid, order, price), order.left);
    }
    Sums {
        price,
        buys,
        above,
        sells,
        below,
    }
}

// What an order adds to a sum.
fn left_if(passes: bool, left: u64) -> u64
    ensures { result ≡ (if passes then left else 0) }
{
    if passes { left } else { 0 }
}

/// The limit of an order at this spot. None for a market order.
pub fn limit_of(grid: &[Price], spot: Spot) -> Option<Price>
    requires on_grid { IsOnGrid grid.now spot }
    ensures { option_map (λ p. p.0) result ≡ limit_of grid.now spot }
{
    match spot {
        Spot::Market => None,
        Spot::At(position) => Some(grid[position as usize]),
    }
}

// A market buy, or a limit buy at or above the price.
fn is_buy_at(grid: &[Price], order: &Order, price: Price) -> bool
    requires on_grid { IsOnGrid grid.now order.now.spot }
    ensures { result ≡ is_buy_at grid.now price.0 order.now }
{
    match (order.side, limit_of(grid, order.spot)) {
        (Side::Buy, Some(limit)) => limit >= price,
        (Side::Buy, None) => true,
        _ => false,
    }
}

// A market buy, or a limit buy above the price.
fn is_buy_above(grid: &[Price], order: &Order, price: Price) -> bool
    requires on_grid { IsOnGrid grid.now order.now.spot }
    ensures { result ≡ is_buy_above grid.now price.0 order.now }
{
    match (order.side, limit_of(grid, order.spot)) {
        (Side::Buy, Some(limit)) => limit > price,
        (Side::Buy, None) => true,
        _ => false,
    }
}

// A market sell, or a limit sell at or below the price.
fn is_sell_at(grid: &[Price], order: &Order, price: Price) -> bool
    requires on_grid { IsOnGrid grid.now order.now.spot }
    ensures { result ≡ is_sell_at grid.now price.0 order.now }
{
    match (order.side, limit_of(grid, order.spot)) {
        (Side::Sell, Some(limit)) => limit <= price,
        (Side::Sell, None) => true,
        _ => false,
    }
}

// A market sell, or a limit sell below the price.
fn is_sell_below(grid: &[Price], order: &Order, price: Price) -> bool
    requires on_grid { IsOnGrid grid.now order.now.spot }
    ensures { result ≡ is_sell_below grid.now price.0 order.now }
{
    match (order.side, limit_of(grid, order.spot)) {
        (Side::Sell, Some(limit)) => limit < price,
        (Side::Sell, None) => true,
        _ => false,
    }
}
