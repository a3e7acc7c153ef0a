// The grid: the rising list of the permitted prices.
ghost use Rattle.std.specs.Prelude.{◌≡◌, ◌<◌, ◌≤◌, IfOk, IfSome, MatchResult, length, nat_le, nat_lt};
ghost use Rattle.std.specs.List.{prefix_len};
ghost use Rattle.mkt_base.specs.Book.{IsRising, price_at};
ghost use Rattle.tick_grid.specs.Grid.{IsFaultOf, IsGrid, ceil_of, floor_of, index_of};
ghost use Rattle.tick_grid.specs.Rows.{AreTickRows, grid_of};
ghost use Rattle.tick_grid.specs.declared.grid.TheConstants.{MAX_PRICES};

use crate::TickRow;
use crate::build::{count_on_tick, list_on_tick};
use mkt_base::Price;
use std::alloc::Global;
use std::marker::Model;
use thiserror::Error;

/// The most prices that a grid has.
pub const MAX_PRICES: u64 = 20_000;

/// Why there is no grid between two prices.
#[derive(Clone, Copy, Debug, PartialEq, Eq, Error)]
pub enum GridFault {
    /// There are this many prices on tick, more than 20,000.
    #[error("the grid has {0} prices, more than 20000")]
    GridTooLarge(u64),
    /// No price is on tick.
    #[error("no price is on tick")]
    NoPrice,
    /// There is no memory for the prices.
    #[error("out of memory")]
    Memory,
}

/// The permitted prices of an issue, rising: 1 to 20,000 prices of 1 to 1,000,000,000 tenths of a yen. Contracts see the
/// list of the prices, and name a price by its position, from 0 on.
#[derive(Debug, Drop)]
pub struct Grid {
    prices: Vec<Price>,
    // From the first price to the second, by which the position of a price is guessed; 0 where there is one price.
    tick: u32,
}

impl Model for Grid {
    ghost use Rattle.std.specs.Prelude.{List};
    ghost use Rattle.mkt_base.specs.declared.units.Price.{Price};
    ghost use Rattle.tick_grid.specs.Grid.{IsGrid};

    ghost Value = { List Price };

    ghost view = { λ g. g.prices.items };

    ghost invariant = { λ g. IsGrid g.prices.items };
}

impl Grid {
    /// The grid of all prices on tick from `low` to `high`. `GridTooLarge` tells how many there are where they are more
    /// than 20,000, and `NoPrice` that there is none, as where `low` is above `high`; `Memory` comes only where there is
    /// no memory for a grid of 1 to 20,000 prices.
    pub fn build(
        alloc: Global,
        ticks: &[TickRow],
        low: Price,
        high: Price,
    ) -> Result<Grid, GridFault>
        requires rows { AreTickRows ticks.now }
        requires low { 1 ≤ low.0 }
        requires high { high.0 ≤ 1000000000 }
        ensures exact { let prices = grid_of ticks.now low.0 high.0 in
            MatchResult result (λ grid. grid ≡ prices) (IsFaultOf prices) }
        ensures stands { IfOk result IsGrid }
    {
        let count = count_on_tick(ticks, low.0, high.0);
        if count > MAX_PRICES {
            return Err(GridFault::GridTooLarge(count));
        }
        if count == 0 {
            return Err(GridFault::NoPrice);
        }
        let prices = list_on_tick(alloc, ticks, low.0, high.0, count as usize).map_err(
            |_| GridFault::Memory,
        )?;
        let tick = first_tick(prices.as_slice());
        Ok(Grid { prices, tick })
    }

    /// What holds of every grid, for those who hold one.
    pub fn stands(&self)
        ensures { IsGrid self.now }
    {
        let _ = &self.prices;
    }

    /// The prices, rising.
    pub fn as_slice(&self) -> &[Price]
        ensures value { result.now ≡ self.now }
        ensures stands { IsGrid self.now }
    {
        self.prices.as_slice()
    }

    /// How many prices it has, 1 to 20,000.
    pub fn size(&self) -> u32
        ensures value { result ≡ length self.now }
        ensures stands { IsGrid self.now }
    {
        self.prices.len() as u32
    }

    /// The price at a position.
    pub fn price(&self, i: u32) -> Price
        requires { i < length self.now }
        ensures value { result.0 ≡ price_at self.now i }
        ensures within { (1 ≤ result.0) × (result.0 ≤ 1000000000) }
    {
        self.prices[i as usize]
    }

    /// The position of a price; none where it is not on the grid.
    pub fn index(&self, p: Price) -> Option<u32>
        ensures exact { result ≡ index_of self.now p.0 }
        ensures within { IfSome result (λ i. i < length self.now) }
    {
        self.stands();
        match self.guess(p) {
            Some(i) => Some(i),
            None => self.searched(p),
        }
    }

    // The same, by a search.
    fn searched(&self, p: Price) -> Option<u32>
        ensures exact { result ≡ index_of self.now p.0 }
        ensures within { IfSome result (λ i. i < length self.now) }
    {
        self.stands();
        let Some(i) = self.floor(p) else {
            return None;
        };
        if self.price(i) == p { Some(i) } else { None }
    }

    // The position of a price, where all prices up to it rise by the first tick.
    fn guess(&self, p: Price) -> Option<u32>
        ensures { IfSome result (λ i. (i < length self.now) × (price_at self.now i ≡ p.0)) }
    {
        self.stands();
        let first = self.price(0);
        let i = p.0.wrapping_sub(first.0).checked_div(self.tick)?;
        if i < self.size() && self.price(i) == p {
            Some(i)
        } else {
            None
        }
    }

    /// The position of the greatest price that is not above `p`; none where all are.
    #[tactic(auto, unfolding(crate::specs::Grid::floor_of))]
    pub fn floor(&self, p: Price) -> Option<u32>
        ensures exact { result ≡ floor_of self.now p.0 }
        ensures within { IfSome result (λ i. i < length self.now) }
    {
        let not_above = count_not_above(&self.prices, p);
        if not_above == 0 {
            None
        } else {
            Some(not_above as u32 - 1)
        }
    }

    /// The position of the least price that is not below `p`; none where all are.
    #[tactic(auto, unfolding(crate::specs::Grid::ceil_of))]
    pub fn ceil(&self, p: Price) -> Option<u32>
        ensures exact { result ≡ ceil_of self.now p.0 }
        ensures within { IfSome result (λ i. i < length self.now) }
    {
        let below = count_below(&self.prices, p);
        if below < self.prices.len() {
            Some(below as u32)
        } else {
            None
        }
    }
}

// From the first price to the second; 0 where there is no second.
fn first_tick(prices: &[Price]) -> u32 {
    match prices {
        [first, second, ..] => second.0.wrapping_sub(first.0),
        _ => 0,
    }
}

// How many of the prices are not above `p`.
fn count_not_above(prices: &[Price], p: Price) -> usize
    requires { IsRising prices.now }
    ensures exact { result ≡ prefix_len (λ q. nat_le q.0 p.0) prices.now }
    ensures within { result ≤ length prices.now }
{
    prices.partition_point(|q| q.0 <= p.0)
}

// How many of the prices are below `p`.
fn count_below(prices: &[Price], p: Price) -> usize
    requires { IsRising prices.now }
    ensures exact { result ≡ prefix_len (λ q. nat_lt q.0 p.0) prices.now }
    ensures within { result ≤ length prices.now }
{
    prices.partition_point(|q| q.0 < p.0)
}
