// Grids of evenly spaced prices.
ghost use Rattle.std.specs.Prelude.{◌≡◌, ◌+◌, ◌-◌, ◌*◌, ◌<◌, ◌≤◌, IfOk, IfSome};
ghost use Rattle.auction_file.specs.EvenGrid.{IsEvenGrid, grid_prices, position_on};

use mkt_base::Price;
use std::alloc::{AllocError, Global};
use std::marker::Model;

/// The prices `low`, `low + tick` and so on, `count` of them.
#[derive(Clone, Copy)]
pub struct EvenGrid {
    low: u32,
    tick: u32,
    count: u32,
    /// 2^32 by the tick, rounded up or one more: a product by it takes the place of a division by the tick, which would be
    /// a tenth of the time that an order takes to read.
    scale: u64,
}

impl Model for EvenGrid {
    ghost use Rattle.std.specs.Prelude.{◌≡◌};
    ghost use Rattle.std.proofs.Common.{ap, sym};
    ghost use Rattle.auction_file.specs.EvenGrid.{EvenGrid, scale_of};

    ghost Value = { EvenGrid };

    ghost view = { λ g. record { low = g.low; tick = g.tick; count = g.count } };

    ghost invariant = { λ g. g.scale ≡ scale_of g.tick };

    ghost inverse = { λ v. record { low = v.low; tick = v.tick; count = v.count; scale = scale_of v.tick } };

    ghost inverse_ok = { λ g is. ap (λ s. record g { scale = s }) (sym is) };
}

/// What `scale` stands for.
const WHOLE: u64 = 1 << 32;

impl EvenGrid {
    /// The grid of these numbers.
    pub fn new(low: u32, tick: u32, count: u32) -> EvenGrid
        requires { 1 ≤ tick }
        ensures { result ≡ record { low = low; tick = tick; count = count } }
    {
        let scale = WHOLE / u64::from(tick) + 1;
        EvenGrid {
            low,
            tick,
            count,
            scale,
        }
    }

    /// How many prices it has.
    pub fn count(self) -> u32
        ensures { result ≡ self.count }
    {
        self.count
    }

    /// The position of a price; none where it is not on the grid.
    pub fn position(self, price: u32) -> Option<u32>
        requires { IsEvenGrid self }
        ensures exact { result ≡ position_on self price }
        ensures within { IfSome result (λ position. position < self.count) }
    {
        if price < self.low {
            return None;
        }
        let above = price - self.low;
        let position = (u64::from(above) * self.scale / WHOLE) as u32;
        if position < self.count && position * self.tick == above {
            Some(position)
        } else {
            None
        }
    }

    /// All its prices, in rising order.
    pub fn prices(self, alloc: Global) -> Result<Vec<Price>, AllocError>
        requires { IsEvenGrid self }
        ensures { IfOk result (λ prices. prices.items ≡ grid_prices self) }
    {
        even_prices(alloc, self.low, self.tick, self.count)
    }
}

fn even_prices(alloc: Global, low: u32, tick: u32, count: u32) -> Result<Vec<Price>, AllocError>
    requires some { 1 ≤ count }
    requires last { low + (count - 1) * tick ≤ 1000000000 }
    ensures { IfOk result (λ prices. prices.items ≡ grid_prices (record { low = low; tick = tick; count = count })) }
{
    let mut prices = Vec::with_capacity(alloc, count as usize)?;
    for i in 0..count {
        prices.push(Price(low + i * tick))?;
    }
    Ok(prices)
}
