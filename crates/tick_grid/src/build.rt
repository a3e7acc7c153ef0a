// The prices on tick between two bounds, counted and listed row by row.
ghost use Rattle.std.specs.Prelude.{◌≡◌, ◌<◌, ◌≤◌, ◌+◌, ◌-◌, ◌++◌, IfOk, length, map};
ghost use Rattle.tick_grid.specs.Rows.{AreTickRows, grid_of, multiples, price_of};

use crate::TickRow;
use mkt_base::Price;
use std::alloc::{AllocError, Global};

// How many multiples of the tick there are from `from` to `to`.
#[tactic(auto, using(crate::proofs::MultipleLemmas::length_multiples))]
fn count_multiples(tick: u32, from: u32, to: u32) -> u32
    requires tick { 1 ≤ tick }
    requires from { 1 ≤ from }
    requires order { from ≤ to }
    ensures { result ≡ length (multiples tick from (to + 1 - from)) }
{
    to / tick - (from - 1) / tick
}

// How many prices are on tick from `low` to `high`.
pub(crate) fn count_on_tick(ticks: &[TickRow], low: u32, high: u32) -> u64
    requires rows { AreTickRows ticks.now }
    requires low { 1 ≤ low }
    requires high { high ≤ 1000000000 }
    ensures { result ≡ length (grid_of ticks.now low high) }
{
    let mut count = 0;
    let mut from = low;
    for row in ticks {
        let to = row.upto.min(high);
        if from <= to {
            count += u64::from(count_multiples(row.tick, from, to));
            from = to + 1;
        }
    }
    count
}

// Adds the multiples of the tick from `from` to `to` at the end.
fn push_multiples(prices: &mut Vec<Price>, tick: u32, from: u32, to: u32) -> Result<(), AllocError>
    requires tick { 1 ≤ tick }
    requires from { 1 ≤ from }
    requires order { from ≤ to }
    ensures { let found = multiples tick from (to + 1 - from) in
        IfOk result (λ _. prices.new.items ≡ prices.old.items ++ map price_of found) }
{
    for below in (from - 1) / tick..to / tick {
        prices.push(Price((below + 1) * tick))?;
    }
    Ok(())
}

// The prices on tick from `low` to `high`, rising, in a list that has room for so many.
pub(crate) fn list_on_tick(
    alloc: Global,
    ticks: &[TickRow],
    low: u32,
    high: u32,
    room: usize,
) -> Result<Vec<Price>, AllocError>
    requires rows { AreTickRows ticks.now }
    requires low { 1 ≤ low }
    requires high { high ≤ 1000000000 }
    ensures { IfOk result (λ prices. prices.items ≡ grid_of ticks.now low high) }
{
    let mut prices = Vec::with_capacity(alloc, room)?;
    let mut from = low;
    for row in ticks {
        let to = row.upto.min(high);
        if from <= to {
            push_multiples(&mut prices, row.tick, from, to)?;
            from = to + 1;
        }
    }
    Ok(prices)
}
