// What the levels of a book have left, its running sums, and the best positions of its limit orders.
ghost use Rattle.std.specs.Prelude.{◌≡◌, ℕ, ◌+◌, ◌-◌, ◌^◌, ◌<◌, ◌≤◌, List, true, IfOk, MatchOption, length, replicate, slice_index, slice_set, sum};
ghost use Rattle.depth_index.specs.Depths.{IsFirstReaching, IsNowhereReached, TakesFewSteps, sum_upto};
ghost use Rattle.book_law.specs.BookView.{IsSpotBelow};
ghost use Rattle.order_book.specs.Depths.{IsBestBuy, IsBestSell, IsEmptyWithin, IsFirstFrom, IsLastBelow, IsNextBehind, IsNoneBehind, depth_at, fewer, is_limit_buy, limits_of, more};

use depth_index::{DepthFault, DepthIndex, Steps};
use mkt_base::{Side, Spot};
use std::alloc::Global;
use std::marker::{Brand, Model};
use std::sync::ledger::{Blank, Ledger};

// Contracts see the numbers, and not which positions are the best.
#[derive(Drop)]
pub(crate) struct Depths {
    // The limit orders by position.
    buys: DepthIndex,
    sells: DepthIndex,
    market_buys: u64,
    market_sells: u64,
    // The limit buys of all positions.
    limit_buys: u64,
    // The highest position at which a limit buy stands, and the lowest at which a limit sell does.
    best_buy: Option<u32>,
    best_sell: Option<u32>,
}

impl Model for Depths {
    ghost use Rattle.order_book.specs.Depths.{AreBest, DepthView};

    ghost Value = { DepthView };

    ghost view = { λ d. record { buys = d.buys; sells = d.sells; market_buys = d.market_buys; market_sells = d.market_sells; limit_buys = d.limit_buys } };

    ghost invariant = { λ d. AreBest d.buys d.sells d.best_buy d.best_sell };
}

impl Depths {
    pub(crate) fn make(alloc: Global, prices: u32) -> Result<Depths, DepthFault>
        requires some { 1 ≤ prices }
        requires few { prices ≤ 20000 }
        ensures buys { IfOk result (λ d. d.buys ≡ replicate prices 0) }
        ensures sells { IfOk result (λ d. d.sells ≡ replicate prices 0) }
        ensures market_buys { IfOk result (λ d. d.market_buys ≡ 0) }
        ensures market_sells { IfOk result (λ d. d.market_sells ≡ 0) }
        ensures limit_buys { IfOk result (λ d. d.limit_buys ≡ 0) }
    {
        Ok(Depths {
            buys: DepthIndex::make(alloc, prices)?,
            sells: DepthIndex::make(alloc, prices)?,
            market_buys: 0,
            market_sells: 0,
            limit_buys: 0,
            best_buy: None,
            best_sell: None,
        })
    }

    // What a level has left.
    pub(crate) fn at(&self, side: Side, spot: Spot) -> u64
        requires buys { IsSpotBelow (length self.now.buys) spot }
        requires sells { IsSpotBelow (length self.now.sells) spot }
        ensures { result ≡ depth_at side spot self.now }
    {
        match (side, spot) {
            (Side::Buy, Spot::Market) => self.market_buys,
            (Side::Sell, Spot::Market) => self.market_sells,
            (Side::Buy, Spot::At(i)) => self.buys.at(i),
            (Side::Sell, Spot::At(i)) => self.sells.at(i),
        }
    }

    // What the limit buys of all positions have left.
    pub(crate) fn limit_buys(&self) -> u64
        ensures { result ≡ self.now.limit_buys }
    {
        self.limit_buys
    }

    // A level has so much more left.
    pub(crate) fn add(&mut self, side: Side, spot: Spot, qty: u64)
        requires buys { IsSpotBelow (length self.old.buys) spot }
        requires sells { IsSpotBelow (length self.old.sells) spot }
        requires bought { sum self.old.buys + qty < 2 ^ 64 }
        requires sold { sum self.old.sells + qty < 2 ^ 64 }
        requires market_bought { self.old.market_buys + qty < 2 ^ 64 }
        requires market_sold { self.old.market_sells + qty < 2 ^ 64 }
        requires limit_bought { self.old.limit_buys + qty < 2 ^ 64 }
        requires some { 1 ≤ qty }
        ensures { self.new ≡ more side spot qty self.old }
    {
        match (side, spot) {
            (Side::Buy, Spot::Market) => self.market_buys += qty,
            (Side::Sell, Spot::Market) => self.market_sells += qty,
            (Side::Buy, Spot::At(i)) => {
                self.buys.add(i, qty);
                self.limit_buys += qty;
                self.best_buy = Some(higher(self.best_buy, i));
            }
            (Side::Sell, Spot::At(i)) => {
                self.sells.add(i, qty);
                self.best_sell = Some(lower(self.best_sell, i));
            }
        }
    }

    // A level has so much less left.
    pub(crate) fn sub(&mut self, side: Side, spot: Spot, qty: u64)
        requires buys { IsSpotBelow (length self.old.buys) spot }
        requires sells { IsSpotBelow (length self.old.sells) spot }
        requires enough { qty ≤ depth_at side spot self.old }
        requires limit_bought { is_limit_buy side spot ≡ true → qty ≤ self.old.limit_buys }
        requires limits { self.old.limit_buys ≡ sum self.old.buys }
        ensures { self.new ≡ fewer side spot qty self.old }
    {
        match (side, spot) {
            (Side::Buy, Spot::Market) => self.market_buys -= qty,
            (Side::Sell, Spot::Market) => self.market_sells -= qty,
            (Side::Buy, Spot::At(i)) => {
                self.buys.sub(i, qty);
                self.limit_buys -= qty;
                self.best_buy = buy_after::<Brand>(
                    Blank::new(1),
                    &self.buys,
                    self.limit_buys,
                    self.best_buy,
                    i,
                );
            }
            (Side::Sell, Spot::At(i)) => {
                self.sells.sub(i, qty);
                self.best_sell = sell_after::<Brand>(Blank::new(1), &self.sells, self.best_sell, i);
            }
        }
    }

    // The limit orders of a side at the positions 0 to `i`. A step is one sum read.
    pub(crate) fn upto<L: Ledger>(&self, side: Side, i: u32, steps: &mut Steps<L>) -> u64
        requires { i < length (limits_of side self.now) }
        ensures exact { result ≡ sum_upto (limits_of side self.now) i }
        ensures steps { TakesFewSteps (length (limits_of side self.now)) steps.old steps.new }
    {
        match side {
            Side::Buy => self.buys.upto(i, steps),
            Side::Sell => self.sells.upto(i, steps),
        }
    }

    // The first position of a side whose `upto` is at least `least`. A step is one sum read.
    pub(crate) fn first<L: Ledger>(
        &self,
        side: Side,
        least: u64,
        steps: &mut Steps<L>,
    ) -> Option<u32>
        ensures exact { MatchOption result (IsNowhereReached (limits_of side self.now) least) (IsFirstReaching (limits_of side self.now) least) }
        ensures steps { TakesFewSteps (length (limits_of side self.now)) steps.old steps.new }
    {
        match side {
            Side::Buy => self.buys.find_first(least, steps),
            Side::Sell => self.sells.find_first(least, steps),
        }
    }

    // The best position of a side behind a spot at which an order stands.
    pub(crate) fn behind<L: Ledger>(
        &self,
        blank: Blank,
        prices: u32,
        side: Side,
        spot: Spot,
    ) -> Option<u32>
        requires name { blank.name ≡ L.name }
        requires parts { blank.parts ≡ L.parts }
        requires some { 0 < blank.parts }
        requires buys { length self.now.buys ≡ prices }
        requires sells { length self.now.sells ≡ prices }
        requires spot { IsSpotBelow prices spot }
        requires prices { 0 < prices }
        requires fits { sum self.now.sells < 2 ^ 63 }
        ensures { MatchOption result (IsNoneBehind prices side spot self.now) (IsNextBehind prices side spot self.now) }
    {
        let mut steps = Steps::<L>::new(blank);
        match (side, spot) {
            (Side::Buy, Spot::Market) => self.best_buy,
            (Side::Buy, Spot::At(i)) => buy_below(&self.buys, i, &mut steps),
            (Side::Sell, Spot::Market) => self.best_sell,
            (Side::Sell, Spot::At(i)) => sell_from(&self.sells, i + 1, &mut steps),
        }
    }
}

// The higher of a position and the best one before, if there is one.
fn higher(best: Option<u32>, i: u32) -> u32
    ensures { MatchOption best (result ≡ i) (λ b. (i < b → result ≡ b) × (b ≤ i → result ≡ i)) }
{
    match best {
        Some(b) if i < b => b,
        _ => i,
    }
}

// The lower of a position and the best one before, if there is one.
fn lower(best: Option<u32>, i: u32) -> u32
    ensures { MatchOption best (result ≡ i) (λ b. (b < i → result ≡ b) × (i ≤ b → result ≡ i)) }
{
    match best {
        Some(b) if b < i => b,
        _ => i,
    }
}

// The best buy after a position has less left, of buys that have `rest` together. Only where the best position is empty now
// is there a search.
fn buy_after<L: Ledger>(
    blank: Blank,
    buys: &DepthIndex,
    rest: u64,
    best: Option<u32>,
    i: u32,
) -> Option<u32>
    requires name { blank.name ≡ L.name }
    requires parts { blank.parts ≡ L.parts }
    requires some { 0 < blank.parts }
    requires within { i < length buys.now }
    requires rest { rest ≡ sum buys.now }
    ensures { (before : List ℕ) (left : ℕ) → buys.now ≡ slice_set before i left → left ≤ slice_index before i → IsBestBuy before best → IsBestBuy buys.now result }
{
    let Some(b) = best else {
        return None;
    };
    if b != i || buys.at(i) > 0 {
        return best;
    }
    let mut steps = Steps::<L>::new(blank);
    last_buy(buys, rest, &mut steps)
}

// The best sell after a position has less left. Only where the best position is empty now is there a search.
fn sell_after<L: Ledger>(blank: Blank, sells: &DepthIndex, best: Option<u32>, i: u32) -> Option<u32>
    requires name { blank.name ≡ L.name }
    requires parts { blank.parts ≡ L.parts }
    requires some { 0 < blank.parts }
    requires within { i < length sells.now }
    ensures { (before : List ℕ) (left : ℕ) → sells.now ≡ slice_set before i left → left ≤ slice_index before i → IsBestSell before best → IsBestSell sells.now result }
{
    let Some(b) = best else {
        return None;
    };
    if b != i || sells.at(i) > 0 {
        return best;
    }
    let mut steps = Steps::<L>::new(blank);
    sells.find_first(1, &mut steps)
}

// The highest position below `below` at which a buy stands.
fn buy_below<L: Ledger>(buys: &DepthIndex, below: u32, steps: &mut Steps<L>) -> Option<u32>
    requires { below ≤ length buys.now }
    ensures { MatchOption result (IsEmptyWithin buys.now 0 below) (IsLastBelow buys.now below) }
{
    if below == 0 {
        return None;
    }
    let rest = buys.upto(below - 1, steps);
    last_buy(buys, rest, steps)
}

// The highest position at which a buy stands, of those that have `rest` together from the lowest one on.
fn last_buy<L: Ledger>(buys: &DepthIndex, rest: u64, steps: &mut Steps<L>) -> Option<u32>
    ensures { (below : ℕ) → 0 < below → below ≤ length buys.now → rest ≡ sum_upto buys.now (below - 1)
        → MatchOption result (IsEmptyWithin buys.now 0 below) (IsLastBelow buys.now below) }
{
    if rest == 0 {
        return None;
    }
    buys.find_first(rest, steps)
}

// The lowest position from `from` on, above the first one, at which a sell stands.
fn sell_from<L: Ledger>(sells: &DepthIndex, from: u32, steps: &mut Steps<L>) -> Option<u32>
    requires some { 0 < from }
    requires within { from ≤ length sells.now }
    requires fits { sum sells.now < 2 ^ 63 }
    ensures { MatchOption result (IsEmptyWithin sells.now from (length sells.now)) (IsFirstFrom sells.now from) }
{
    let least = sells.upto(from - 1, steps) + 1;
    sells.find_first(least, steps)
}
