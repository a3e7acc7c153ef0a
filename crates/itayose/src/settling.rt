// The fills of an auction.
ghost use Rattle.std.specs.Prelude.{◌≡◌, ℕ, ◌<◌, ◌≤◌, ◌%◌, List, ◌++◌, All, IsTrue, length};
ghost use Rattle.mkt_base.specs.Book.{price_at};
ghost use Rattle.mkt_base.specs.Fills.{after_trades};
ghost use Rattle.mkt_base.specs.declared.output.Output.{Output};
ghost use Rattle.allotment.specs.Rounds.{AreRounds};
ghost use Rattle.auction_law.specs.Attempt.{meets};
ghost use Rattle.book_law.specs.BookView.{orders};
ghost use Rattle.itayose.specs.Fills.{allotted_fills, auction_fills, is_longer, limit_position, settlement_outputs};
ghost use Rattle.itayose.specs.Sharing.{ahead_sum, facing_sum, wide_sum};
ghost use Rattle.itayose.specs.declared.margin.Margin.{Margin};

use crate::Margin;
use crate::filling::{fill_front, fill_shares};
use crate::rounds::give_shares;
use crate::sharing::Group;
use crate::telling::sums_there;
use crate::trading::trade_volume;
use allotment::Round;
use mkt_base::{Side, Sums, Watch};
use order_book::Book;
use tick_grid::Grid;

/// Does the fills of an auction that trades at a position which meets the three conditions, and tells a watch the trades; by
/// rounds it tells the shares of the allotment before them. `unit` is the trading unit, 1 to 100,000,000 shares. The orders
/// have whole units left, and participants are numbered below 64. The book is over as many prices as the grid has.
pub fn settle<W: Watch>(
    book: &mut Book,
    grid: &Grid,
    at: u32,
    margin: Margin,
    rounds: &[Round],
    unit: u32,
    watch: &mut W,
)
    requires size { length grid.now ≡ book.old.prices }
    requires in_range { at < length grid.now }
    requires meets { IsTrue (meets grid.now (orders book.old) (price_at grid.now at)) }
    requires rounds { AreRounds rounds.now }
    requires unit { (1 ≤ unit) × (unit ≤ 100000000) }
    requires units { All (λ o. o.left % unit ≡ 0) (orders book.old) }
    requires participants { All (λ o. o.participant.0 < 64) (orders book.old) }
    ensures book { orders book.new
        ≡ after_trades (auction_fills grid.now (orders book.old) (price_at grid.now at) margin rounds.now unit).trades (orders book.old) }
    ensures prices { book.new.prices ≡ book.old.prices }
    ensures capacity { book.new.capacity ≡ book.old.capacity }
    ensures told { (from : W) (outputs : List Output) → W.took from outputs watch.old
        → W.took from (outputs ++ settlement_outputs
        (auction_fills grid.now (orders book.old) (price_at grid.now at) margin rounds.now unit)) watch.new }
{
    book.stands();
    grid.stands();
    let sums = sums_there(book, grid, at);
    let Margin::Rounds = margin else {
        trade_volume(book, sums.price, sums.buys.min(sums.sells), watch);
        return;
    };
    if sums.sells < sums.buys {
        settle_by_rounds(book, grid, at, Side::Buy, rounds, unit, watch);
    } else if sums.buys < sums.sells {
        settle_by_rounds(book, grid, at, Side::Sell, rounds, unit, watch);
    } else {
        trade_volume(book, sums.price, sums.buys, watch);
    }
}

// Does the fills by rounds, where a side has the greater sum.
fn settle_by_rounds<W: Watch>(
    book: &mut Book,
    grid: &Grid,
    at: u32,
    side: Side,
    rounds: &[Round],
    unit: u32,
    watch: &mut W,
)
    requires size { length grid.now ≡ book.old.prices }
    requires in_range { at < length grid.now }
    requires meets { IsTrue (meets grid.now (orders book.old) (price_at grid.now at)) }
    requires longer { IsTrue (is_longer grid.now (orders book.old) (price_at grid.now at) side) }
    requires rounds { AreRounds rounds.now }
    requires unit { (1 ≤ unit) × (unit ≤ 100000000) }
    requires units { All (λ o. o.left % unit ≡ 0) (orders book.old) }
    requires participants { All (λ o. o.participant.0 < 64) (orders book.old) }
    ensures book { orders book.new
        ≡ after_trades (auction_fills grid.now (orders book.old) (price_at grid.now at) Margin.Rounds rounds.now unit).trades (orders book.old) }
    ensures prices { book.new.prices ≡ book.old.prices }
    ensures capacity { book.new.capacity ≡ book.old.capacity }
    ensures told { (from : W) (outputs : List Output) → W.took from outputs watch.old
        → W.took from (outputs ++ settlement_outputs
        (auction_fills grid.now (orders book.old) (price_at grid.now at) Margin.Rounds rounds.now unit)) watch.new }
{
    book.stands();
    grid.stands();
    let sums = sums_there(book, grid, at);
    let (wide, ahead, facing) = side_sums(&sums, side);
    let group = Group {
        side,
        at,
        markets: false,
        ahead,
        left: wide - ahead,
    };
    let shares = give_shares(book, &group, rounds, unit, facing - ahead, watch);
    fill_front(book, side, ahead, sums.price, watch);
    book.stands();
    let rest = Group { ahead: 0, ..group };
    fill_shares(book, &rest, &shares, sums.price, watch);
}

/// Does an allotted close: the orders of the pressed side at its limit, market orders among them, share by rounds all that
/// the other side has, and trade by place with the other side in its priority. Tells a watch the shares and then the
/// trades. `unit` is the trading unit, 1 to 100,000,000 shares. The orders have whole units left, and participants are
/// numbered below 64. The side has more at its limit than the other side has. The book is over as many prices as the grid
/// has.
pub fn share_out<W: Watch>(
    book: &mut Book,
    grid: &Grid,
    side: Side,
    rounds: &[Round],
    unit: u32,
    watch: &mut W,
)
    requires size { length grid.now ≡ book.old.prices }
    requires rounds { AreRounds rounds.now }
    requires unit { (1 ≤ unit) × (unit ≤ 100000000) }
    requires units { All (λ o. o.left % unit ≡ 0) (orders book.old) }
    requires participants { All (λ o. o.participant.0 < 64) (orders book.old) }
    requires presses { IsTrue (is_longer grid.now (orders book.old) (price_at grid.now (limit_position grid.now side)) side) }
    ensures book { orders book.new ≡ after_trades (allotted_fills grid.now (orders book.old) side rounds.now unit).trades (orders book.old) }
    ensures prices { book.new.prices ≡ book.old.prices }
    ensures capacity { book.new.capacity ≡ book.old.capacity }
    ensures told { (from : W) (outputs : List Output) → W.took from outputs watch.old
        → W.took from (outputs ++ settlement_outputs (allotted_fills grid.now (orders book.old) side rounds.now unit)) watch.new }
{
    book.stands();
    grid.stands();
    let at = limit(grid, side);
    let sums = sums_there(book, grid, at);
    let (wide, ahead, facing) = side_sums(&sums, side);
    let group = Group {
        side,
        at,
        markets: true,
        ahead,
        left: wide,
    };
    let shares = give_shares(book, &group, rounds, unit, facing, watch);
    fill_shares(book, &group, &shares, sums.price, watch);
}

// The position of the daily limit on a side.
fn limit(grid: &Grid, side: Side) -> u32
    requires { 0 < length grid.now }
    ensures { result ≡ limit_position grid.now side }
{
    match side {
        Side::Buy => grid.size() - 1,
        Side::Sell => 0,
    }
}

// Of the four sums what a side has at the price or better, what it has better, and what the other side has at it or better.
fn side_sums(sums: &Sums, side: Side) -> (u64, u64, u64)
    ensures wide { result.0 ≡ wide_sum side sums.now }
    ensures ahead { result.1 ≡ ahead_sum side sums.now }
    ensures facing { result.2 ≡ facing_sum side sums.now }
{
    match side {
        Side::Buy => (sums.buys, sums.above, sums.sells),
        Side::Sell => (sums.sells, sums.below, sums.buys),
    }
}
