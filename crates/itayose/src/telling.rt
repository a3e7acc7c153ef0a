// The certificate of an attempt.
ghost use Rattle.std.specs.Prelude.{◌≡◌, ℕ, ◌<◌, ◌≤◌, List, ◌++◌, IfSome, map, length, option_map};
ghost use Rattle.mkt_base.specs.Book.{price_at, sums_at};
ghost use Rattle.mkt_base.specs.declared.output.Output.{Output};
ghost use Rattle.auction_law.specs.Attempt.{nearer_prices};
ghost use Rattle.auction_law.specs.Attempt.{attempt as attempt_outcome};
ghost use Rattle.book_law.specs.BookView.{orders};
ghost use Rattle.itayose.specs.Answer.{IsOnPositions, auction_outputs, outcome_of, price_there, rejected_for};
ghost use Rattle.itayose.specs.Walk.{sums_of};

use crate::Attempt;
use crate::outward::Outward;
use crate::search::sums_with;
use auction_law::meets;
use mkt_base::{Outcome, Price, Side, Sums, Watch};
use order_book::Book;
use tick_grid::Grid;

/// Tells a watch an auction whose attempt is known: its reference and window, the certificate of its outcome, and nothing
/// else. The positions are those of the attempt. The book is over as many prices as the grid has.
pub fn certificate<W: Watch>(
    book: &Book,
    grid: &Grid,
    reference: u32,
    lo: u32,
    hi: u32,
    attempt: Attempt,
    watch: &mut W,
) -> Outcome
    requires size { length grid.now ≡ book.now.prices }
    requires lo { lo ≤ reference }
    requires hi { reference ≤ hi }
    requires in_range { hi < length grid.now }
    requires positions { IsOnPositions grid.now attempt }
    requires attempt { outcome_of grid.now (orders book.now) lo hi attempt
        ≡ attempt_outcome grid.now (orders book.now) (price_at grid.now reference) (price_at grid.now lo) (price_at grid.now hi) }
    ensures outcome { result ≡ outcome_of grid.now (orders book.now) lo hi attempt }
    ensures told { (from : W) (outputs : List Output) → W.took from outputs watch.old
        → W.took from (outputs ++ auction_outputs grid.now (orders book.now) (price_at grid.now reference) (price_at grid.now lo) (price_at grid.now hi) result) watch.new }
{
    watch.auction(grid.price(reference), grid.price(lo), grid.price(hi));
    reject(book, grid, reference, attempt, watch);
    let outcome = outcome(book, grid, lo, hi, attempt);
    watch.outcome(outcome);
    outcome
}

// Tells a watch the prices that are nearer to the reference than the chosen one, with their sums.
fn reject_nearer<W: Watch>(book: &Book, grid: &Grid, reference: u32, watch: &mut W)
    requires size { length grid.now ≡ book.now.prices }
    requires in_range { reference < length grid.now }
    ensures { (from : W) (outputs : List Output) → W.took from outputs watch.old
        → W.took from (outputs ++ map (λ s. Output.Rejected s)
        (map (sums_at grid.now (orders book.now)) (nearer_prices grid.now (orders book.now) (price_at grid.now reference)))) watch.new }
{
    if !watch.wants_rejected() {
        return;
    }
    grid.stands();
    let sums = sums_there(book, grid, reference);
    if meets(&sums) {
        return;
    }
    watch.rejected(sums);
    let mut rest = Outward::new(book, grid, reference, sums);
    while let Some((_, sums)) = rest.next() {
        if meets(&sums) {
            return;
        }
        watch.rejected(sums);
    }
}

// The price of a position with its sums.
pub(crate) fn sums_there(book: &Book, grid: &Grid, i: u32) -> Sums
    requires size { length grid.now ≡ book.now.prices }
    requires in_range { i < length grid.now }
    ensures { result ≡ sums_of book.now grid.now i }
{
    grid.stands();
    let levels = book.sums_at(i);
    sums_with(grid.price(i), &levels)
}

// Tells a watch the prices that the certificate of an attempt rejects, with their sums.
fn reject<W: Watch>(book: &Book, grid: &Grid, reference: u32, attempt: Attempt, watch: &mut W)
    requires size { length grid.now ≡ book.now.prices }
    requires in_range { reference < length grid.now }
    ensures { (from : W) (outputs : List Output) → W.took from outputs watch.old
        → W.took from (outputs ++ map (λ s. Output.Rejected s)
        (rejected_for grid.now (orders book.now) (price_at grid.now reference) attempt)) watch.new }
{
    if let Attempt::Traded { .. } = attempt {
        reject_nearer(book, grid, reference, watch);
    }
}

// The outcome that an attempt stands for.
fn outcome(book: &Book, grid: &Grid, lo: u32, hi: u32, attempt: Attempt) -> Outcome
    requires size { length grid.now ≡ book.now.prices }
    requires order { lo ≤ hi }
    requires in_range { hi < length grid.now }
    requires positions { IsOnPositions grid.now attempt }
    ensures { result ≡ outcome_of grid.now (orders book.now) lo hi attempt }
{
    match attempt {
        Attempt::Traded { at, volume } => Outcome::Traded {
            volume,
            sums: sums_there(book, grid, at),
        },
        Attempt::Calm { bid, ask } => Outcome::Calm {
            bid: price_there(grid, bid),
            ask: price_there(grid, ask),
        },
        Attempt::Pressed(Side::Buy) => {
            let sums = sums_there(book, grid, hi);
            Outcome::Pressed {
                side: Side::Buy,
                price: sums.price,
                pressing: sums.above,
                facing: sums.sells,
            }
        }
        Attempt::Pressed(Side::Sell) => {
            let sums = sums_there(book, grid, lo);
            Outcome::Pressed {
                side: Side::Sell,
                price: sums.price,
                pressing: sums.below,
                facing: sums.buys,
            }
        }
    }
}

// The price at a position, where there is one.
fn price_there(grid: &Grid, i: Option<u32>) -> Option<Price>
    requires { IfSome i (λ i. i < length grid.now) }
    ensures { result ≡ option_map (price_there grid.now) i }
{
    match i {
        Some(i) => Some(grid.price(i)),
        None => None,
    }
}
