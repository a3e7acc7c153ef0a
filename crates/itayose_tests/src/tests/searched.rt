// The attempt by a search, beside the one that walks over the prices, on many books.
ghost use Rattle.std.specs.Prelude.{◌≡◌, ◌<◌, length};

use crate::tests::auctions::{eight_prices, filled};
use depth_index::Steps;
use itayose::{attempt, plain_attempt};
use order_book::Book;
use std::marker::Brand;
use std::sync::ledger::{Blank, Ledger};
use std::test::Fail;
use tick_grid::Grid;

// The next number of a sequence that looks like chance.
fn next_drawn(last: u64) -> u64 {
    last.wrapping_mul(6_364_136_223_846_793_005)
        .wrapping_add(1_442_695_040_888_963_407)
}

// Nine orders that are drawn from a number, four bytes each: a digit, the side, the position or the market, and its hundreds of
// shares.
fn orders_drawn(from: u64) -> [u8; 36] {
    let mut orders = [b'0'; 36];
    let mut drawn = from;
    for i in 0..9 {
        drawn = next_drawn(drawn);
        let bits = (drawn >> 40) as u32;
        orders[4 * i + 1] = if bits % 2 == 0 { b'b' } else { b's' };
        orders[4 * i + 2] = b"01234567m"[(bits / 2 % 9) as usize];
        orders[4 * i + 3] = b"123456789"[(bits / 32 % 9) as usize];
    }
    orders
}

// Whether both attempts answer the same for each reference and window of 8 prices.
fn agree<L: Ledger>(book: &Book, grid: &Grid, blank: Blank) -> bool
    requires name { blank.name ≡ L.name }
    requires parts { blank.parts ≡ L.parts }
    requires some { 0 < blank.parts }
    requires prices { book.now.prices ≡ 8 }
    requires size { length grid.now ≡ 8 }
{
    let mut steps = Steps::<L>::new(blank);
    for window in 0..512u32 {
        let (lo, reference, hi) = (window % 8, window / 8 % 8, window / 64);
        if lo > reference || reference > hi {
            continue;
        }
        let searched = attempt(book, grid, reference, lo, hi, &mut steps);
        if searched != plain_attempt(book, grid, reference, lo, hi) {
            return false;
        }
    }
    true
}

#[test]
fn both_attempts_agree(rt: HostRuntime) -> Result<(), Fail> {
    let grid = eight_prices(rt.alloc())?;
    assert!(rt; grid.size() == 8);
    for number in 0..200u64 {
        let orders = orders_drawn(number);
        let book = filled(rt.alloc(), &orders[..4 * (number % 10) as usize])?;
        let agreed = agree::<Brand>(&book, &grid, Blank::new(1));
        assert!(rt; agreed, "{number}");
    }
    Ok(())
}
