// Orders that arrive one after another: what they trade, and where the last one stops.
ghost use Rattle.std.specs.Prelude.{◌≡◌, ℕ, ◌+◌, ◌<◌, ◌≤◌, [], IsTrue, length};
ghost use Rattle.tick_grid.specs.Rows.{AreBandRows};
ghost use Rattle.auction_law.specs.Attempt.{is_calm};
ghost use Rattle.book_law.specs.BookView.{IsSpotBelow, orders};
ghost use Rattle.zaraba.specs.declared.stop.Stop.TheVariants.{Done};
ghost use Rattle.zaraba_tests.specs.Open.{IsEntry, IsOpen};

use mkt_base::{Caller, MemWatch, Order, Output, Participant, Price, Side, Spot};
use order_book::Book;
use std::alloc::Global;
use std::test::Fail;
use tick_grid::{BandRow, Grid, TickRow};
use zaraba::{Arrived, Stop, incoming};

// The orders by place, from place 1 on, each its side, its position (m is the market) and its shares. Then the position of
// the last price before them; of the last order the stop (`D` done, `G` gap, `S` sequence) and its side, and what it has left;
// and the position of the last price behind it. Then all trades, each its shares, its position, the place that buys and the
// place that sells. All orders but the last are done. The range is two positions at positions 0 to 3, and one from 4 on.
const ARRIVALS: [(&str, &str, &str); 16] = [
    // through three levels
    ("s11s21s32bm4", "1D-03", "114112422343"),
    ("b31b21b12sm4", "3D-01", "131412242134"),
    // a better price first, then by time
    ("s41s32s31b44", "3D-04", "234213431441"),
    // a limit order rests with what is left of it, and is then traded with
    ("s11s21b25s22", "1D-02", "113112322234"),
    ("s31b21", "3D-13", ""),
    // a price as far as the range, and one farther
    ("s21bm1", "0D-02", "1221"),
    ("s31bm1", "0Gb10", ""),
    ("b61sm1", "7D-06", "1612"),
    ("b51sm1", "7Gs17", ""),
    // a gap on the side to which the order does not go
    ("s31b31", "7Gs17", ""),
    ("b41s41", "0Gb10", ""),
    // a gap behind a trade
    ("s21s51bm2", "1Gb12", "1231"),
    // a price beyond twice the range from the one at arrival
    ("s21s41s51bm3", "0Sb14", "12411442"),
    ("b61b51b41sm3", "7Ss15", "16141524"),
    // a market order that finds none, or none more
    ("bm1", "3Gb13", ""),
    ("b31sm2", "3Gs13", "1312"),
];

// The number of a digit; 9 for any other byte.
fn digit(byte: u8) -> u8
    ensures { result ≤ 9 }
{
    if byte.is_ascii_digit() {
        byte - b'0'
    } else {
        9
    }
}

fn position_of(byte: u8) -> u32
    ensures { result < 8 }
{
    u32::from(digit(byte).min(7))
}

fn side_of(byte: u8) -> Side {
    if byte == b'b' { Side::Buy } else { Side::Sell }
}

fn spot_of(byte: u8) -> Spot
    ensures { IsSpotBelow 8 result }
{
    if byte == b'm' {
        Spot::Market
    } else {
        Spot::At(position_of(byte))
    }
}

// An order of at least one share, under its number.
fn order_of(number: u8, side: u8, spot: u8, left: u8) -> Order
    ensures { IsEntry number result }
{
    Order {
        place: u64::from(number),
        caller: Caller(1),
        own: u32::from(number),
        participant: Participant(0),
        side: side_of(side),
        spot: spot_of(spot),
        left: u64::from(digit(left).max(1)),
    }
}

fn ranges() -> [BandRow; 2]
    ensures { AreBandRows result }
{
    [
        BandRow {
            below: 1040,
            value: 20,
        },
        BandRow {
            below: 1_000_000_001,
            value: 10,
        },
    ]
}

// Lets the next order arrive.
fn arrive(
    book: &mut Book,
    grid: &Grid,
    number: u8,
    order: Order,
    last: u32,
    watch: &mut MemWatch,
) -> Arrived
    requires size { length grid.now ≡ 8 }
    requires open { IsOpen number book.old }
    requires calm { IsTrue (is_calm grid.now (orders book.old)) }
    requires number { number ≤ 9 }
    requires order { IsEntry number order }
    requires last { last < 8 }
    ensures open { IsOpen (number + 1) book.new }
    ensures calm { result.stop ≡ Done → IsTrue (is_calm grid.now (orders book.new)) }
    ensures last { result.last < 8 }
{
    incoming(book, grid, &ranges(), order, last, watch)
}

// Lets the orders of a text arrive at a book without orders, and answers what became of the last one; none where one before it was
// not done.
fn arrivals(
    book: &mut Book,
    grid: &Grid,
    text: &[u8],
    last: u32,
    watch: &mut MemWatch,
) -> Option<Arrived>
    requires size { length grid.now ≡ 8 }
    requires open { IsOpen 1 book.old }
    requires calm { IsTrue (is_calm grid.now (orders book.old)) }
    requires last { last < 8 }
{
    let mut arrived = Arrived {
        stop: Stop::Done,
        left: 0,
        last,
    };
    let mut number = 1;
    let mut rest = text;
    while let [side, spot, left, more @ ..] = rest {
        let Stop::Done = arrived.stop else {
            return None;
        };
        if number > 9 {
            return None;
        }
        let order = order_of(number, *side, *spot, *left);
        arrived = arrive(book, grid, number, order, arrived.last, watch);
        number += 1;
        rest = more;
    }
    Some(arrived)
}

// Whether an order stopped as the two bytes say.
fn is_stop(stop: Stop, kind: u8, side: u8) -> bool {
    match stop {
        Stop::Done => kind == b'D',
        Stop::Gap(way) => kind == b'G' && way == side_of(side),
        Stop::Sequence(way) => kind == b'S' && way == side_of(side),
    }
}

// Whether the outputs are the trades of the text.
fn are_trades(outputs: &[Output], text: &[u8]) -> bool {
    let mut rest = text;
    for output in outputs {
        let Output::Traded(trade) = output else {
            return false;
        };
        let [qty, at, buy, sell, more @ ..] = rest else {
            return false;
        };
        if trade.qty != u64::from(digit(*qty))
            || trade.price != Price(1000 + 10 * position_of(*at))
            || trade.buy != u64::from(digit(*buy))
            || trade.sell != u64::from(digit(*sell))
        {
            return false;
        }
        rest = more;
    }
    rest.is_empty()
}

// Lets the orders arrive at a new book, and tells whether all is as the texts say.
fn is_row(alloc: Global, book: &mut Book, grid: &Grid, row: (&str, &str, &str)) -> bool
    requires size { length grid.now ≡ 8 }
    requires book { book.old ≡ record { prices = 8; capacity = 9; slots = [] } }
{
    let (orders, answer, trades) = row;
    let [first, stop, side, left, last] = answer.as_bytes() else {
        return false;
    };
    let mut watch = MemWatch::new(alloc);
    let Some(arrived) = arrivals(
        book,
        grid,
        orders.as_bytes(),
        position_of(*first),
        &mut watch,
    ) else {
        return false;
    };
    is_stop(arrived.stop, *stop, *side)
        && arrived.left == u64::from(digit(*left))
        && arrived.last == position_of(*last)
        && are_trades(watch.outputs(), trades.as_bytes())
}

#[test]
fn a_table_of_arrivals(rt: HostRuntime) -> Result<(), Fail> {
    let ticks = [TickRow {
        upto: 1_000_000_000,
        tick: 10,
    }];
    let grid = Grid::build(rt.alloc(), &ticks, Price(1000), Price(1070))?;
    assert!(rt; grid.size() == 8);
    for row in ARRIVALS {
        let mut book = Book::make(rt.alloc(), 8, 9)?;
        let held = is_row(rt.alloc(), &mut book, &grid, row);
        assert!(rt; held, "{} {} {}", row.0, row.1, row.2);
    }
    Ok(())
}
