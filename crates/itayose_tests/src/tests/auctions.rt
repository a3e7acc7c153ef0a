// Auctions on books: what an attempt answers, how much a watch is told of it, and who trades with whom.
ghost use Rattle.std.specs.Prelude.{◌≡◌, ◌*◌, ◌%◌, ◌<◌, ◌≤◌, IfOk, length};
ghost use Rattle.mkt_base.specs.Book.{price_at};
ghost use Rattle.allotment.specs.Rounds.{AreRounds};
ghost use Rattle.book_law.specs.BookView.{IsSpotBelow, orders};
ghost use Rattle.itayose.specs.Fills.{is_longer, limit_position};
ghost use Rattle.itayose_tests.specs.Open.{IsOpen, IsReady};

use allotment::Round;
use depth_index::Steps;
use itayose::{Attempt, Margin, attempt, certificate, settle, share_out};
use mkt_base::{Caller, MemWatch, Order, Output, Participant, Price, Side, Spot};
use order_book::{Book, BookFault};
use std::alloc::Global;
use std::marker::Brand;
use std::sync::ledger::{Blank, Ledger};
use std::test::Fail;
use tick_grid::{Grid, GridFault, TickRow};

// The orders by place, from place 1 on, each its participant, its side, its position (m is the market) and its hundreds of
// shares; then the positions of the reference and of both ends of the window, the answer, and how many outputs its
// certificate is; then the trades, each T with its hundreds of shares, the place that buys and the place that sells. Answers: `T` with position and volume, `C` with the best
// positions, `P` with the side.
const AUCTIONS: [(&str, &str, &str); 9] = [
    ("0bm30s140s010b210b11", "107T152", "T113T212T142T152"),
    ("0b120b120s13", "107T132", "T213T123"),
    ("0b110s21", "107C122", ""),
    ("", "107C--2", ""),
    ("0bm1", "107Pb-2", ""),
    ("0sm10s01", "107Ps-2", ""),
    ("0b220s22", "407T225", "T212"),
    ("0b220s22", "435Ps-2", ""),
    ("0b210s11", "107T112", "T112"),
];

// Auctions by rounds: the same, with the shares before the trades, each S with the participant and its hundreds of shares.
const BY_ROUNDS: [(&str, &str, &str); 3] = [
    ("1b282b263s27", "207T272", "S15S22T513T223"),
    ("1s031s142s143b16", "107T162", "S12S21T341T242T143"),
    ("1b223b222s24", "207T242", "T213T223"),
];

// Allotted closes: the orders, the side that presses at its limit, and the shares and trades. A stands for ten hundreds.
const CLOSES: [(&str, &str, &str); 3] = [
    ("1bm82bm63b724s0A", "b", "S15S23S32T514T324T234"),
    ("1b732bm33s04", "b", "S12S22T213T223"),
    ("1sm52s033b36", "s", "S13S23T331T332"),
];

// The number of a digit; 9 for a dash, which no position is.
fn digit(byte: u8) -> u8
    ensures { result ≤ 9 }
{
    if byte.is_ascii_digit() {
        byte - b'0'
    } else {
        9
    }
}

fn side_of(byte: u8) -> Side {
    if byte == b'b' { Side::Buy } else { Side::Sell }
}

fn spot_of(byte: u8) -> Spot
    ensures { IsSpotBelow 8 result }
{
    if byte == b'm' {
        Spot::Market
    } else {
        Spot::At(u32::from(digit(byte).min(7)))
    }
}

// So many hundreds of shares; A stands for ten.
fn hundreds(byte: u8) -> u8
    ensures { result ≤ 10 }
{
    if byte == b'A' { 10 } else { digit(byte) }
}

// So many shares.
fn shares_of(byte: u8) -> u64 {
    100 * u64::from(hundreds(byte))
}

fn order_of(number: u8, participant: u8, side: Side, spot: Spot, left: u8) -> Order
    requires { participant ≤ 9 }
    ensures place { result.place ≡ number }
    ensures number { result.own ≡ number }
    ensures participant { result.participant.0 < 64 }
    ensures left { result.left ≡ 100 * left }
    ensures units { result.left % 100 ≡ 0 }
    ensures spot { result.spot ≡ spot }
{
    Order {
        place: u64::from(number),
        caller: Caller(1),
        own: u32::from(number),
        participant: Participant(u16::from(participant)),
        side,
        spot,
        left: 100 * u64::from(left),
    }
}

// An order more, under the next number; gives the number behind it.
fn put(book: &mut Book, next: u8, participant: u8, side: Side, spot: Spot, left: u8) -> u8
    requires open { IsOpen next book.old }
    requires participant { participant ≤ 9 }
    requires spot { IsSpotBelow 8 spot }
    ensures { IsOpen result book.new }
{
    if next > 9 || left == 0 {
        return next;
    }
    book.insert(order_of(next, participant, side, spot, left));
    next + 1
}

// A book of 8 prices with these orders.
pub(crate) fn filled(alloc: Global, orders: &[u8]) -> Result<Book, BookFault>
    ensures { IfOk result IsReady }
{
    let mut book = Book::make(alloc, 8, 9)?;
    let mut next = 1;
    let mut rest = orders;
    while let [participant, side, spot, left, more @ ..] = rest {
        next = put(
            &mut book,
            next,
            digit(*participant),
            side_of(*side),
            spot_of(*spot),
            hundreds(*left),
        );
        rest = more;
    }
    Ok(book)
}

// Whether the answer is the one of the text.
fn is_told(answer: Attempt, text: &[u8]) -> bool {
    let [kind, a, b, ..] = text else {
        return false;
    };
    match answer {
        Attempt::Traded { at, volume } => {
            *kind == b'T' && at == u32::from(digit(*a)) && volume == 100 * u64::from(digit(*b))
        }
        Attempt::Calm { bid, ask } => {
            *kind == b'C'
                && bid.unwrap_or(9) == u32::from(digit(*a))
                && ask.unwrap_or(9) == u32::from(digit(*b))
        }
        Attempt::Pressed(side) => *kind == b'P' && side == side_of(*a),
    }
}

// Whether an output is a share or a trade at a price as the four bytes or three say, and what stands behind them.
fn told_as<'a>(output: &Output, price: Price, text: &'a [u8]) -> Option<&'a [u8]> {
    match (output, text) {
        (Output::Share { participant, qty }, [b'S', who, share, more @ ..])
            if participant.0 == u16::from(digit(*who)) && *qty == shares_of(*share) => {
            Some(more)
        }
        (Output::Traded(trade), [b'T', qty, buy, sell, more @ ..])
            if trade.price == price
                && trade.qty == shares_of(*qty)
                && trade.buy == u64::from(digit(*buy))
                && trade.sell == u64::from(digit(*sell)) => { Some(more) }
        _ => None,
    }
}

// Whether the outputs are the shares and trades of the text, at a price.
fn are_told(outputs: &[Output], price: Price, text: &[u8]) -> bool {
    let mut rest = text;
    for output in outputs {
        let Some(more) = told_as(output, price, rest) else {
            return false;
        };
        rest = more;
    }
    rest.is_empty()
}

// A unit each, then a third of the rest, then half of it, then all.
fn rounds() -> [Round; 4]
    ensures { AreRounds result }
{
    [
        Round::Units(1),
        Round::Part { n: 1, d: 3 },
        Round::Part { n: 1, d: 2 },
        Round::All,
    ]
}

// Holds an auction on the book, and tells whether all is as the texts say.
fn auction<L: Ledger>(
    alloc: Global,
    blank: Blank,
    book: &mut Book,
    grid: &Grid,
    margin: Margin,
    text: &[u8],
    trades: &[u8],
) -> bool
    requires name { blank.name ≡ L.name }
    requires parts { blank.parts ≡ L.parts }
    requires some { 0 < blank.parts }
    requires ready { IsReady book.old }
    requires size { length grid.now ≡ 8 }
{
    let [reference, lo, hi, answer @ ..] = text else {
        return false;
    };
    let hi = u32::from(digit(*hi).min(7));
    let reference = u32::from(digit(*reference)).min(hi);
    let lo = u32::from(digit(*lo)).min(reference);
    let mut steps = Steps::<L>::new(blank);
    let attempt = attempt(book, grid, reference, lo, hi, &mut steps);
    let mut told = MemWatch::new(alloc);
    certificate(book, grid, reference, lo, hi, attempt, &mut told);
    let mut traded = MemWatch::new(alloc);
    let mut price = Price(0);
    if let Attempt::Traded { at, .. } = attempt {
        settle(book, grid, at, margin, &rounds(), 100, &mut traded);
        price = grid.price(at);
    }
    let [_, _, _, count] = answer else {
        return false;
    };
    is_told(attempt, answer)
        && told.outputs().len() == usize::from(digit(*count))
        && are_told(traded.outputs(), price, trades)
}

// Holds an allotted close on the book where the side presses at its limit, and tells whether all is as the text says.
fn close(alloc: Global, book: &mut Book, grid: &Grid, side: Side, text: &[u8]) -> bool
    requires ready { IsReady book.old }
    requires size { length grid.now ≡ 8 }
{
    let at = if side == Side::Buy { 7 } else { 0 };
    let price = grid.price(at);
    let mut told = MemWatch::new(alloc);
    if presses(book, grid, side) {
        share_out(book, grid, side, &rounds(), 100, &mut told);
    }
    are_told(told.outputs(), price, text)
}

// Whether a side has more at its limit than the other side has.
fn presses(book: &Book, grid: &Grid, side: Side) -> bool
    requires ready { IsReady book.now }
    requires size { length grid.now ≡ 8 }
    ensures { result ≡ is_longer grid.now (orders book.now) (price_at grid.now (limit_position grid.now side)) side }
{
    grid.stands();
    match side {
        Side::Buy => {
            let sums = book.sums_at(7);
            sums.sells < sums.buys
        }
        Side::Sell => {
            let sums = book.sums_at(0);
            sums.buys < sums.sells
        }
    }
}

// A grid of 8 prices from 1000 on.
pub(crate) fn eight_prices(alloc: Global) -> Result<Grid, GridFault> {
    let ticks = [TickRow {
        upto: 1_000_000_000,
        tick: 10,
    }];
    Grid::build(alloc, &ticks, Price(1000), Price(1070))
}

#[test]
fn a_table_of_auctions(rt: HostRuntime) -> Result<(), Fail> {
    let grid = eight_prices(rt.alloc())?;
    assert!(rt; grid.size() == 8);
    for (orders, answer, trades) in AUCTIONS {
        let mut book = filled(rt.alloc(), orders.as_bytes())?;
        let (answer, trades) = (answer.as_bytes(), trades.as_bytes());
        let held = auction::<Brand>(
            rt.alloc(),
            Blank::new(1),
            &mut book,
            &grid,
            Margin::Time,
            answer,
            trades,
        );
        assert!(rt; held, "{orders}");
    }
    Ok(())
}

#[test]
fn a_table_of_auctions_by_rounds(rt: HostRuntime) -> Result<(), Fail> {
    let grid = eight_prices(rt.alloc())?;
    assert!(rt; grid.size() == 8);
    for (orders, answer, trades) in BY_ROUNDS {
        let mut book = filled(rt.alloc(), orders.as_bytes())?;
        let (answer, trades) = (answer.as_bytes(), trades.as_bytes());
        let held = auction::<Brand>(
            rt.alloc(),
            Blank::new(1),
            &mut book,
            &grid,
            Margin::Rounds,
            answer,
            trades,
        );
        assert!(rt; held, "{orders}");
    }
    Ok(())
}

#[test]
fn a_table_of_allotted_closes(rt: HostRuntime) -> Result<(), Fail> {
    let grid = eight_prices(rt.alloc())?;
    assert!(rt; grid.size() == 8);
    for (orders, side, told) in CLOSES {
        let mut book = filled(rt.alloc(), orders.as_bytes())?;
        let side = if side == "b" { Side::Buy } else { Side::Sell };
        assert!(rt;
            close(rt.alloc(), &mut book, &grid, side, told.as_bytes()),
            "{orders}"
        );
    }
    Ok(())
}
