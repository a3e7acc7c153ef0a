// Quotes on a grid from 15,000 to 25,000, a special one due after three minutes and a sequential one after one. A moment 0
// stands for none.
ghost use Rattle.std.specs.Prelude.{◌<◌, IfSome, length};
ghost use Rattle.tick_grid.specs.Rows.{AreBandRows, AreTickRows};
ghost use Rattle.quote_law.specs.Quotes.{IsOn};

use mkt_base::{Moment, Outcome, Price, Quote, QuoteKind, Side, Sums};
use std::test::Fail;
use tick_grid::{BandRow, Grid, GridFault, TickRow};

fn ticks() -> [TickRow; 1]
    ensures { AreTickRows result }
{
    [TickRow {
        upto: 1_000_000_000,
        tick: 10,
    }]
}

fn ranges() -> [BandRow; 3]
    ensures { AreBandRows result }
{
    [
        BandRow {
            below: 15_000,
            value: 300,
        },
        BandRow {
            below: 20_000,
            value: 400,
        },
        BandRow {
            below: 1_000_000_001,
            value: 500,
        },
    ]
}

fn grid(rt: &HostRuntime) -> Result<Grid, GridFault> {
    Grid::build(rt.alloc(), &ticks(), Price(15_000), Price(25_000))
}

fn side_of(word: &str) -> Side {
    match word.as_bytes() {
        b"buy" => Side::Buy,
        _ => Side::Sell,
    }
}

fn kind_of(word: &str) -> QuoteKind {
    match word.as_bytes() {
        b"special" => QuoteKind::Special,
        _ => QuoteKind::Sequential,
    }
}

fn quote_at(kind: QuoteKind, side: Side, price: u32) -> Quote {
    Quote {
        kind,
        side,
        price: Price(price),
        due: None,
    }
}

// A quote at a price of the grid.
fn quote_on(grid: &Grid, kind: QuoteKind, side: Side, price: u32) -> Option<Quote>
    ensures { IfSome result (λ quote. IsOn grid.now quote) }
{
    let price = Price(price);
    grid.index(price)?;
    Some(Quote {
        kind,
        side,
        price,
        due: None,
    })
}

// A quote with its due moment as a number.
#[derive(Clone, Copy, Debug, PartialEq, Eq)]
struct Shown {
    kind: QuoteKind,
    side: Side,
    price: u32,
    due: u32,
}

// What a quote shows.
fn told(quote: &Quote) -> Shown {
    let due = match quote.due {
        Some(due) => due.ms(),
        None => 0,
    };
    Shown {
        kind: quote.kind,
        side: quote.side,
        price: quote.price.0,
        due,
    }
}

// The quote that begins at a moment from a price.
fn begun(grid: &Grid, kind: QuoteKind, side: Side, from: u32, now: u32) -> Option<Shown> {
    let at = grid.index(Price(from))?;
    let now = Moment::new(now)?;
    let quote = match kind {
        QuoteKind::Special => special_quote::begin(grid, &ranges(), side, at, now, 180_000),
        QuoteKind::Sequential => sequential_quote::begin(grid, &ranges(), side, at, now, 60_000),
    };
    Some(told(&quote))
}

#[test]
fn where_quotes_begin(rt: HostRuntime) -> Result<(), Fail> {
    let grid = grid(&rt)?;
    for (kind, side, from, now, price, due) in [
        ("special", "buy", 20_000, 32_400_000, 20_500, 32_580_000),
        ("special", "sell", 20_000, 32_400_000, 19_500, 32_580_000),
        ("special", "sell", 19_990, 32_400_000, 19_590, 32_580_000),
        ("special", "buy", 24_490, 32_400_000, 24_990, 32_580_000),
        ("special", "buy", 24_500, 32_400_000, 25_000, 0),
        ("special", "buy", 25_000, 32_400_000, 25_000, 0),
        ("special", "sell", 15_410, 32_400_000, 15_010, 32_580_000),
        ("special", "sell", 15_000, 32_400_000, 15_000, 0),
        ("special", "buy", 20_000, 86_219_999, 20_500, 86_399_999),
        ("special", "buy", 20_000, 86_220_000, 20_500, 0),
        ("sequential", "buy", 20_000, 32_400_000, 21_000, 32_460_000),
        ("sequential", "sell", 20_000, 32_400_000, 19_000, 32_460_000),
        ("sequential", "sell", 19_990, 32_400_000, 19_190, 32_460_000),
        ("sequential", "buy", 24_000, 32_400_000, 25_000, 32_460_000),
        ("sequential", "buy", 20_000, 86_339_999, 21_000, 86_399_999),
        ("sequential", "buy", 20_000, 86_340_000, 21_000, 0),
    ] {
        let want = Shown {
            kind: kind_of(kind),
            side: side_of(side),
            price,
            due,
        };
        assert_eq!(rt;
            begun(&grid, want.kind, want.side, from, now),
            Some(want),
            "{kind} {side} from {from} at {now}"
        );
    }
    Ok(())
}

// The prices between which a quote is tried after an event, and at its due moment.
fn windows(grid: &Grid, quote: &Quote, last: u32) -> (u32, u32, u32, u32)
    requires quote { IsOn grid.now quote.now }
    requires last { last < length grid.now }
{
    let (a, b) = match quote.kind {
        QuoteKind::Special => (
            special_quote::window(grid, &ranges(), quote, last),
            special_quote::due_window(grid, &ranges(), quote, last),
        ),
        QuoteKind::Sequential => (
            sequential_quote::window(grid, &ranges(), quote, last),
            sequential_quote::due_window(grid, &ranges(), quote, last),
        ),
    };
    (
        grid.price(a.0).0,
        grid.price(a.1).0,
        grid.price(b.0).0,
        grid.price(b.1).0,
    )
}

// The same for a quote of a kind and a side at a price.
fn tried(
    grid: &Grid,
    kind: QuoteKind,
    side: Side,
    price: u32,
    last: u32,
) -> Option<(u32, u32, u32, u32)> {
    let last = grid.index(Price(last))?;
    match quote_on(grid, kind, side, price) {
        Some(quote) => Some(windows(grid, &quote, last)),
        None => None,
    }
}

#[test]
fn where_quotes_are_tried(rt: HostRuntime) -> Result<(), Fail> {
    let grid = grid(&rt)?;
    for (kind, side, price, last, low, high, due_low, due_high) in [
        (
            "special", "buy", 20_500, 20_000, 19_500, 20_500, 19_500, 21_000,
        ),
        (
            "special", "buy", 21_000, 20_000, 19_500, 21_000, 19_500, 21_500,
        ),
        (
            "special", "buy", 25_000, 20_000, 19_500, 25_000, 19_500, 25_000,
        ),
        (
            "special", "sell", 19_500, 20_000, 19_500, 20_500, 19_100, 20_500,
        ),
        (
            "special", "sell", 15_000, 20_000, 15_000, 20_500, 15_000, 20_500,
        ),
        (
            "sequential",
            "buy",
            21_000,
            20_800,
            20_300,
            21_000,
            20_300,
            21_500,
        ),
        (
            "sequential",
            "sell",
            19_000,
            19_200,
            19_000,
            19_600,
            18_600,
            19_600,
        ),
    ] {
        let found = tried(&grid, kind_of(kind), side_of(side), price, last);
        assert_eq!(rt;
            found,
            Some((low, high, due_low, due_high)),
            "{kind} {side} {price} from {last}"
        );
    }
    Ok(())
}

// What a quote at a price is renewed to at a moment.
fn moved(grid: &Grid, kind: QuoteKind, side: Side, price: u32, now: u32) -> Option<Shown> {
    let now = Moment::new(now)?;
    let quote = quote_on(grid, kind, side, price)?;
    let renewed = special_quote::renewed(grid, &ranges(), &quote, now, 180_000);
    Some(told(&renewed))
}

#[test]
fn what_quotes_move_to(rt: HostRuntime) -> Result<(), Fail> {
    let grid = grid(&rt)?;
    for (kind, side, price, now, next, due) in [
        ("special", "buy", 20_500, 36_180_000, 21_000, 36_360_000),
        ("special", "buy", 24_500, 37_620_000, 25_000, 0),
        ("special", "sell", 19_500, 36_180_000, 19_100, 36_360_000),
        ("sequential", "buy", 21_000, 32_460_000, 21_500, 32_640_000),
        ("sequential", "sell", 15_400, 32_460_000, 15_000, 0),
    ] {
        let want = Shown {
            kind: QuoteKind::Special,
            side: side_of(side),
            price: next,
            due,
        };
        assert_eq!(rt;
            moved(&grid, kind_of(kind), want.side, price, now),
            Some(want),
            "{kind} {side} {price} at {now}"
        );
    }
    Ok(())
}

// The answer of an attempt by a word: it trades, it is calm, or a side presses.
fn outcome_of(word: &str) -> Outcome {
    let price = Price(20_500);
    match word.as_bytes() {
        b"traded" => Outcome::Traded {
            volume: 100,
            sums: Sums {
                price,
                buys: 100,
                above: 0,
                sells: 100,
                below: 0,
            },
        },
        b"calm" => Outcome::Calm {
            bid: None,
            ask: None,
        },
        _ => Outcome::Pressed {
            side: side_of(word),
            price,
            pressing: 300,
            facing: 100,
        },
    }
}

// The price of a quote; 0 for none.
fn price_of(quote: Option<Quote>) -> u32 {
    match quote {
        Some(quote) => quote.price.0,
        None => 0,
    }
}

// The price of what becomes after an event of a quote at 20,000, where a quote of the other side would begin at 19,000.
fn after(kind: QuoteKind, side: Side, word: &str) -> u32 {
    let outcome = outcome_of(word);
    let fresh = quote_at(QuoteKind::Special, side, 19_000);
    let quote = quote_at(kind, side, 20_000);
    match kind {
        QuoteKind::Special => price_of(special_quote::after_event(quote, outcome, fresh)),
        QuoteKind::Sequential => price_of(sequential_quote::after_event(quote, outcome, fresh)),
    }
}

// The same at its due moment, where it would move to 21,000.
fn at_due(kind: QuoteKind, side: Side, word: &str) -> u32 {
    let outcome = outcome_of(word);
    let fresh = quote_at(QuoteKind::Special, side, 19_000);
    let moved = quote_at(QuoteKind::Special, side, 21_000);
    let quote = quote_at(kind, side, 20_000);
    match kind {
        QuoteKind::Special => price_of(special_quote::at_due(quote, outcome, moved, fresh)),
        QuoteKind::Sequential => price_of(sequential_quote::at_due(quote, outcome, moved, fresh)),
    }
}

#[test]
fn what_becomes_of_quotes(rt: HostRuntime) {
    for (kind, side, word, want, want_due) in [
        ("special", "buy", "buy", 20_000, 21_000),
        ("special", "buy", "sell", 19_000, 19_000),
        ("special", "sell", "buy", 19_000, 19_000),
        ("special", "sell", "sell", 20_000, 21_000),
        ("special", "buy", "traded", 0, 0),
        ("special", "sell", "calm", 0, 0),
        ("sequential", "buy", "buy", 20_000, 21_000),
        ("sequential", "sell", "buy", 19_000, 19_000),
        ("sequential", "sell", "traded", 0, 0),
        ("sequential", "buy", "calm", 0, 0),
    ] {
        let (kind, side) = (kind_of(kind), side_of(side));
        assert_eq!(rt; after(kind, side, word), want, "after an event, by {word}");
        assert_eq!(rt;
            at_due(kind, side, word),
            want_due,
            "at the due moment, by {word}"
        );
    }
}
