// Worked examples on a small grid, whose answers a reader of the rules would give.
ghost use Rattle.std.specs.Prelude.{◌≡◌, ◌<◌, ◌≤◌, All, length, true};
ghost use Rattle.mkt_base.specs.Book.{FitsSums, IsOnGrid, IsRising};

use auction_law::{ByNearness, plain_attempt};
use mkt_base::{Caller, Order, Outcome, Participant, Price, Side, Spot, Sums};

// The prices 1000, 1010 and so on to 1100.
fn grid() -> [Price; 11]
    ensures { IsRising result }
{
    [
        Price(1000),
        Price(1010),
        Price(1020),
        Price(1030),
        Price(1040),
        Price(1050),
        Price(1060),
        Price(1070),
        Price(1080),
        Price(1090),
        Price(1100),
    ]
}

fn order(place: u64, side: Side, spot: Spot, left: u64) -> Order {
    Order {
        place,
        caller: Caller(0),
        own: 0,
        participant: Participant(0),
        side,
        spot,
        left,
    }
}

// The spot has a price on the grid, or needs none.
fn is_on_grid(grid: &[Price], spot: Spot) -> bool
    ensures { result ≡ true → IsOnGrid grid.now spot }
{
    match spot {
        Spot::Market => true,
        Spot::At(position) => (position as usize) < grid.len(),
    }
}

// At most eight orders of at most a thousand shares.
fn is_sample(orders: &[Order], grid: &[Price]) -> bool
    ensures on_grid { result ≡ true → All (λ o. IsOnGrid grid.now o.spot) orders.now }
    ensures left { result ≡ true → All (λ o. 0 < o.left) orders.now }
    ensures few { result ≡ true → length orders.now ≤ 8 }
    ensures small { result ≡ true → All (λ o. o.left ≤ 1000) orders.now }
{
    for order in orders {
        if order.left == 0 || order.left > 1000 || !is_on_grid(grid, order.spot) {
            return false;
        }
    }
    orders.len() <= 8
}

// What an attempt answers over a sample; none where it is no sample.
fn answer(orders: &[Order], reference: u32, lo: u32, hi: u32) -> Option<Outcome> {
    let grid = grid();
    if lo > reference || reference > hi || hi >= 11 || !is_sample(orders, &grid) {
        return None;
    }
    Some(plain_attempt(orders, &grid, reference, lo, hi))
}

#[test]
fn an_attempt_answers_by_the_rules(rt: HostRuntime) {
    let crossing = [
        order(2, Side::Buy, Spot::Market, 300),
        order(3, Side::Buy, Spot::At(6), 200),
        order(4, Side::Sell, Spot::At(4), 400),
        order(5, Side::Sell, Spot::At(7), 200),
    ];
    let sums = Sums {
        price: Price(1060),
        buys: 500,
        above: 300,
        sells: 400,
        below: 400,
    };
    let traded = Outcome::Traded { volume: 400, sums };
    assert_eq!(rt; answer(&crossing, 5, 0, 10), Some(traded));
    let pressed = Outcome::Pressed {
        side: Side::Buy,
        price: Price(1050),
        pressing: 500,
        facing: 400,
    };
    assert_eq!(rt; answer(&crossing, 5, 5, 5), Some(pressed));
}

#[test]
fn an_attempt_that_does_not_trade_says_why(rt: HostRuntime) {
    let apart = [
        order(2, Side::Buy, Spot::At(0), 100),
        order(3, Side::Sell, Spot::At(1), 100),
    ];
    let calm = Outcome::Calm {
        bid: Some(Price(1000)),
        ask: Some(Price(1010)),
    };
    assert_eq!(rt; answer(&apart, 5, 0, 10), Some(calm));
    let selling = [
        order(2, Side::Buy, Spot::At(10), 300),
        order(3, Side::Sell, Spot::Market, 500),
    ];
    let pressed = Outcome::Pressed {
        side: Side::Sell,
        price: Price(1000),
        pressing: 500,
        facing: 300,
    };
    assert_eq!(rt; answer(&selling, 5, 0, 10), Some(pressed));
}

#[test]
fn the_nearest_price_comes_first(rt: HostRuntime) {
    let grid = grid();
    let mut left = ByNearness::new(&grid, 2);
    for want in [
        1020, 1010, 1030, 1000, 1040, 1050, 1060, 1070, 1080, 1090, 1100,
    ] {
        assert_eq!(rt; left.next(), Some(Price(want)));
    }
    assert_eq!(rt; left.next(), None);
}
