// Searches of the list of orders.
ghost use Rattle.std.specs.Prelude.{◌≡◌, ℕ, ◌<◌, true, AllPairs, find, length};
ghost use Rattle.std.specs.List.{HoldsAt};
ghost use Rattle.std.specs.Option.{option_map_or};
ghost use Rattle.mkt_base.specs.declared.order.Order.{Order};
ghost use Rattle.book_law.specs.BookView.{is_of};
ghost use Rattle.order_book.specs.Plain.{IsFirst, is_ahead, is_wanted, rank};

use mkt_base::{Caller, Order, Side, Spot};

// The index of the order at a place.
pub(crate) fn index_of(orders: &[Order], place: u64) -> usize
    requires rising { AllPairs (λ a b. a.place < b.place) orders.now }
    requires there { (k : ℕ) × (k < length orders.now) × HoldsAt (λ o. o.place ≡ place) orders.now k }
    ensures within { result < length orders.now }
    ensures there { HoldsAt (λ o. o.place ≡ place) orders.now result }
{
    orders.partition_point(|o| o.place < place)
}

// The order of a caller with this own number; none where there is none.
pub(crate) fn with_own(orders: &[Order], caller: Caller, own: u32) -> Option<Order>
    ensures { result ≡ find (is_of caller own) orders.now }
{
    for order in orders {
        if caller == order.caller && own == order.own {
            return Some(*order);
        }
    }
    None
}

// The order that comes first on a side of a grid of so many prices; of those behind `after`, if it is given.
pub(crate) fn first_of(
    orders: &[Order],
    prices: u32,
    side: Side,
    after: Option<Order>,
) -> Option<Order>
    ensures { IsFirst prices side after orders.now result }
{
    let mut first = None;
    for order in orders {
        if wants(prices, side, after, order) && improves(prices, side, order, first) {
            first = Some(*order);
        }
    }
    first
}

// Whether the order is of the side, and behind `after` if it is given.
fn wants(prices: u32, side: Side, after: Option<Order>, order: &Order) -> bool
    ensures { result ≡ is_wanted prices side after order.now }
{
    if order.side != side {
        return false;
    }
    match after {
        Some(a) => comes_before(prices, side, &a, order),
        None => true,
    }
}

// Whether the order comes before the first one so far; any does where there is none yet.
fn improves(prices: u32, side: Side, order: &Order, first: Option<Order>) -> bool
    ensures { result ≡ option_map_or (λ f. is_ahead prices side order.now f) first true }
{
    match first {
        Some(f) => comes_before(prices, side, order, &f),
        None => true,
    }
}

// Whether the first order stands at a better spot for the side, or at the same spot and came earlier.
fn comes_before(prices: u32, side: Side, a: &Order, b: &Order) -> bool
    ensures { result ≡ is_ahead prices side a.now b.now }
{
    let first = rank_of(prices, side, a.spot);
    let second = rank_of(prices, side, b.spot);
    first < second || (first == second && a.place < b.place)
}

// The rank of a spot: the market's, then that of the highest buy or the lowest sell.
fn rank_of(prices: u32, side: Side, spot: Spot) -> u64
    ensures { result ≡ rank prices side spot }
{
    match (side, spot) {
        (_, Spot::Market) => 0,
        (Side::Buy, Spot::At(i)) => u64::from(prices.saturating_sub(i)),
        (Side::Sell, Spot::At(i)) => u64::from(i) + 1,
    }
}
