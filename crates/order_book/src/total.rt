// Adding up what the orders of a part of the book have left.
ghost use Rattle.std.specs.Prelude.{◌≡◌, ℕ, ◌≤◌, All, length};
ghost use Rattle.mkt_base.specs.Book.{total_left};
ghost use Rattle.order_book.specs.Plain.{is_part};

use crate::Levels;
use mkt_base::{Order, Side, Spot};

// Which orders are added up: the buys from a position on or above it, the sells up to a position or below it, all with the
// market orders of the side; or a level.
#[derive(Clone, Copy)]
pub(crate) enum Part {
    BuysFrom(u32),
    BuysAbove(u32),
    SellsTo(u32),
    SellsBelow(u32),
    Level(Side, Spot),
}

// Whether the order counts in the part.
fn counts(part: Part, order: &Order) -> bool
    ensures { result ≡ is_part part order.now }
{
    match (part, order.side, order.spot) {
        (Part::BuysFrom(_) | Part::BuysAbove(_), Side::Sell, _) => false,
        (Part::SellsTo(_) | Part::SellsBelow(_), Side::Buy, _) => false,
        (Part::Level(side, spot), _, _) => side == order.side && spot == order.spot,
        (_, _, Spot::Market) => true,
        (Part::BuysFrom(i), _, Spot::At(j)) => i <= j,
        (Part::BuysAbove(i), _, Spot::At(j)) => i < j,
        (Part::SellsTo(i), _, Spot::At(j)) => j <= i,
        (Part::SellsBelow(i), _, Spot::At(j)) => j < i,
    }
}

// The shares that the orders of a part have left.
#[tactic(auto, unfolding(mkt_base::specs::Book::total_left))]
pub(crate) fn total(orders: &[Order], part: Part) -> u64
    requires few { length orders.now ≤ 4294967295 }
    requires limit { All (λ o. o.left ≤ 100000000) orders.now }
    ensures { result ≡ total_left (is_part part) orders.now }
{
    let mut sum = 0;
    for order in orders {
        if counts(part, order) {
            sum += order.left;
        }
    }
    sum
}

// The four sums at a position.
pub(crate) fn levels(orders: &[Order], i: u32) -> Levels
    requires few { length orders.now ≤ 4294967295 }
    requires limit { All (λ o. o.left ≤ 100000000) orders.now }
    ensures buys { result.buys ≡ total_left (is_part (Part.BuysFrom i)) orders.now }
    ensures above { result.above ≡ total_left (is_part (Part.BuysAbove i)) orders.now }
    ensures sells { result.sells ≡ total_left (is_part (Part.SellsTo i)) orders.now }
    ensures below { result.below ≡ total_left (is_part (Part.SellsBelow i)) orders.now }
{
    Levels {
        buys: total(orders, Part::BuysFrom(i)),
        above: total(orders, Part::BuysAbove(i)),
        sells: total(orders, Part::SellsTo(i)),
        below: total(orders, Part::SellsBelow(i)),
    }
}
