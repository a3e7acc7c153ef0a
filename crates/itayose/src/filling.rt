// Filling orders against the front of the other side.
ghost use Rattle.std.specs.Prelude.{◌≡◌, ℕ, ◌+◌, ◌-◌, ◌<◌, ◌≤◌, List, [], ◌∷◌, ◌++◌, All};
ghost use Rattle.mkt_base.specs.Book.{total_left};
ghost use Rattle.mkt_base.specs.Fills.{quantity, whole};
ghost use Rattle.book_law.specs.BookView.{Names, less, orders, side_of, taken};
ghost use Rattle.book_law.specs.Sides.{total};
ghost use Rattle.itayose.specs.Fills.{opposite};
ghost use Rattle.itayose.specs.Sharing.{AreFilled, KeepsOthers, fill_of, in_front, is_ahead, own_shares, passed, sharing_of, trade_side};

use crate::sharing::{Group, all_sharers};
use crate::trading::first_of;
use mkt_base::{Order, Price, Side, Trade, Watch};
use order_book::{Book, Handle, take};

// The side against which a side trades.
pub(crate) fn opposite(side: Side) -> Side
    ensures { result ≡ opposite side }
{
    match side {
        Side::Buy => Side::Sell,
        Side::Sell => Side::Buy,
    }
}

// The trade of an order with another one of the other side.
fn trade_between(price: Price, qty: u64, order: &Order, facing: &Order) -> Trade
    ensures { result ≡ trade_side price.0 qty order.now.side order.now.place facing.now.place }
{
    match order.side {
        Side::Buy => Trade {
            price,
            qty,
            buy: order.place,
            sell: facing.place,
        },
        Side::Sell => Trade {
            price,
            qty,
            buy: facing.place,
            sell: order.place,
        },
    }
}

// Trades at most so many shares of an order with the first order of the other side, and answers how many.
fn trade_with<W: Watch>(
    book: &mut Book,
    handle: Handle,
    order: &Order,
    most: u64,
    price: Price,
    watch: &mut W,
) -> u64
    requires names { Names book.old handle order.now }
    requires some { 0 < most }
    requires within { most ≤ order.now.left }
    requires faced { most ≤ total (side_of book.old (opposite order.now.side)) }
    ensures some { 0 < result }
    ensures within { result ≤ most }
    ensures filled { AreFilled W.took price.0 order.now.side (fill_of order.now.place most ∷ []) (fill_of order.now.place (most - result) ∷ []) book.old book.new watch.old watch.new }
    ensures side { side_of book.new order.now.side ≡ taken order.now.place result (side_of book.old order.now.side) }
    ensures own { result < order.now.left → Names book.new handle (less result order.now) }
    ensures others { KeepsOthers order.now book.old book.new }
{
    book.stands();
    let (first, facing) = first_of(book, opposite(order.side));
    let qty = facing.left.min(most);
    take(book, handle, order, qty);
    take(book, first, &facing, qty);
    watch.trade(trade_between(price, qty, order, &facing));
    qty
}

// Fills so many shares of an order against the front of the other side.
pub(crate) fn fill<W: Watch>(
    book: &mut Book,
    handle: Handle,
    order: &Order,
    qty: u64,
    price: Price,
    watch: &mut W,
)
    requires names { Names book.old handle order.now }
    requires within { qty ≤ order.now.left }
    requires faced { qty ≤ total (side_of book.old (opposite order.now.side)) }
    ensures filled { AreFilled W.took price.0 order.now.side (fill_of order.now.place qty ∷ []) [] book.old book.new watch.old watch.new }
    ensures side { side_of book.new order.now.side ≡ taken order.now.place qty (side_of book.old order.now.side) }
    ensures others { KeepsOthers order.now book.old book.new }
{
    book.stands();
    let mut rest = *order;
    let mut left = qty;
    while left > 0 {
        let traded = trade_with(book, handle, &rest, left, price, watch);
        rest.left -= traded;
        left -= traded;
    }
}

// Fills the first orders of a side, as many as have so many shares, against the front of the other side.
pub(crate) fn fill_front<W: Watch>(
    book: &mut Book,
    side: Side,
    shares: u64,
    price: Price,
    watch: &mut W,
)
    requires whole { total (in_front shares (side_of book.old side)) ≡ shares }
    requires faced { shares ≤ total (side_of book.old (opposite side)) }
    ensures filled { AreFilled W.took price.0 side (whole (in_front shares (side_of book.old side))) [] book.old book.new watch.old watch.new }
    ensures side { side_of book.new side ≡ passed shares (side_of book.old side) }
{
    book.stands();
    let mut left = shares;
    while left > 0 {
        book.stands();
        let (handle, order) = first_of(book, side);
        fill(book, handle, &order, order.left, price, watch);
        left -= order.left;
    }
}

// Fills the orders that share, each in turn, with what its participant has left of its share.
pub(crate) fn fill_shares<W: Watch>(
    book: &mut Book,
    group: &Group,
    shares: &[u64; 64],
    price: Price,
    watch: &mut W,
)
    requires position { group.now.at < book.old.prices }
    requires ahead { group.now.ahead ≡ total_left (is_ahead group.now.side group.now.at) (orders book.old) }
    requires left { group.now.left ≡ total (sharing_of book.old group.now.side group.now.at group.now.markets) }
    requires participants { All (λ o. o.participant.0 < 64) (orders book.old) }
    requires faced { quantity (own_shares shares.now (sharing_of book.old group.now.side group.now.at group.now.markets)) ≤ total (side_of book.old (opposite group.now.side)) }
    ensures { AreFilled W.took price.0 group.now.side (own_shares shares.now (sharing_of book.old group.now.side group.now.at group.now.markets)) [] book.old book.new watch.old watch.new }
{
    book.stands();
    let mut shares = *shares;
    let mut rest = all_sharers(book, group);
    while rest.left > 0 {
        let (handle, order) = rest.next(book);
        let own = usize::from(order.participant.0);
        let qty = order.left.min(shares[own]);
        shares[own] -= qty;
        fill(book, handle, &order, qty, price, watch);
    }
}
