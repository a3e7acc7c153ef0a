// Trading the fronts of a book's two sides.
ghost use Rattle.std.specs.Prelude.{◌≡◌, ℕ, ◌<◌, ◌≤◌, List, [], ◌∷◌, ◌++◌, Some, slice_get};
ghost use Rattle.mkt_base.specs.Fills.{after_trades};
ghost use Rattle.mkt_base.specs.declared.output.Output.{Output};
ghost use Rattle.book_law.specs.BookView.{Names, asks, bids, orders, side_of};
ghost use Rattle.book_law.specs.Paired.{paired};
ghost use Rattle.book_law.specs.Sides.{total};
ghost use Rattle.itayose.specs.Fills.{trade_outputs};
ghost use Rattle.itayose.specs.Trading.{IsTraded};

use mkt_base::{Order, Price, Side, Trade, Watch};
use order_book::{Book, Handle, take};

// Trades so many shares from the fronts of both sides at a price, no more than either side has, and tells a watch each trade.
pub(crate) fn trade_volume<W: Watch>(book: &mut Book, price: Price, volume: u64, watch: &mut W)
    requires bought { volume ≤ total (bids book.old) }
    requires sold { volume ≤ total (asks book.old) }
    ensures book { orders book.new ≡ after_trades (paired price.0 volume (bids book.old) (asks book.old)) (orders book.old) }
    ensures prices { book.new.prices ≡ book.old.prices }
    ensures capacity { book.new.capacity ≡ book.old.capacity }
    ensures told { (from : W) (outputs : List Output) → W.took from outputs watch.old
        → W.took from (outputs ++ trade_outputs (paired price.0 volume (bids book.old) (asks book.old))) watch.new }
{
    book.stands();
    let mut left = volume;
    while left > 0 {
        left -= trade_first(book, price, left, watch).qty;
    }
}

// Trades the first orders of both sides at a price, at most so many shares, and tells a watch the trade.
fn trade_first<W: Watch>(book: &mut Book, price: Price, most: u64, watch: &mut W) -> Trade
    requires some { 0 < most }
    requires bought { most ≤ total (bids book.old) }
    requires sold { most ≤ total (asks book.old) }
    ensures trade { IsTraded price.0 most book.old book.new result }
    ensures told { (from : W) (outputs : List Output) → W.took from outputs watch.old
        → W.took from (outputs ++ Output.Traded result ∷ []) watch.new }
{
    book.stands();
    let (buy, bid) = first_of(book, Side::Buy);
    let (sell, ask) = first_of(book, Side::Sell);
    let qty = bid.left.min(ask.left).min(most);
    take(book, buy, &bid, qty);
    take(book, sell, &ask, qty);
    let trade = Trade {
        price,
        qty,
        buy: bid.place,
        sell: ask.place,
    };
    watch.trade(trade);
    trade
}

// The first order of a side that has one, and the handle that names it.
pub(crate) fn first_of(book: &Book, side: Side) -> (Handle, Order)
    requires { 0 < total (side_of book.now side) }
    ensures names { Names book.now result.0 result.1 }
    ensures first { slice_get (side_of book.now side) 0 ≡ Some result.1 }
{
    let Some(first) = book.best(side) else {
        unreachable!()
    };
    (first, book.order(first))
}
