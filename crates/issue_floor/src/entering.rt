// An order enters: it trades at once, or joins the book.
ghost use Rattle.std.specs.Prelude.{◌≡◌, ◌≤◌, ◌*◌, ◌++◌, true, false, None, IsTrue, List};
ghost use Rattle.mkt_base.specs.declared.output.Output.{Output};
ghost use Rattle.auction_law.specs.Attempt.{is_calm};
ghost use Rattle.auction_law.specs.Nearness.{distance};
ghost use Rattle.tick_grid.specs.Rows.{band_of};
ghost use Rattle.zaraba.specs.declared.stop.Stop.TheVariants.{Done};
ghost use Rattle.issue_book.specs.Entering.{enter, arrive, join, quote_for, trades_now};
ghost use Rattle.issue_book.specs.Filled.{IsFilled, left_of};
ghost use Rattle.issue_book.specs.IssueView.{IsPriceOf, MayEnter, in_state};
ghost use Rattle.issue_book.specs.Quoting.{is_trading};
ghost use Rattle.issue_floor.specs.Floor.{IsFloor};

use crate::quoting::is_trading;
use issue_book::IssueBook;
use mkt_base::{Order, Price, Watch};
use zaraba::Stop;

// Lets an order enter, and answers what it has left: it trades at once where no quote is shown in trading, and else joins the book.
pub fn enter<W: Watch>(book: &mut IssueBook, order: Order, watch: &mut W) -> u64
    requires floor { IsFloor book.old }
    requires enters { MayEnter book.old order }
    ensures floor { IsFloor book.new }
    ensures state { book.new ≡ in_state (enter book.old.terms order book.old.state).state book.old }
    ensures filled { IsFilled order.caller order.own order.place order.left (enter book.old.terms order book.old.state) }
    ensures left { result ≡ left_of order.caller order.own (enter book.old.terms order book.old.state).state }
    ensures told { (from : W) (outputs : List Output) → W.took from outputs watch.old
        → W.took from (outputs ++ (enter book.old.terms order book.old.state).outputs) watch.new }
{
    if trades_now(book) {
        arrive(book, order, watch)
    } else {
        join(book, order)
    }
}

// Whether an order trades at once.
fn trades_now(book: &IssueBook) -> bool
    ensures { result ≡ trades_now book.now.state }
{
    is_trading(book.phase()) && book.quote().is_none()
}

// Lets an order join the book, with all that it has left.
fn join(book: &mut IssueBook, order: Order) -> u64
    requires floor { IsFloor book.old }
    requires enters { MayEnter book.old order }
    requires waits { trades_now book.old.state ≡ false }
    ensures floor { IsFloor book.new }
    ensures state { book.new ≡ in_state (join order book.old.state).state book.old }
    ensures filled { IsFilled order.caller order.own order.place order.left (join order book.old.state) }
    ensures left { result ≡ left_of order.caller order.own (join order book.old.state).state }
{
    book.join(order);
    book.stands();
    order.left
}

// Lets an order trade at once, and answers what it has left; where it stops at a gap, or goes too far, a quote begins.
fn arrive<W: Watch>(book: &mut IssueBook, order: Order, watch: &mut W) -> u64
    requires floor { IsFloor book.old }
    requires enters { MayEnter book.old order }
    requires trades { trades_now book.old.state ≡ true }
    ensures floor { IsFloor book.new }
    ensures state { book.new ≡ in_state (arrive book.old.terms order book.old.state).state book.old }
    ensures filled { IsFilled order.caller order.own order.place order.left (arrive book.old.terms order book.old.state) }
    ensures left { result ≡ left_of order.caller order.own (arrive book.old.terms order book.old.state).state }
    ensures told { (from : W) (outputs : List Output) → W.took from outputs watch.old
        → W.took from (outputs ++ (arrive book.old.terms order book.old.state).outputs) watch.new }
{
    book.stands();
    let first = book.last();
    let arrived = book.arrive(order, watch);
    quote_for(book, first, arrived.stop, watch);
    arrived.left
}

// The quote that begins where an order stopped, for which the last price at its arrival was `first`.
fn quote_for<W: Watch>(book: &mut IssueBook, first: Price, stop: Stop, watch: &mut W)
    requires trading { is_trading book.old.state.phase ≡ true }
    requires unquoted { book.old.state.quote ≡ None }
    requires calm { stop ≡ Done → IsTrue (is_calm book.old.terms.grid book.old.state.orders) }
    requires first { IsPriceOf book.old.terms.grid first.0 }
    requires near { distance first.0 book.old.state.last ≤ 2 * band_of book.old.terms.ranges first.0 }
    ensures floor { IsFloor book.new }
    ensures state { book.new ≡ in_state (quote_for book.old.terms first.0 stop book.old.state).state book.old }
    ensures told { (from : W) (outputs : List Output) → W.took from outputs watch.old
        → W.took from (outputs ++ (quote_for book.old.terms first.0 stop book.old.state).outputs) watch.new }
{
    match stop {
        Stop::Done => {}
        Stop::Gap(side) => {
            let quote = book.new_special(side);
            book.show_quote(Some(quote), watch);
        }
        Stop::Sequence(side) => {
            let quote = book.new_sequential(side, first);
            book.show_quote(Some(quote), watch);
        }
    }
    book.stands();
}
