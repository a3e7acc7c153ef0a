// A shown quote is tried after an event, and served at its due moment.
ghost use Rattle.std.specs.Prelude.{◌≡◌, ℕ, ◌++◌, List, Some};
ghost use Rattle.mkt_base.specs.declared.order.Order.{Order};
ghost use Rattle.mkt_base.specs.declared.output.Output.{Output};
ghost use Rattle.mkt_base.specs.declared.quote.Quote.{Quote};
ghost use Rattle.mkt_base.specs.declared.units.Caller.{Caller};
ghost use Rattle.mkt_base.specs.declared.units.Price.{Price};
ghost use Rattle.itayose.specs.Answer.{outcome_of};
ghost use Rattle.quote_law.specs.Quotes.{opposite};
ghost use Rattle.issue_book.specs.Filled.{IsFilled, IsKey, left_of};
ghost use Rattle.issue_book.specs.IssueView.{in_state};
ghost use Rattle.issue_book.specs.Quoting.{is_trading, presses, serve, try_quote, try_shown};
ghost use Rattle.issue_book.specs.Sessions.{step_at};
ghost use Rattle.issue_floor.specs.Floor.{IsFloor};

use issue_book::IssueBook;
use itayose::Attempt;
use mkt_base::{Moment, Phase, Quote, Side, Watch};
use quote_law::{after_event, at_due};

// Whether orders trade in a phase.
pub fn is_trading(phase: Phase) -> bool
    ensures { result ≡ is_trading phase }
{
    matches!(phase, Phase::Trading)
}

// Tries the quote, if one is shown in trading.
pub fn try_quote<W: Watch>(book: &mut IssueBook, watch: &mut W)
    requires { IsFloor book.old }
    ensures floor { IsFloor book.new }
    ensures state { book.new ≡ in_state (try_quote book.old.terms book.old.state).state book.old }
    ensures filled { (caller : Caller) (own place : ℕ) → IsKey caller own place book.old.state.orders
        → IsFilled caller own place (left_of caller own book.old.state) (try_quote book.old.terms book.old.state) }
    ensures told { (from : W) (outputs : List Output) → W.took from outputs watch.old
        → W.took from (outputs ++ (try_quote book.old.terms book.old.state).outputs) watch.new }
{
    if !is_trading(book.phase()) {
        return;
    }
    let Some(quote) = book.quote() else {
        return;
    };
    try_shown(book, &quote, watch);
}

// Tries a shown quote once; where its own side presses nothing happens.
fn try_shown<W: Watch>(book: &mut IssueBook, quote: &Quote, watch: &mut W)
    requires floor { IsFloor book.old }
    requires shown { book.old.state.quote ≡ Some quote.now }
    ensures floor { IsFloor book.new }
    ensures state { book.new ≡ in_state (try_shown book.old.terms quote.now book.old.state).state book.old }
    ensures filled { (caller : Caller) (own place : ℕ) → IsKey caller own place book.old.state.orders
        → IsFilled caller own place (left_of caller own book.old.state) (try_shown book.old.terms quote.now book.old.state) }
    ensures told { (from : W) (outputs : List Output) → W.took from outputs watch.old
        → W.took from (outputs ++ (try_shown book.old.terms quote.now book.old.state).outputs) watch.new }
{
    let window = book.tried_by(quote);
    let answer = book.attempt(&window);
    if presses(quote.side, answer) {
        return;
    }
    let fresh = book.new_special(opposite(quote.side));
    let outcome = book.hold(&window, answer, watch);
    book.show_quote(after_event(*quote, outcome, fresh), watch);
    book.stands();
}

// Serves the shown quote at its due moment.
pub fn serve<W: Watch>(book: &mut IssueBook, at: Moment, quote: &Quote, watch: &mut W)
    requires floor { IsFloor book.old }
    requires shown { book.old.state.quote ≡ Some quote.now }
    requires due { quote.now.due ≡ Some at }
    ensures floor { IsFloor book.new }
    ensures state { book.new ≡ in_state (step_at at (serve book.old.terms quote.now) book.old.state).state book.old }
    ensures told { (from : W) (outputs : List Output) → W.took from outputs watch.old
        → W.took from (outputs ++ (step_at at (serve book.old.terms quote.now) book.old.state).outputs) watch.new }
{
    watch.due(at);
    book.set_clock(at);
    let window = book.due_by(quote);
    let answer = book.attempt(&window);
    let moved = book.moved(quote);
    let fresh = book.new_special(opposite(quote.side));
    let outcome = book.hold(&window, answer, watch);
    book.show_quote(at_due(*quote, outcome, moved, fresh), watch);
    book.stands();
}

// Whether the answer is that this side presses.
fn presses(side: Side, answer: Attempt) -> bool
    ensures { (grid : List Price) (os : List Order) (lo hi : ℕ) → result ≡ presses side (outcome_of grid os lo hi answer) }
{
    match answer {
        Attempt::Pressed(other) => other == side,
        _ => false,
    }
}

// The other side.
fn opposite(side: Side) -> Side
    ensures { result ≡ opposite side }
{
    match side {
        Side::Buy => Side::Sell,
        Side::Sell => Side::Buy,
    }
}
