// The boundaries of a session: collecting begins, trading opens, and trading closes.
ghost use Rattle.std.specs.Prelude.{◌≡◌, ◌≢◌, ◌++◌, true, false, List, None, IsTrue};
ghost use Rattle.mkt_base.specs.declared.output.Output.{Output};
ghost use Rattle.auction_law.specs.Attempt.{is_calm};
ghost use Rattle.session_phase.specs.declared.session.Boundary.TheVariants.{Accept, Begin, Finish};
ghost use Rattle.issue_book.specs.Holding.{IsOver, is_pressed};
ghost use Rattle.issue_book.specs.IssueView.{in_state};
ghost use Rattle.issue_book.specs.Quoting.{is_trading};
ghost use Rattle.issue_book.specs.Sessions.{at_boundary, close_window, end_quote, quote_pressed, step_at};
ghost use Rattle.issue_floor.specs.Floor.{IsFloor, StandsOn};

use issue_book::{IssueBook, Window};
use mkt_base::{Moment, Outcome, Phase, Watch};
use session_phase::Boundary;

// Takes a boundary of the day at its moment.
pub fn at_boundary<W: Watch>(book: &mut IssueBook, at: Moment, boundary: Boundary, watch: &mut W)
    requires floor { IsFloor book.old }
    requires closed { boundary ≢ Finish → is_trading book.old.state.phase ≡ false }
    ensures floor { IsFloor book.new }
    ensures state { book.new ≡ in_state (step_at at (at_boundary book.old.terms boundary) book.old.state).state book.old }
    ensures told { (from : W) (outputs : List Output) → W.took from outputs watch.old
        → W.took from (outputs ++ (step_at at (at_boundary book.old.terms boundary) book.old.state).outputs) watch.new }
{
    watch.due(at);
    book.set_clock(at);
    match boundary {
        Boundary::Accept => accept_orders(book, watch),
        Boundary::Begin => open_trading(book, watch),
        Boundary::Finish => close_trading(book, watch),
    }
}

// Collecting begins.
fn accept_orders<W: Watch>(book: &mut IssueBook, watch: &mut W)
    requires unquoted { book.old.state.quote ≡ None }
    ensures floor { IsFloor book.new }
    ensures state { book.new ≡ in_state (at_boundary book.old.terms Accept book.old.state).state book.old }
    ensures told { (from : W) (outputs : List Output) → W.took from outputs watch.old
        → W.took from (outputs ++ (at_boundary book.old.terms Accept book.old.state).outputs) watch.new }
{
    book.enter_phase(Phase::Collecting, watch);
    book.stands();
}

// Trading begins with an auction around the last price.
fn open_trading<W: Watch>(book: &mut IssueBook, watch: &mut W)
    requires unquoted { book.old.state.quote ≡ None }
    ensures floor { IsFloor book.new }
    ensures state { book.new ≡ in_state (at_boundary book.old.terms Begin book.old.state).state book.old }
    ensures told { (from : W) (outputs : List Output) → W.took from outputs watch.old
        → W.took from (outputs ++ (at_boundary book.old.terms Begin book.old.state).outputs) watch.new }
{
    book.enter_phase(Phase::Trading, watch);
    let window = book.around_last();
    let answer = book.attempt(&window);
    let outcome = book.hold(&window, answer, watch);
    quote_pressed(book, outcome, watch);
}

// A special quote begins where a side presses.
fn quote_pressed<W: Watch>(book: &mut IssueBook, outcome: Outcome, watch: &mut W)
    requires trading { is_trading book.old.state.phase ≡ true }
    requires unquoted { book.old.state.quote ≡ None }
    requires calm { is_pressed outcome ≡ false → IsTrue (is_calm book.old.terms.grid book.old.state.orders) }
    ensures floor { IsFloor book.new }
    ensures state { book.new ≡ in_state (quote_pressed book.old.terms outcome book.old.state).state book.old }
    ensures told { (from : W) (outputs : List Output) → W.took from outputs watch.old
        → W.took from (outputs ++ (quote_pressed book.old.terms outcome book.old.state).outputs) watch.new }
{
    if let Outcome::Pressed { side, .. } = outcome {
        let quote = book.new_special(side);
        book.show_quote(Some(quote), watch);
    }
    book.stands();
}

// Trading ends with an auction, and the issue is idle.
fn close_trading<W: Watch>(book: &mut IssueBook, watch: &mut W)
    requires { StandsOn book.old }
    ensures floor { IsFloor book.new }
    ensures state { book.new ≡ in_state (at_boundary book.old.terms Finish book.old.state).state book.old }
    ensures told { (from : W) (outputs : List Output) → W.took from outputs watch.old
        → W.took from (outputs ++ (at_boundary book.old.terms Finish book.old.state).outputs) watch.new }
{
    let window = close_window(book);
    let answer = book.attempt(&window);
    book.close(&window, answer, watch);
    end_quote(book, watch);
    book.enter_phase(Phase::Idle, watch);
    book.stands();
}

// The window of a close: the due window of a shown quote, and the opening's where none is shown.
fn close_window(book: &IssueBook) -> Window
    requires { StandsOn book.now }
    ensures { IsOver book.now.terms.grid (close_window book.now.terms book.now.state.quote book.now.state) result }
{
    match book.quote() {
        Some(quote) => book.due_by(&quote),
        None => book.around_last(),
    }
}

// A shown quote ends.
fn end_quote<W: Watch>(book: &mut IssueBook, watch: &mut W)
    ensures state { book.new ≡ in_state (end_quote book.old.state).state book.old }
    ensures none { book.new.state.quote ≡ None }
    ensures told { (from : W) (outputs : List Output) → W.took from outputs watch.old
        → W.took from (outputs ++ (end_quote book.old.state).outputs) watch.new }
{
    if book.quote().is_some() {
        book.show_quote(None, watch);
    }
}
