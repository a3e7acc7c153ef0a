// The trading of one issue.
ghost use Rattle.std.specs.Prelude.{◌≡◌, ◌≢◌, ℕ, ◌+◌, ◌%◌, ◌<◌, ◌≤◌, ◌++◌, true, false, List, IfOk, IfSome, IsSome, Some, None, length, slice_get};
ghost use Rattle.mkt_base.specs.declared.order.Order.{Order};
ghost use Rattle.mkt_base.specs.declared.output.Output.{Output};
ghost use Rattle.mkt_base.specs.declared.quote.Quote.{Quote};
ghost use Rattle.mkt_base.specs.declared.units.Caller.{Caller};
ghost use Rattle.auction_law.specs.Attempt.{best_ask, best_bid};
ghost use Rattle.rules_file.specs.Rules.{IsRules, issues_in};
ghost use Rattle.rules_file.specs.declared.issue.IssueRules.{IssueRules};
ghost use Rattle.session_phase.specs.declared.session.Boundary.TheVariants.{Finish};
ghost use Rattle.issue_book.specs.Entering.{enter, lower, named, spot_of, take_out};
ghost use Rattle.issue_book.specs.Filled.{IsFilled, IsKey, left_of};
ghost use Rattle.issue_book.specs.IssueView.{MayEnter, in_state, terms_of};
ghost use Rattle.issue_book.specs.Quoting.{is_trading, serve, try_quote};
ghost use Rattle.issue_book.specs.Sessions.{at_boundary, step_at};
ghost use Rattle.issue_book.specs.State.{start};
ghost use Rattle.issue_floor.specs.Floor.{IsFloor, IsUndue};

use crate::{boundaries, entering, quoting};
use issue_book::{IssueBook, IssueFault};
use mkt_base::{
    Caller, Kind, Moment, NodeNo, NodeState, Order, Phase, Price, Quote, Side, Spot, Watch,
};
use rules_file::Rules;
use session_phase::{Boundary, Session};
use std::alloc::Global;
use std::marker::Model;

/// The trading of one issue: its book, and the quote that is shown. Contracts see its terms, its room and its state. While orders
/// trade and no quote is shown, the book has no market order and no limit buy at or above a limit sell; a quote is shown only while
/// orders trade, and is due later than now, if at all. No call but `make` takes memory.
#[derive(Drop)]
pub struct Floor {
    book: IssueBook,
}

impl Model for Floor {
    ghost use Rattle.issue_book.specs.IssueView.{IssueView};
    ghost use Rattle.issue_floor.specs.Floor.{IsFloor};

    ghost Value = { IssueView };

    ghost view = { λ f. f.book };

    ghost invariant = { λ f. IsFloor f.book };
}

impl Floor {
    /// The trading of the issue at this place of the rules before its first entry: idle at midnight, with the base price as the
    /// last one, and with room for `capacity` orders at a time. A fault where there is no memory for its grid, its rules or its orders.
    pub fn make(
        alloc: Global,
        rules: &Rules,
        issue: u16,
        capacity: u32,
    ) -> Result<Floor, IssueFault>
        requires rules { IsRules rules.now }
        requires issue { issue < length (issues_in rules.now) }
        ensures { IfOk result (λ made. (r : IssueRules) → slice_get (issues_in rules.now) issue ≡ Some r
            → made ≡ record { terms = terms_of rules.now r; capacity = capacity; state = start (terms_of rules.now r) }) }
    {
        let book = IssueBook::make(alloc, rules, issue, capacity)?;
        book.stands();
        Ok(Floor { book })
    }

    /// What holds of the trading of every issue.
    pub fn stands(&self)
        ensures { IsFloor self.now }
    {
        let _ = &self.book;
    }

    /// The phase of its day.
    pub fn phase(&self) -> Phase
        ensures { result ≡ self.now.state.phase }
    {
        self.book.phase()
    }

    /// The moment at which its clock stands.
    pub fn now(&self) -> Moment
        ensures { result ≡ self.now.state.now }
    {
        self.book.now()
    }

    /// The price of the last trade, and before the first the base price.
    pub fn last(&self) -> Price
        ensures { result.0 ≡ self.now.state.last }
    {
        self.book.last()
    }

    /// The quote that is shown, if one is.
    pub fn quote(&self) -> Option<Quote>
        ensures { result ≡ self.now.state.quote }
    {
        self.book.quote()
    }

    /// How many shares a trading unit has, 1 to 100,000,000.
    pub fn unit(&self) -> u32
        ensures { result ≡ self.now.terms.unit }
    {
        self.book.unit()
    }

    /// The sessions of the day.
    pub fn sessions(&self) -> &[Session]
        ensures { result.now ≡ self.now.terms.sessions }
    {
        self.book.sessions()
    }

    /// The best limit price of a side; market orders do not count.
    pub fn best_limit(&self, side: Side) -> Option<Price>
        ensures buy { side ≡ Side.Buy → result ≡ best_bid self.now.terms.grid self.now.state.orders }
        ensures sell { side ≡ Side.Sell → result ≡ best_ask self.now.terms.grid self.now.state.orders }
    {
        self.book.best_limit(side)
    }

    /// Where an order of this kind stands; none where its limit is not on the grid.
    pub fn spot_of(&self, kind: Kind) -> Option<Spot>
        ensures { result ≡ spot_of self.now.terms kind }
    {
        self.book.spot_of(kind)
    }

    /// The order of a caller with this own number, if it is in the book.
    pub fn named(&self, caller: Caller, own: u32) -> Option<Order>
        ensures { result ≡ named caller own self.now.state }
    {
        self.book.named(caller, own)
    }

    /// Lets an order enter. Where orders trade and no quote is shown, it trades at once with what it crosses, and what it has left
    /// joins the book; where it stops at a gap a special quote begins, and where it would go too far a sequential one. Else it joins
    /// the book, and nothing is told. Answers what it has left, in shares.
    pub fn enter<W: Watch>(&mut self, order: Order, watch: &mut W) -> u64
        requires { MayEnter self.old order }
        ensures state { self.new ≡ in_state (enter self.old.terms order self.old.state).state self.old }
        ensures filled { IsFilled order.caller order.own order.place order.left (enter self.old.terms order self.old.state) }
        ensures left { result ≡ left_of order.caller order.own (enter self.old.terms order self.old.state).state }
        ensures told { (from : W) (outputs : List Output) → W.took from outputs watch.old
            → W.took from (outputs ++ (enter self.old.terms order self.old.state).outputs) watch.new }
    {
        entering::enter(&mut self.book, order, watch)
    }

    /// Tries the quote once, if one is shown: what follows an event. Where its own side presses nothing happens and nothing is told.
    /// Where the attempt trades, or the book is calm, the quote ends; where the other side presses, a special quote of that side takes
    /// its place, and is not tried again.
    pub fn try_quote<W: Watch>(&mut self, watch: &mut W)
        ensures state { self.new ≡ in_state (try_quote self.old.terms self.old.state).state self.old }
        ensures filled { (caller : Caller) (own place : ℕ) → IsKey caller own place self.old.state.orders
            → IsFilled caller own place (left_of caller own self.old.state) (try_quote self.old.terms self.old.state) }
        ensures told { (from : W) (outputs : List Output) → W.took from outputs watch.old
            → W.took from (outputs ++ (try_quote self.old.terms self.old.state).outputs) watch.new }
    {
        quoting::try_quote(&mut self.book, watch);
    }

    /// Takes the order of a caller with this own number out. The quote is not tried.
    pub fn take_out(&mut self, caller: Caller, own: u32)
        requires { IsSome (named caller own self.old.state) }
        ensures { self.new ≡ in_state (take_out caller own self.old.state) self.old }
    {
        self.book.take_out(caller, own);
        self.book.stands();
    }

    /// Lowers what an order has left to `qty` shares, a multiple of the unit; it keeps its place. The quote is not tried.
    pub fn lower(&mut self, caller: Caller, own: u32, qty: u64)
        requires named { IsSome (named caller own self.old.state) }
        requires less { (o : Order) → named caller own self.old.state ≡ Some o → qty < o.left }
        requires some { 1 ≤ qty }
        requires units { qty % self.old.terms.unit ≡ 0 }
        ensures { self.new ≡ in_state (lower caller own qty self.old.state) self.old }
    {
        self.book.lower(caller, own, qty);
        self.book.stands();
    }

    /// Sets the clock to a moment, not before where it stands, up to which the quote is not due.
    pub fn set_clock(&mut self, at: Moment)
        requires later { self.old.state.now ≤ at }
        requires undue { IsUndue at self.old.state.quote }
        ensures { self.new ≡ in_state (record self.old.state { now = at }) self.old }
    {
        self.book.set_clock(at);
        self.book.stands();
    }

    /// Sets the clock to the moment of a boundary and takes it: collecting begins, or trading begins with an auction around the
    /// last price, or trading ends with an auction, after which no quote is shown and the phase is idle. `watch` is told the moment
    /// first. Trading begins and collecting begins only out of trading.
    pub fn at_boundary<W: Watch>(&mut self, at: Moment, boundary: Boundary, watch: &mut W)
        requires later { self.old.state.now ≤ at }
        requires closed { boundary ≢ Finish → is_trading self.old.state.phase ≡ false }
        ensures state { self.new ≡ in_state (step_at at (at_boundary self.old.terms boundary) self.old.state).state self.old }
        ensures told { (from : W) (outputs : List Output) → W.took from outputs watch.old
            → W.took from (outputs ++ (step_at at (at_boundary self.old.terms boundary) self.old.state).outputs) watch.new }
    {
        boundaries::at_boundary(&mut self.book, at, boundary, watch);
    }

    /// Sets the clock to the due moment of the shown quote and serves it: it is tried one renewal beyond its price, and moves there
    /// where its own side presses; else it ends, or one of the other side takes its place, as after an event. `watch` is told the
    /// moment first.
    pub fn serve<W: Watch>(&mut self, at: Moment, watch: &mut W)
        requires { (q : Quote) × (self.old.state.quote ≡ Some q) × (q.due ≡ Some at) }
        ensures state { (q : Quote) → self.old.state.quote ≡ Some q
            → self.new ≡ in_state (step_at at (serve self.old.terms q) self.old.state).state self.old }
        ensures told { (q : Quote) → self.old.state.quote ≡ Some q → (from : W) (outputs : List Output) → W.took from outputs watch.old
            → W.took from (outputs ++ (step_at at (serve self.old.terms q) self.old.state).outputs) watch.new }
    {
        let Some(quote) = self.book.quote() else {
            unreachable!()
        };
        quoting::serve(&mut self.book, at, &quote, watch);
    }

    /// Counts an entry, of at most 100,000,000, which leaves the memory nodes in these states.
    pub fn count_entry(&mut self, nodes: [NodeState; 3])
        requires { self.old.state.entries < 100000000 }
        ensures { self.new ≡ in_state (record self.old.state { nodes = nodes; entries = self.old.state.entries + 1 }) self.old }
    {
        self.book.count_entry(nodes);
        self.book.stands();
    }

    /// How many entries were counted.
    pub fn entries(&self) -> u64
        ensures { result ≡ self.now.state.entries }
    {
        self.book.entries()
    }

    /// The states of the memory nodes.
    pub fn nodes(&self) -> [NodeState; 3]
        ensures states { result ≡ self.now.state.nodes }
        ensures three { length self.now.state.nodes ≡ 3 }
    {
        self.book.nodes()
    }

    /// The state of a memory node.
    pub fn node(&self, node: NodeNo) -> NodeState
        ensures state { slice_get self.now.state.nodes node ≡ Some result }
        ensures three { length self.now.state.nodes ≡ 3 }
    {
        self.book.node(node)
    }
}
