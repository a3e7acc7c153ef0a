// The book of one issue.
ghost use Rattle.std.specs.Prelude.{◌≡◌, ℕ, ◌+◌, ◌*◌, ◌%◌, ◌<◌, ◌≤◌, ◌++◌, ◌∷◌, [], true, false, List, IfOk, IfSome, IsSome, IsTrue, Some, length, slice_get};
ghost use Rattle.mkt_base.specs.declared.order.Order.{Order};
ghost use Rattle.mkt_base.specs.declared.output.Output.{Output};
ghost use Rattle.mkt_base.specs.declared.quote.Quote.{Quote};
ghost use Rattle.mkt_base.specs.declared.units.Caller.{Caller};
ghost use Rattle.mkt_base.specs.Book.{price_at};
ghost use Rattle.auction_law.specs.Attempt.{best_ask, best_bid, is_calm, meets};
ghost use Rattle.auction_law.specs.Nearness.{distance};
ghost use Rattle.itayose.specs.Fills.{is_longer, limit_position};
ghost use Rattle.itayose.specs.declared.margin.Margin.{Margin};
ghost use Rattle.quote_law.specs.Quotes.{IsOn, IsToward, sequential_quote};
ghost use Rattle.rules_file.specs.Rules.{IsRules, issues_in};
ghost use Rattle.rules_file.specs.declared.issue.IssueRules.{IssueRules};
ghost use Rattle.tick_grid.specs.Rows.{band_of};
ghost use Rattle.zaraba.specs.declared.stop.Stop.TheVariants.{Done, Sequence};
ghost use Rattle.issue_book.specs.Entering.{arrival_at, arrived, join, lower, named, spot_of, take_out};
ghost use Rattle.issue_book.specs.Filled.{IsFilled, IsKey, left_of};
ghost use Rattle.issue_book.specs.Fills.{fills_at, shared_out};
ghost use Rattle.issue_book.specs.Holding.{IsAnswer, IsOver, IsWindow, is_pressed, tried_at};
ghost use Rattle.issue_book.specs.IssueView.{IsIssue, IsPriceOf, MayEnter, in_state, terms_of};
ghost use Rattle.issue_book.specs.Quoting.{answer_at, due_by, hold_at, moved, new_special, show_quote, tried_by};
ghost use Rattle.issue_book.specs.Sessions.{around_last, close_at, close_fills, enter_phase};
ghost use Rattle.issue_book.specs.State.{start};

use crate::Window;
use crate::attempts::uncounted;
use crate::closing::{close_margin, end_of, is_allotted, limit_position};
use crate::copies::{copied, midnight};
use crate::handles::handle_of;
use crate::limits::first_limit;
use crate::prices::position_of;
use allotment::Round;
use itayose::{
    Attempt, Margin, calm_afterwards, certificate, close_trades_fairly, none_trades_more, settle,
    share_out, trades_are_whole,
};
use mkt_base::{
    Caller, Kind, Moment, NodeNo, NodeState, Order, Outcome, Phase, Price, Quote, Rows, Side, Spot,
    Watch,
};
use order_book::Book;
use quote_law::{due_window, position, window};
use rules_file::Rules;
use session_phase::Session;
use std::alloc::Global;
use std::marker::{Brand, Model};
use std::sync::ledger::Blank;
use tick_grid::{BandRow, Grid, down, up};
use zaraba::{Arrived, incoming, last_is_near, none_fills_more, sequence_is_beyond, trades_stand};

/// Why there is no book of an issue.
#[derive(Clone, Copy, Debug, PartialEq, Eq)]
pub enum IssueFault {
    /// There is no memory for its grid, its rules or its orders.
    Memory,
}

/// The book of an issue with its phase, clock, last price and quote. Contracts see its terms, its room and its state. No call but
/// `make` takes memory.
#[derive(Drop)]
pub struct IssueBook {
    book: Book,
    grid: Grid,
    base: Price,
    unit: u32,
    ranges: Rows<BandRow>,
    sessions: Rows<Session>,
    rounds: Rows<Round>,
    special_ms: u32,
    sequential_ms: u32,
    phase: Phase,
    clock: Moment,
    // the position of the last price
    last: u32,
    quote: Option<Quote>,
    nodes: [NodeState; 3],
    entries: u64,
}

impl Model for IssueBook {
    ghost use Rattle.issue_book.specs.IssueView.{IssueView};

    ghost Value = { IssueView };

    ghost use Rattle.issue_book.specs.Fields.{AreFields, view_of};

    ghost view = { view_of };

    ghost invariant = { AreFields };
}

impl IssueBook {
    /// The book of an issue before its first entry, with room for `capacity` orders at a time.
    pub fn make(
        alloc: Global,
        rules: &Rules,
        issue: u16,
        capacity: u32,
    ) -> Result<IssueBook, IssueFault>
        requires rules { IsRules rules.now }
        requires issue { issue < length (issues_in rules.now) }
        ensures { IfOk result (λ made. (r : IssueRules) → slice_get (issues_in rules.now) issue ≡ Some r
            → made ≡ record { terms = terms_of rules.now r; capacity = capacity; state = start (terms_of rules.now r) }) }
    {
        let row = rules.issue(issue);
        // rules are accepted with a grid of 1 to 20,000 prices, so only memory can be lacking
        let grid = Grid::build(alloc, rules.ticks.as_slice(), row.low, row.high).map_err(
            |_| IssueFault::Memory,
        )?;
        let last = position_of(&grid, row.base);
        let book = Book::make(alloc, grid.size(), capacity).map_err(|_| IssueFault::Memory)?;
        let ranges = copied(alloc, rules.ranges.as_slice())?;
        let sessions = copied(alloc, rules.sessions.as_slice())?;
        let rounds = copied(alloc, rules.rounds.as_slice())?;
        Ok(IssueBook {
            book,
            grid,
            base: row.base,
            unit: row.unit,
            ranges,
            sessions,
            rounds,
            special_ms: rules.special_ms,
            sequential_ms: rules.sequential_ms,
            phase: Phase::Idle,
            clock: midnight(),
            last,
            quote: None,
            nodes: [NodeState::Synchronised; 3],
            entries: 0,
        })
    }

    /// What holds of every issue's book.
    pub fn stands(&self)
        ensures { IsIssue self.now }
    {
        self.book.stands();
        self.grid.stands();
        let _ = self.clock.ms();
    }

    pub fn phase(&self) -> Phase
        ensures { result ≡ self.now.state.phase }
    {
        self.phase
    }

    pub fn now(&self) -> Moment
        ensures { result ≡ self.now.state.now }
    {
        self.clock
    }

    pub fn last(&self) -> Price
        ensures { result.0 ≡ self.now.state.last }
    {
        self.grid.price(self.last)
    }

    pub fn quote(&self) -> Option<Quote>
        ensures { result ≡ self.now.state.quote }
    {
        self.quote
    }

    /// How many shares a trading unit has.
    pub fn unit(&self) -> u32
        ensures { result ≡ self.now.terms.unit }
    {
        self.unit
    }

    /// The sessions of the day.
    pub fn sessions(&self) -> &[Session]
        ensures { result.now ≡ self.now.terms.sessions }
    {
        self.sessions.as_slice()
    }

    /// The best limit price of a side; market orders do not count.
    pub fn best_limit(&self, side: Side) -> Option<Price>
        ensures buy { side ≡ Side.Buy → result ≡ best_bid self.now.terms.grid self.now.state.orders }
        ensures sell { side ≡ Side.Sell → result ≡ best_ask self.now.terms.grid self.now.state.orders }
    {
        self.book.stands();
        self.grid.stands();
        match first_limit(&self.book, side) {
            Some(at) => Some(self.grid.price(at)),
            None => None,
        }
    }

    /// Where an order of this kind stands; none where its limit is not on the grid.
    pub fn spot_of(&self, kind: Kind) -> Option<Spot>
        ensures { result ≡ spot_of self.now.terms kind }
    {
        match kind {
            Kind::Market => Some(Spot::Market),
            Kind::Limit(price) => match self.grid.index(price) {
                Some(at) => Some(Spot::At(at)),
                None => None,
            },
        }
    }

    /// Enters a phase.
    pub fn enter_phase<W: Watch>(&mut self, phase: Phase, watch: &mut W)
        ensures state { self.new ≡ in_state (enter_phase phase self.old.state).state self.old }
        ensures told { (from : W) (outputs : List Output) → W.took from outputs watch.old
            → W.took from (outputs ++ (enter_phase phase self.old.state).outputs) watch.new }
    {
        self.phase = phase;
        watch.phase(phase);
    }

    /// Sets the clock.
    pub fn set_clock(&mut self, at: Moment)
        ensures { self.new ≡ in_state (record self.old.state { now = at }) self.old }
    {
        self.clock = at;
    }

    /// Shows a quote, or none.
    pub fn show_quote<W: Watch>(&mut self, quote: Option<Quote>, watch: &mut W)
        ensures state { self.new ≡ in_state (show_quote quote self.old.state).state self.old }
        ensures told { (from : W) (outputs : List Output) → W.took from outputs watch.old
            → W.took from (outputs ++ (show_quote quote self.old.state).outputs) watch.new }
    {
        let shown = quote;
        self.quote = shown;
        watch.quote(quote);
    }

    /// Counts an entry, which leaves the nodes in these states.
    pub fn count_entry(&mut self, nodes: [NodeState; 3])
        requires { self.old.state.entries < 100000000 }
        ensures { self.new ≡ in_state (record self.old.state { nodes = nodes; entries = self.old.state.entries + 1 }) self.old }
    {
        self.nodes = nodes;
        self.entries += 1;
    }

    /// How many entries were counted.
    pub fn entries(&self) -> u64
        ensures { result ≡ self.now.state.entries }
    {
        self.entries
    }

    /// The states of the nodes.
    pub fn nodes(&self) -> [NodeState; 3]
        ensures states { result ≡ self.now.state.nodes }
        ensures three { length self.now.state.nodes ≡ 3 }
    {
        self.nodes
    }

    /// The state of a node, of which there are three.
    pub fn node(&self, node: NodeNo) -> NodeState
        ensures state { slice_get self.now.state.nodes node ≡ Some result }
        ensures three { length self.now.state.nodes ≡ 3 }
    {
        self.nodes[usize::from(node.n())]
    }

    /// The order of a caller with this own number, if it is in the book.
    pub fn named(&self, caller: Caller, own: u32) -> Option<Order>
        ensures { result ≡ named caller own self.now.state }
    {
        match handle_of(&self.book, caller, own) {
            Some(handle) => Some(self.book.order(handle)),
            None => None,
        }
    }

    /// Takes the order of a caller with this own number out.
    pub fn take_out(&mut self, caller: Caller, own: u32)
        requires { IsSome (named caller own self.old.state) }
        ensures state { self.new ≡ in_state (take_out caller own self.old.state) self.old }
        ensures calm { IsTrue (is_calm self.old.terms.grid self.old.state.orders) → IsTrue (is_calm self.old.terms.grid self.new.state.orders) }
    {
        let Some(handle) = handle_of(&self.book, caller, own) else {
            unreachable!()
        };
        let _ = self.book.remove(handle);
    }

    /// Lowers what an order has left to `qty` shares, a multiple of the unit; it keeps its place.
    pub fn lower(&mut self, caller: Caller, own: u32, qty: u64)
        requires named { IsSome (named caller own self.old.state) }
        requires less { (o : Order) → named caller own self.old.state ≡ Some o → qty < o.left }
        requires some { 1 ≤ qty }
        requires units { qty % self.old.terms.unit ≡ 0 }
        ensures state { self.new ≡ in_state (lower caller own qty self.old.state) self.old }
        ensures calm { IsTrue (is_calm self.old.terms.grid self.old.state.orders) → IsTrue (is_calm self.old.terms.grid self.new.state.orders) }
    {
        let Some(handle) = handle_of(&self.book, caller, own) else {
            unreachable!()
        };
        let left = self.book.order(handle).left;
        self.book.reduce(handle, left - qty);
    }

    /// Lets an order join the book.
    pub fn join(&mut self, order: Order)
        requires { MayEnter self.old order }
        ensures state { self.new ≡ in_state (join order self.old.state).state self.old }
        ensures filled { IsFilled order.caller order.own order.place order.left (join order self.old.state) }
    {
        self.book.stands();
        let _ = self.book.insert(order);
    }

    /// A special quote of a side that begins now.
    pub fn new_special(&self, side: Side) -> Quote
        ensures exact { result ≡ new_special self.now.terms side self.now.state }
        ensures on_grid { IsOn self.now.terms.grid result }
        ensures toward { IsToward side self.now.state.last result.price.0 }
        ensures due { IfSome result.due (λ d. (self.now.state.now < d) × (d < 86400000)) }
    {
        special_quote::begin(
            &self.grid,
            self.ranges.as_slice(),
            side,
            self.last,
            self.clock,
            self.special_ms,
        )
    }

    /// The special quote one renewal on from a quote.
    pub fn moved(&self, quote: &Quote) -> Quote
        requires { IsOn self.now.terms.grid quote.now }
        ensures exact { result ≡ moved self.now.terms quote.now self.now.state }
        ensures on_grid { IsOn self.now.terms.grid result }
        ensures toward { IsToward quote.now.side quote.now.price.0 result.price.0 }
        ensures due { IfSome result.due (λ d. (self.now.state.now < d) × (d < 86400000)) }
    {
        special_quote::renewed(
            &self.grid,
            self.ranges.as_slice(),
            quote,
            self.clock,
            self.special_ms,
        )
    }

    /// A sequential quote of a side that begins now, for an order at whose arrival the last price was `first`, a price of the grid.
    pub fn new_sequential(&self, side: Side, first: Price) -> Quote
        requires { IsPriceOf self.now.terms.grid first.0 }
        ensures exact { result ≡ sequential_quote self.now.terms.grid self.now.terms.ranges side first.0 self.now.state.now self.now.terms.sequential_ms }
        ensures on_grid { IsOn self.now.terms.grid result }
        ensures toward { distance first.0 self.now.state.last ≤ 2 * band_of self.now.terms.ranges first.0 → IsToward side self.now.state.last result.price.0 }
        ensures due { IfSome result.due (λ d. (self.now.state.now < d) × (d < 86400000)) }
    {
        let from = position_of(&self.grid, first);
        sequential_quote::begin(
            &self.grid,
            self.ranges.as_slice(),
            side,
            from,
            self.clock,
            self.sequential_ms,
        )
    }

    /// The window of an opening: one renewal down and up from the last price.
    pub fn around_last(&self) -> Window
        ensures { IsOver self.now.terms.grid (around_last self.now.terms self.now.state) result }
    {
        let ranges = self.ranges.as_slice();
        Window {
            reference: self.last,
            lo: down(&self.grid, ranges, self.last),
            hi: up(&self.grid, ranges, self.last),
        }
    }

    /// The window at which a shown quote is tried after an event.
    pub fn tried_by(&self, quote: &Quote) -> Window
        requires on_grid { IsOn self.now.terms.grid quote.now }
        requires toward { IsToward quote.now.side self.now.state.last quote.now.price.0 }
        ensures { IsOver self.now.terms.grid (tried_by self.now.terms quote.now self.now.state) result }
    {
        let (lo, hi) = window(&self.grid, self.ranges.as_slice(), quote, self.last);
        Window {
            reference: position(&self.grid, quote),
            lo,
            hi,
        }
    }

    /// The window of a shown quote's due moment, and of a close.
    pub fn due_by(&self, quote: &Quote) -> Window
        requires on_grid { IsOn self.now.terms.grid quote.now }
        requires toward { IsToward quote.now.side self.now.state.last quote.now.price.0 }
        ensures { IsOver self.now.terms.grid (due_by self.now.terms quote.now self.now.state) result }
    {
        let (lo, hi) = due_window(&self.grid, self.ranges.as_slice(), quote, self.last);
        Window {
            reference: position(&self.grid, quote),
            lo,
            hi,
        }
    }

    /// What an attempt over a window answers.
    pub fn attempt(&self, window: &Window) -> Attempt
        requires { IsWindow self.now.terms.grid window.now }
        ensures { IsAnswer self.now window.now result }
    {
        uncounted::<Brand>(&self.book, &self.grid, window, Blank::new(1))
    }

    /// Lets an order trade at once with what it crosses, as far as prices reach, and answers why it stopped and what it has left.
    pub fn arrive<W: Watch>(&mut self, order: Order, watch: &mut W) -> Arrived
        requires enters { MayEnter self.old order }
        requires calm { IsTrue (is_calm self.old.terms.grid self.old.state.orders) }
        ensures stop { result.stop ≡ (arrival_at self.old.terms order self.old.state).stop }
        ensures left { result.left ≡ left_of order.caller order.own (arrived order self.old.state (arrival_at self.old.terms order self.old.state)).state }
        ensures state { self.new ≡ in_state (arrived order self.old.state (arrival_at self.old.terms order self.old.state)).state self.old }
        ensures calm { result.stop ≡ Done → IsTrue (is_calm self.old.terms.grid self.new.state.orders) }
        ensures near { distance self.old.state.last self.new.state.last ≤ 2 * band_of self.old.terms.ranges self.old.state.last }
        ensures side { (side : Side) → result.stop ≡ Sequence side → side ≡ order.side }
        ensures filled { IsFilled order.caller order.own order.place order.left (arrived order self.old.state (arrival_at self.old.terms order self.old.state)) }
        ensures told { (from : W) (outputs : List Output) → W.took from outputs watch.old
            → W.took from (outputs ++ (arrived order self.old.state (arrival_at self.old.terms order self.old.state)).outputs) watch.new }
    {
        self.book.stands();
        self.grid.stands();
        none_fills_more();
        trades_stand();
        last_is_near();
        sequence_is_beyond();
        let arrived = incoming(
            &mut self.book,
            &self.grid,
            self.ranges.as_slice(),
            order,
            self.last,
            watch,
        );
        self.last = arrived.last;
        arrived
    }

    /// Tells the auction of an answer and does its fills, by time.
    pub fn hold<W: Watch>(&mut self, window: &Window, answer: Attempt, watch: &mut W) -> Outcome
        requires window { IsWindow self.old.terms.grid window.now }
        requires answer { IsAnswer self.old window.now answer }
        ensures outcome { result ≡ answer_at self.old.terms (tried_at self.old.terms.grid window.now) self.old.state }
        ensures state { self.new ≡ in_state (hold_at self.old.terms (tried_at self.old.terms.grid window.now) self.old.state).state self.old }
        ensures calm { is_pressed result ≡ false → IsTrue (is_calm self.old.terms.grid self.new.state.orders) }
        ensures filled { (caller : Caller) (own place : ℕ) → IsKey caller own place self.old.state.orders
            → IsFilled caller own place (left_of caller own self.old.state) (hold_at self.old.terms (tried_at self.old.terms.grid window.now) self.old.state) }
        ensures told { (from : W) (outputs : List Output) → W.took from outputs watch.old
            → W.took from (outputs ++ (hold_at self.old.terms (tried_at self.old.terms.grid window.now) self.old.state).outputs) watch.new }
    {
        let outcome = certificate(
            &self.book,
            &self.grid,
            window.reference,
            window.lo,
            window.hi,
            answer,
            watch,
        );
        let Attempt::Traded { at, .. } = answer else {
            return outcome;
        };
        self.fill(at, Margin::Time, watch);
        outcome
    }

    /// Tells the auction of an answer and does its fills as a close: by rounds at a daily limit with more on the side that it bounds, and allotted
    /// where that side presses there.
    pub fn close<W: Watch>(&mut self, window: &Window, answer: Attempt, watch: &mut W)
        requires window { IsWindow self.old.terms.grid window.now }
        requires answer { IsAnswer self.old window.now answer }
        ensures state { self.new ≡ in_state (close_at self.old.terms (tried_at self.old.terms.grid window.now) self.old.state).state self.old }
        ensures told { (from : W) (outputs : List Output) → W.took from outputs watch.old
            → W.took from (outputs ++ (close_at self.old.terms (tried_at self.old.terms.grid window.now) self.old.state).outputs) watch.new }
    {
        let _ = certificate(
            &self.book,
            &self.grid,
            window.reference,
            window.lo,
            window.hi,
            answer,
            watch,
        );
        self.fill_close(window, answer, watch);
    }

    // Does the fills of a close with this answer, and tells a watch of them.
    fn fill_close<W: Watch>(&mut self, window: &Window, answer: Attempt, watch: &mut W)
        requires window { IsWindow self.old.terms.grid window.now }
        requires answer { IsAnswer self.old window.now answer }
        ensures state { self.new
            ≡ in_state (close_fills self.old.terms (answer_at self.old.terms (tried_at self.old.terms.grid window.now) self.old.state) self.old.state).state self.old }
        ensures told { (from : W) (outputs : List Output) → W.took from outputs watch.old
            → W.took from (outputs ++ (close_fills self.old.terms (answer_at self.old.terms (tried_at self.old.terms.grid window.now) self.old.state) self.old.state).outputs) watch.new }
    {
        self.book.stands();
        self.grid.stands();
        if let Attempt::Traded { at, .. } = answer {
            let margin = close_margin(&self.book, &self.grid, at);
            self.fill(at, margin, watch);
            return;
        }
        let Attempt::Pressed(side) = answer else {
            return;
        };
        if !is_allotted(&self.book, &self.grid, side, end_of(window, side)) {
            return;
        }
        self.share_out(side, watch);
    }

    // Allots a close at a side's daily limit, and tells a watch of it.
    fn share_out<W: Watch>(&mut self, side: Side, watch: &mut W)
        requires { IsTrue (is_longer self.old.terms.grid self.old.state.orders (price_at self.old.terms.grid (limit_position self.old.terms.grid side)) side) }
        ensures state { self.new ≡ in_state (shared_out self.old.terms side self.old.state).state self.old }
        ensures told { (from : W) (outputs : List Output) → W.took from outputs watch.old
            → W.took from (outputs ++ (shared_out self.old.terms side self.old.state).outputs) watch.new }
    {
        self.book.stands();
        self.grid.stands();
        close_trades_fairly();
        share_out(
            &mut self.book,
            &self.grid,
            side,
            self.rounds.as_slice(),
            self.unit,
            watch,
        );
        let last = limit_position(&self.grid, side);
        self.last = last;
    }

    // Does the fills of an auction that trades at a position, and tells a watch of them.
    fn fill<W: Watch>(&mut self, at: u32, margin: Margin, watch: &mut W)
        requires within { at < length self.old.terms.grid }
        requires meets { IsTrue (meets self.old.terms.grid self.old.state.orders (price_at self.old.terms.grid at)) }
        ensures state { self.new ≡ in_state (fills_at self.old.terms margin (price_at self.old.terms.grid at) self.old.state).state self.old }
        ensures calm { margin ≡ Margin.Time → IsTrue (is_calm self.old.terms.grid self.new.state.orders) }
        ensures filled { (caller : Caller) (own place : ℕ) → margin ≡ Margin.Time → IsKey caller own place self.old.state.orders
            → IsFilled caller own place (left_of caller own self.old.state) (fills_at self.old.terms margin (price_at self.old.terms.grid at) self.old.state) }
        ensures told { (from : W) (outputs : List Output) → W.took from outputs watch.old
            → W.took from (outputs ++ (fills_at self.old.terms margin (price_at self.old.terms.grid at) self.old.state).outputs) watch.new }
    {
        self.book.stands();
        self.grid.stands();
        none_trades_more();
        calm_afterwards();
        trades_are_whole();
        settle(
            &mut self.book,
            &self.grid,
            at,
            margin,
            self.rounds.as_slice(),
            self.unit,
            watch,
        );
        self.last = at;
    }
}
