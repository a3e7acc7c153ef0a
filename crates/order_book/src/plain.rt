// The book over one list of its orders by place.
ghost use Rattle.std.specs.Prelude.{◌≡◌, ℕ, ◌==◌, ◌<◌, ◌≤◌, [], ◌∷◌, ◌++◌, List, IfOk, Some, find, length, option_map, slice_get};
ghost use Rattle.std.specs.List.{HoldsAt, after_first};
ghost use Rattle.mkt_base.specs.Book.{FitsSums, price_at, sums_at, total_left};
ghost use Rattle.mkt_base.specs.Priority.{is_on_level};
ghost use Rattle.mkt_base.specs.declared.units.Price.{Price};
ghost use Rattle.mkt_base.specs.declared.order.Order.{Order};
ghost use Rattle.mkt_base.specs.declared.order.Side.{Side};
ghost use Rattle.book_law.specs.BookView.{IsBookView, IsFresh, IsGridOf, IsInserted, IsLive, IsSpotBelow, Names, NamesFirst, is_of, orders, reduced, side_of, without};
ghost use Rattle.order_book.specs.Levels.{with_price};

use crate::search::{first_of, index_of, with_own};
use crate::total::{Part, levels, total};
use crate::{Levels, PlainHandle};
use mkt_base::{Caller, Order, Side, Spot};
use std::alloc::Global;
use std::marker::Model;

/// Why there is no book.
#[derive(Clone, Copy, Debug, PartialEq, Eq)]
pub enum PlainFault {
    /// There is no memory for it.
    Memory,
}

/// The orders of an issue. Contracts see them by place, each with the handle that names it, beside the number of prices
/// and the room that the book was made for. No call but `make` takes memory.
#[derive(Drop)]
pub struct PlainBook {
    prices: u32,
    capacity: u32,
    orders: Vec<Order>,
}

impl Model for PlainBook {
    ghost use Rattle.book_law.specs.BookView.{BookView};
    ghost use Rattle.std.specs.Prelude.{vec_capacity};
    ghost use Rattle.order_book.specs.Plain.{IsPlain, plain};

    ghost Value = { BookView };

    ghost view = { λ b. plain b.prices b.capacity b.orders.items };

    ghost invariant = { λ b. IsPlain b.prices b.capacity (vec_capacity b.orders) b.orders.items };
}

impl PlainBook {
    /// A book without orders over a grid of `prices` prices, 1 to 20,000, with room for `capacity` orders at a time; `Memory`
    /// where there is no memory for them.
    pub fn make(alloc: Global, prices: u32, capacity: u32) -> Result<PlainBook, PlainFault>
        requires some { 1 ≤ prices }
        requires few { prices ≤ 20000 }
        ensures { IfOk result (λ book. book ≡ record { prices = prices; capacity = capacity; slots = [] }) }
    {
        let orders = Vec::with_capacity(alloc, capacity as usize).map_err(|_| PlainFault::Memory)?;
        Ok(PlainBook {
            prices,
            capacity,
            orders,
        })
    }

    /// What holds of every book, for those who hold one; and no sum over its orders is above 64 bits.
    pub fn stands(&self)
        ensures book { IsBookView self.now }
        ensures sums { FitsSums (orders self.now) }
    {
        let _ = &self.prices;
    }

    /// How many prices its grid has.
    pub fn prices(&self) -> u32
        ensures { result ≡ self.now.prices }
    {
        self.prices
    }

    /// Takes an order in, and gives the handle that names it. The order's place is later than all others, it has 1 to
    /// 100,000,000 shares left, and there is room. Every other handle names what it named.
    pub fn insert(&mut self, order: Order) -> PlainHandle
        requires { IsFresh self.old order }
        ensures { IsInserted self.old order result self.new }
    {
        if self.orders.push(order).is_err() {
            unreachable!();
        }
        PlainHandle::at(order.place)
    }

    /// The order that a handle names.
    pub fn order(&self, handle: PlainHandle) -> Order
        requires { IsLive self.now handle }
        ensures { Names self.now handle result }
    {
        self.orders[self.index(handle)]
    }

    /// Takes `by` shares from what an order has left, fewer than it has. It keeps its place and its handle.
    pub fn reduce(&mut self, handle: PlainHandle, by: u64)
        requires live { IsLive self.old handle }
        requires less { (o : Order) → Names self.old handle o → by < o.left }
        ensures { self.new ≡ reduced handle by self.old }
    {
        let at = self.index(handle);
        self.orders[at].left -= by;
    }

    /// Takes an order out, and gives it as it was. There is room for another, and every other order stays.
    pub fn remove(&mut self, handle: PlainHandle) -> Order
        requires { IsLive self.old handle }
        ensures order { Names self.old handle result }
        ensures book { self.new ≡ without handle self.old }
    {
        let at = self.index(handle);
        self.orders.remove(at)
    }

    /// The handle of the order of this caller with this own number; none where there is no such order.
    pub fn find(&self, caller: Caller, own: u32) -> Option<PlainHandle>
        ensures { result ≡ option_map (λ s. s.handle) (find (λ s. is_of caller own s.order) self.now.slots) }
    {
        PlainHandle::of(with_own(&self.orders, caller, own))
    }

    /// The first order of a side in priority; none where the side has none.
    pub fn best(&self, side: Side) -> Option<PlainHandle>
        ensures { NamesFirst self.now (side_of self.now side) result }
    {
        PlainHandle::of(first_of(&self.orders, self.prices, side, None))
    }

    /// The order after this one on its side in priority; none where it is the last.
    pub fn next(&self, handle: PlainHandle) -> Option<PlainHandle>
        requires { IsLive self.now handle }
        ensures after { (o : Order) → Names self.now handle o
            → NamesFirst self.now (after_first (λ x. x.place == o.place) (side_of self.now o.side)) result }
        ensures along { (side : Side) (o : Order) (before rest : List Order) → Names self.now handle o
            → side_of self.now side ≡ before ++ o ∷ rest → NamesFirst self.now rest result }
    {
        let order = self.order(handle);
        PlainHandle::of(first_of(&self.orders, self.prices, order.side, Some(order)))
    }

    /// The shares that the orders of a side have left at a spot.
    pub fn level(&self, side: Side, spot: Spot) -> u64
        requires { IsSpotBelow self.now.prices spot }
        ensures { result ≡ total_left (is_on_level side spot) (orders self.now) }
    {
        total(&self.orders, Part::Level(side, spot))
    }

    /// The four sums at a position, over every rising grid of the book's size.
    pub fn sums_at(&self, i: u32) -> Levels
        requires { i < self.now.prices }
        ensures { (grid : List Price) → IsGridOf self.now grid
            → with_price (price_at grid i) result ≡ sums_at grid (orders self.now) (price_at grid i) }
    {
        levels(&self.orders, i)
    }

    // The index of the order that a handle names.
    fn index(&self, handle: PlainHandle) -> usize
        requires { IsLive self.now handle }
        ensures within { result < length self.now.slots }
        ensures there { HoldsAt (λ s. s.handle ≡ handle) self.now.slots result }
    {
        index_of(&self.orders, handle.place())
    }
}
