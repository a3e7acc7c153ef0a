// The book over linked levels and running sums.
ghost use Rattle.std.specs.Prelude.{◌≡◌, ℕ, ◌==◌, ◌<◌, ◌≤◌, [], ◌∷◌, ◌++◌, List, IfOk, MatchOption, Some, filter, find, length, option_map, replicate, slice_get};
ghost use Rattle.std.specs.List.{after_first};
ghost use Rattle.mkt_base.specs.Book.{FitsSums, price_at, sums_at, total_left};
ghost use Rattle.mkt_base.specs.Priority.{is_on_level};
ghost use Rattle.mkt_base.specs.declared.units.Price.{Price};
ghost use Rattle.mkt_base.specs.declared.order.Order.{Order};
ghost use Rattle.mkt_base.specs.declared.order.Side.{Side};
ghost use Rattle.book_law.specs.BookView.{IsBookView, IsFresh, IsGridOf, IsInserted, IsLive, IsSpotBelow, Names, NamesFirst, is_of, orders, reduced, side_of, without};
ghost use Rattle.depth_index.specs.Depths.{TakesFewSteps};
ghost use Rattle.order_list.specs.Lists.{list_at};
ghost use Rattle.order_book.specs.Levels.{with_price};
ghost use Rattle.order_book.specs.Limits.{IsFirstLimitReached, IsNoLimitReached, is_limit_to};
ghost use Rattle.order_book.specs.Linked.{AreApart, IsFiled, owner_at, owner_key};
ghost use Rattle.order_book.specs.Plain.{FindsFirst, is_behind};
ghost use Rattle.order_book.specs.Reads.{TakesTwoReads};

use crate::depths::Depths;
use crate::held::{Filed, Held, bucket, level_of};
use crate::{Handle, Levels};
use depth_index::Steps;
use mkt_base::{Caller, Order, Side, Spot};
use order_list::{OrderList, Pool};
use std::alloc::Global;
use std::marker::{Brand, Model};
use std::sync::ledger::{Blank, Ledger};

/// Why there is no book.
#[derive(Clone, Copy, Debug, PartialEq, Eq)]
pub enum BookFault {
    /// There is no memory for it.
    Memory,
}

/// The orders of an issue. Contracts see them by place, each with the handle that names it, beside the number of prices
/// and the room that the book was made for. No call but `make` takes memory.
#[derive(Drop)]
pub struct Book {
    prices: u32,
    capacity: u32,
    buckets: u32,
    // One list, by place, which nobody walks; the others have the handles of its orders.
    held: Pool<Held>,
    levels: OrderList<Handle>,
    owners: OrderList<Handle>,
    depths: Depths,
}

impl Model for Book {
    ghost use Rattle.book_law.specs.BookView.{BookView};
    ghost use Rattle.order_book.specs.Fields.{AreFields, book_of};

    ghost Value = { BookView };

    ghost view = { λ b. book_of b.prices b.capacity b.held.lists };

    ghost invariant = { λ b. AreFields b.prices b.capacity b.buckets b.held b.levels b.owners b.depths };
}

#[tactic(auto, unfolding(crate::specs::Fields::AreFields, crate::specs::Fields::book_of))]
impl Book {
    /// A book without orders over a grid of `prices` prices, 1 to 20,000, with room for `capacity` orders at a time; `Memory`
    /// where there is no memory for them.
    pub fn make(alloc: Global, prices: u32, capacity: u32) -> Result<Book, BookFault>
        requires some { 1 ≤ prices }
        requires few { prices ≤ 20000 }
        ensures { IfOk result (λ book. book ≡ record { prices = prices; capacity = capacity; slots = [] }) }
    {
        // A fourth of the room: where all of it is taken a bucket has four orders, and most days leave most of it.
        let buckets = capacity / 4 + 1;
        Ok(Book {
            prices,
            capacity,
            buckets,
            held: held_with_room(alloc, capacity)?,
            levels: lists_with_room(alloc, 2 * prices + 2, capacity)?,
            owners: lists_with_room(alloc, buckets, capacity)?,
            depths: Depths::make(alloc, prices).map_err(|_| BookFault::Memory)?,
        })
    }

    /// What holds of every book, for those who hold one; and no sum over its orders is above 64 bits.
    pub fn stands(&self)
        ensures book { IsBookView self.now }
        ensures sums { FitsSums (orders self.now) }
    {
        let _ = &self.prices;
    }

    /// How many prices its grid has.
    pub fn prices(&self) -> u32
        ensures { result ≡ self.now.prices }
    {
        self.prices
    }

    /// Takes an order in, and gives the handle that names it. The order's place is later than all others, it has 1 to
    /// 100,000,000 shares left, and there is room. Every other handle names what it named.
    pub fn insert(&mut self, order: Order) -> Handle
        requires { IsFresh self.old order }
        ensures { IsInserted self.old order result self.new }
    {
        let owner = bucket(self.buckets, order.caller, order.own);
        let level = level_of(order.side, order.spot);
        // The other lists hold the handle, so that their links are written last.
        let link = self.held.push_back(Held {
            order,
            filed: Filed::default(),
        });
        let handle = Handle::new(link);
        let filed = Filed {
            level: self.levels.push_back(level, handle),
            owner: self.owners.push_back(owner, handle),
        };
        self.held.set(link, Held { order, filed });
        self.depths.add(order.side, order.spot, order.left);
        handle
    }

    /// The order that a handle names.
    pub fn order(&self, handle: Handle) -> Order
        requires { IsLive self.now handle }
        ensures { Names self.now handle result }
    {
        self.held.item(handle.link()).order
    }

    /// Takes `by` shares from what an order has left, fewer than it has. It keeps its place and its handle.
    pub fn reduce(&mut self, handle: Handle, by: u64)
        requires live { IsLive self.old handle }
        requires less { (o : Order) → Names self.old handle o → by < o.left }
        ensures { self.new ≡ reduced handle by self.old }
    {
        let mut held = self.held.item(handle.link());
        held.order.left -= by;
        let (side, spot) = (held.order.side, held.order.spot);
        self.held.set(handle.link(), held);
        self.depths.sub(side, spot, by);
    }

    /// Takes an order out, and gives it as it was. There is room for another, and every other order stays.
    pub fn remove(&mut self, handle: Handle) -> Order
        requires { IsLive self.old handle }
        ensures order { Names self.old handle result }
        ensures book { self.new ≡ without handle self.old }
    {
        let Held { order, filed } = self.held.unlink(handle.link());
        self.levels.unlink(filed.level);
        self.owners.unlink(filed.owner);
        self.depths.sub(order.side, order.spot, order.left);
        order
    }

    /// The handle of the order of this caller with this own number; none where there is no such order.
    pub fn find(&self, caller: Caller, own: u32) -> Option<Handle>
        ensures { result ≡ option_map (λ s. s.handle) (find (λ s. is_of caller own s.order) self.now.slots) }
    {
        let list = bucket(self.buckets, caller, own);
        own_in(&self.held, &self.owners, self.capacity, list, caller, own)
    }

    /// The first order of a side in priority; none where the side has none.
    pub fn best(&self, side: Side) -> Option<Handle>
        ensures { NamesFirst self.now (side_of self.now side) result }
    {
        match self.levels.front(level_of(side, Spot::Market)) {
            Some(link) => Some(self.levels.item(link)),
            None => self.behind(side, Spot::Market),
        }
    }

    /// The order after this one on its side in priority; none where it is the last.
    pub fn next(&self, handle: Handle) -> Option<Handle>
        requires { IsLive self.now handle }
        ensures after { (o : Order) → Names self.now handle o
            → NamesFirst self.now (after_first (λ x. x.place == o.place) (side_of self.now o.side)) result }
        ensures along { (side : Side) (o : Order) (before rest : List Order) → Names self.now handle o
            → side_of self.now side ≡ before ++ o ∷ rest → NamesFirst self.now rest result }
    {
        let Held { order, filed } = self.held.item(handle.link());
        match self.levels.next(filed.level) {
            Some(link) => Some(self.levels.item(link)),
            None => self.behind(order.side, order.spot),
        }
    }

    /// The shares that the orders of a side have left at a spot.
    pub fn level(&self, side: Side, spot: Spot) -> u64
        requires { IsSpotBelow self.now.prices spot }
        ensures { result ≡ total_left (is_on_level side spot) (orders self.now) }
    {
        self.depths.at(side, spot)
    }

    /// The four sums at a position, over every rising grid of the book's size.
    pub fn sums_at(&self, i: u32) -> Levels
        requires { i < self.now.prices }
        ensures { (grid : List Price) → IsGridOf self.now grid
            → with_price (price_at grid i) result ≡ sums_at grid (orders self.now) (price_at grid i) }
    {
        uncounted::<Brand>(self, i, Blank::new(1))
    }

    /// The same, by two sum reads.
    pub fn sums_counted<L: Ledger>(&self, i: u32, steps: &mut Steps<L>) -> Levels
        requires { i < self.now.prices }
        ensures exact { (grid : List Price) → IsGridOf self.now grid
            → with_price (price_at grid i) result ≡ sums_at grid (orders self.now) (price_at grid i) }
        ensures reads { TakesTwoReads self.now.prices steps.old steps.new }
    {
        let bought = self.depths.upto(Side::Buy, i, steps);
        let sold = self.depths.upto(Side::Sell, i, steps);
        let market_buys = self.depths.at(Side::Buy, Spot::Market);
        let market_sells = self.depths.at(Side::Sell, Spot::Market);
        let above = market_buys + (self.depths.limit_buys() - bought);
        let sells = market_sells + sold;
        Levels {
            buys: above + self.depths.at(Side::Buy, Spot::At(i)),
            above,
            sells,
            below: sells - self.depths.at(Side::Sell, Spot::At(i)),
        }
    }

    /// What the limit orders of a side have left at the positions 0 to `i`, by one sum read.
    pub fn limits_upto<L: Ledger>(&self, side: Side, i: u32, steps: &mut Steps<L>) -> u64
        requires { i < self.now.prices }
        ensures exact { result ≡ total_left (is_limit_to side i) (orders self.now) }
        ensures reads { TakesFewSteps self.now.prices steps.old steps.new }
    {
        self.depths.upto(side, i, steps)
    }

    /// The first position whose `limits_upto` is at least `least`, by one sum read; none exactly where there is none.
    pub fn limits_first<L: Ledger>(
        &self,
        side: Side,
        least: u64,
        steps: &mut Steps<L>,
    ) -> Option<u32>
        ensures exact { MatchOption result (IsNoLimitReached self.now side least) (IsFirstLimitReached self.now side least) }
        ensures reads { TakesFewSteps self.now.prices steps.old steps.new }
    {
        self.depths.first(side, least, steps)
    }

    // The first order of a side that stands behind a spot.
    fn behind(&self, side: Side, spot: Spot) -> Option<Handle>
        requires { IsSpotBelow self.now.prices spot }
        ensures { FindsFirst self.now side (is_behind self.now.prices side spot) result }
    {
        let prices = self.prices;
        match self
            .depths
            .behind::<Brand>(Blank::new(1), prices, side, spot)
        {
            Some(i) => match self.levels.front(level_of(side, Spot::At(i))) {
                Some(link) => Some(self.levels.item(link)),
                None => unreachable!(),
            },
            None => None,
        }
    }
}

// The sums at a position, for who counts nothing.
fn uncounted<L: Ledger>(book: &Book, i: u32, blank: Blank) -> Levels
    requires name { blank.name ≡ L.name }
    requires parts { blank.parts ≡ L.parts }
    requires some { 0 < blank.parts }
    requires within { i < book.now.prices }
    ensures { (grid : List Price) → IsGridOf book.now grid
        → with_price (price_at grid i) result ≡ sums_at grid (orders book.now) (price_at grid i) }
{
    let mut steps = Steps::<L>::new(blank);
    book.sums_counted(i, &mut steps)
}

// Whether the order is the caller's entry of this own number.
fn is_own(order: &Order, caller: Caller, own: u32) -> bool
    ensures { result ≡ is_of caller own order.now }
{
    caller == order.caller && own == order.own
}

// The handle of a caller's order, by a walk over the list of its bucket.
fn own_in(
    held: &Pool<Held>,
    owners: &OrderList<Handle>,
    most: u32,
    list: u32,
    caller: Caller,
    own: u32,
) -> Option<Handle>
    requires one { length held.now.lists ≡ 1 }
    requires apart { AreApart (λ n. n.link) (list_at held.now.lists 0) }
    requires within { list < length owners.now.lists }
    requires few { length (list_at held.now.lists 0) ≤ most }
    requires filed { (buckets : ℕ) × IsFiled (owner_key buckets) owner_at owners.now.lists (list_at held.now.lists 0) }
    ensures { (buckets : ℕ) → IsFiled (owner_key buckets) owner_at owners.now.lists (list_at held.now.lists 0)
        → result ≡ option_map (λ n. n.link) (find (λ n. is_of caller own n.item.order) (filter (λ n. owner_key buckets n.item.order == list) (list_at held.now.lists 0))) }
{
    let mut place = owners.front(list);
    for _step in 0..most {
        let Some(link) = place else {
            return None;
        };
        let handle = owners.item(link);
        let order = held.item(handle.link()).order;
        if is_own(&order, caller, own) {
            return Some(handle);
        }
        place = owners.next(link);
    }
    None
}

// No orders, with room for so many.
fn held_with_room(alloc: Global, room: u32) -> Result<Pool<Held>, BookFault>
    ensures empty { IfOk result (λ made. made.lists ≡ [] ∷ []) }
    ensures room { IfOk result (λ made. room ≤ made.spare) }
{
    let mut made = Pool::make(alloc);
    made.reserve(alloc, room).map_err(|_| BookFault::Memory)?;
    Ok(made)
}

// So many empty lists with room for so many items.
fn lists_with_room<T: Copy>(alloc: Global, lists: u32, room: u32) -> Result<OrderList<T>, BookFault>
    ensures empty { IfOk result (λ made. made.lists ≡ replicate lists []) }
    ensures room { IfOk result (λ made. room ≤ made.spare) }
{
    let mut made = OrderList::make(alloc, lists).map_err(|_| BookFault::Memory)?;
    made.reserve(alloc, room).map_err(|_| BookFault::Memory)?;
    Ok(made)
}
