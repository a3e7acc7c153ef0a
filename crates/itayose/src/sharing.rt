// The orders that share in an allotment, one after another by place.
ghost use Rattle.std.specs.Prelude.{◌≡◌, ℕ, ◌<◌, true, false, List, ◌∷◌, ◌++◌, None, Some, IfSome, IsSome, All, filter, nat_lt};
ghost use Rattle.mkt_base.specs.Book.{total_left};
ghost use Rattle.mkt_base.specs.Priority.{is_on_level, is_same_spot};
ghost use Rattle.mkt_base.specs.declared.order.Spot.TheVariants.{Market};
ghost use Rattle.mkt_base.specs.declared.order.Order.{Order};
ghost use Rattle.mkt_base.specs.declared.order.Side.{Side};
ghost use Rattle.book_law.specs.BookView.{IsLive, Names, NamesFirst, orders, side_of};
ghost use Rattle.book_law.specs.Sides.{total};
ghost use Rattle.itayose.specs.Sharing.{AreLeft, is_ahead, passed, sharing_of, with_left};

use mkt_base::{Order, Side, Spot};
use order_book::{Book, Handle};

// Which orders share: those of a side at a position, and its market orders too where `markets` is set. `ahead` is what the
// orders of the side at better spots have left, and `left` what those that share have.
#[derive(Clone, Copy)]
pub(crate) struct Group {
    pub(crate) side: Side,
    pub(crate) at: u32,
    pub(crate) markets: bool,
    pub(crate) ahead: u64,
    pub(crate) left: u64,
}

// The first of them on each of their two levels, and what all of them have left.
#[derive(Clone, Copy)]
pub(crate) struct Sharers {
    pub(crate) market: Option<Handle>,
    pub(crate) limit: Option<Handle>,
    pub(crate) left: u64,
}

// All that share.
pub(crate) fn all_sharers(book: &Book, group: &Group) -> Sharers
    requires position { group.now.at < book.now.prices }
    requires ahead { group.now.ahead ≡ total_left (is_ahead group.now.side group.now.at) (orders book.now) }
    requires left { group.now.left ≡ total (sharing_of book.now group.now.side group.now.at group.now.markets) }
    ensures { AreLeft book.now group.now.side group.now.at (sharing_of book.now group.now.side group.now.at group.now.markets) result }
{
    book.stands();
    let behind = behind_shares(book, group.side, group.ahead);
    Sharers {
        market: first_market(book, group),
        limit: at_spot(book, behind, Spot::At(group.at)),
        left: group.left,
    }
}

// The first of the market orders that share.
fn first_market(book: &Book, group: &Group) -> Option<Handle>
    ensures { NamesFirst book.now (filter (is_on_level group.now.side Market) (sharing_of book.now group.now.side group.now.at group.now.markets)) result }
{
    if group.markets {
        at_spot(book, book.best(group.side), Spot::Market)
    } else {
        None
    }
}

// The first order of a side behind those at its front that have so many shares.
fn behind_shares(book: &Book, side: Side, shares: u64) -> Option<Handle>
    ensures { NamesFirst book.now (passed shares (side_of book.now side)) result }
{
    book.stands();
    let mut left = shares;
    let mut handle = book.best(side)?;
    while left > 0 {
        left = left.saturating_sub(book.order(handle).left);
        handle = book.next(handle)?;
    }
    Some(handle)
}

// The order that was found, if it stands at this spot.
fn at_spot(book: &Book, found: Option<Handle>, spot: Spot) -> Option<Handle>
    requires { IfSome found (IsLive book.now) }
    ensures { (level others : List Order) → NamesFirst book.now (level ++ others) found
        → All (λ o. is_same_spot spot o.spot ≡ true) level → All (λ o. is_same_spot spot o.spot ≡ false) others
        → NamesFirst book.now level result }
{
    let handle = found?;
    if is_at(&book.order(handle), spot) {
        Some(handle)
    } else {
        None
    }
}

// Whether an order stands at a spot.
fn is_at(order: &Order, spot: Spot) -> bool
    ensures { result ≡ is_same_spot spot order.now.spot }
{
    spot == order.spot
}

impl Sharers {
    // Takes the first by place of those that are left.
    pub(crate) fn next(&mut self, book: &Book) -> (Handle, Order)
        requires { (side : Side) × (at : ℕ) × (rest : List Order) × AreLeft book.now side at rest self.old × (0 < self.old.left) }
        ensures names { Names book.now result.0 result.1 }
        ensures left { (side : Side) (at : ℕ) (rest : List Order) → AreLeft book.now side at rest self.old
            → (others : List Order) × (rest ≡ result.1 ∷ others) × AreLeft book.now side at others self.new }
    {
        let next = self.pass_next(book);
        self.left -= next.1.left;
        next
    }

    // Goes past the first by place of those that are left, which still count.
    fn pass_next(&mut self, book: &Book) -> (Handle, Order)
        requires { (side : Side) × (at : ℕ) × (rest : List Order) × AreLeft book.now side at rest self.old × (0 < self.old.left) }
        ensures names { Names book.now result.0 result.1 }
        ensures passed { (side : Side) (at : ℕ) (rest : List Order) → AreLeft book.now side at rest self.old
            → (others : List Order) × (rest ≡ result.1 ∷ others) × AreLeft book.now side at others (with_left (total others) self.new) }
        ensures left { self.new.left ≡ self.old.left }
    {
        if self.is_market_next(book) {
            pass(book, &mut self.market)
        } else {
            pass(book, &mut self.limit)
        }
    }

    // Whether the first of the market orders comes before the first at the limit.
    fn is_market_next(&self, book: &Book) -> bool
        requires market { IfSome self.now.market (IsLive book.now) }
        requires limit { IfSome self.now.limit (IsLive book.now) }
        ensures both { (m l : ℕ) (x y : Order) → self.now.market ≡ Some m → self.now.limit ≡ Some l → Names book.now m x → Names book.now l y
            → result ≡ nat_lt x.place y.place }
        ensures none { self.now.market ≡ None → result ≡ false }
        ensures alone { (m : ℕ) → self.now.market ≡ Some m → self.now.limit ≡ None → result ≡ true }
    {
        let Some(market) = self.market else {
            return false;
        };
        let Some(limit) = self.limit else {
            return true;
        };
        book.order(market).place < book.order(limit).place
    }
}

// Takes the first order of a level, and goes to the one after it on the level.
fn pass(book: &Book, level: &mut Option<Handle>) -> (Handle, Order)
    requires some { IsSome level.old }
    requires live { IfSome level.old (IsLive book.now) }
    ensures was { level.old ≡ Some result.0 }
    ensures names { Names book.now result.0 result.1 }
    ensures behind { (side : Side) (before rest others : List Order) → side_of book.now side ≡ before ++ result.1 ∷ (rest ++ others)
        → All (λ o. is_same_spot result.1.spot o.spot ≡ true) rest → All (λ o. is_same_spot result.1.spot o.spot ≡ false) others
        → NamesFirst book.now rest level.new }
{
    let Some(handle) = *level else { unreachable!() };
    let order = book.order(handle);
    *level = at_spot(book, book.next(handle), order.spot);
    (handle, order)
}
