// Both bodies of the book over the same calls: each answer of the linked one is that of the plain one.
ghost use Rattle.std.specs.Prelude.{◌≡◌, ◌+◌, ◌<◌, ◌≤◌, IfSome};
ghost use Rattle.book_law.specs.BookView.{IsLive, IsSpotBelow};
ghost use Rattle.book_tests.specs.Open.{IsGrowing};

use depth_index::Steps;
use mkt_base::{Caller, Order, Participant, Side, Spot};
use order_book::{Book, Handle, PlainBook, PlainHandle};
use std::marker::Brand;
use std::sync::ledger::{Blank, Ledger};
use std::test::Fail;

fn next_random(random: u64) -> u64 {
    random
        .wrapping_mul(6_364_136_223_846_793_005)
        .wrapping_add(1_442_695_040_888_963_407)
}

fn side_from(random: u64) -> Side {
    if random % 2 == 0 {
        Side::Buy
    } else {
        Side::Sell
    }
}

fn spot_from(random: u64) -> Spot
    ensures { IsSpotBelow 40 result }
{
    if random % 8 == 0 {
        Spot::Market
    } else {
        Spot::At((random % 40) as u32)
    }
}

fn order_from(number: u32, random: u64) -> Order
    ensures place { result.place ≡ number }
    ensures own { result.own ≡ number }
    ensures some { 1 ≤ result.left }
    ensures limit { result.left ≤ 9 }
    ensures spot { IsSpotBelow 40 result.spot }
{
    Order {
        place: u64::from(number),
        caller: Caller(1),
        own: number,
        participant: Participant(0),
        side: side_from(random >> 20),
        spot: spot_from(random >> 30),
        left: random % 9 + 1,
    }
}

fn named(book: &Book, number: u32) -> Option<Handle>
    ensures { IfSome result (λ handle. IsLive book.now handle) }
{
    book.find(Caller(1), number)
}

fn named_plain(book: &PlainBook, number: u32) -> Option<PlainHandle>
    ensures { IfSome result (λ handle. IsLive book.now handle) }
{
    book.find(Caller(1), number)
}

fn put(book: &mut Book, next: u32, order: Order)
    requires growing { IsGrowing next book.old }
    requires few { next < 600 }
    requires place { order.place ≡ next }
    requires own { order.own ≡ next }
    requires some { 1 ≤ order.left }
    requires limit { order.left ≤ 9 }
    requires spot { IsSpotBelow 40 order.spot }
    ensures { IsGrowing (next + 1) book.new }
{
    book.insert(order);
}

fn put_plain(book: &mut PlainBook, next: u32, order: Order)
    requires growing { IsGrowing next book.old }
    requires few { next < 600 }
    requires place { order.place ≡ next }
    requires own { order.own ≡ next }
    requires some { 1 ≤ order.left }
    requires limit { order.left ≤ 9 }
    requires spot { IsSpotBelow 40 order.spot }
    ensures { IsGrowing (next + 1) book.new }
{
    book.insert(order);
}

fn lessen(book: &mut Book, next: u32, number: u32, by: u64)
    requires { IsGrowing next book.old }
    ensures { IsGrowing next book.new }
{
    if let Some(handle) = named(book, number) {
        if by < book.order(handle).left {
            book.reduce(handle, by);
        }
    }
}

fn lessen_plain(book: &mut PlainBook, next: u32, number: u32, by: u64)
    requires { IsGrowing next book.old }
    ensures { IsGrowing next book.new }
{
    if let Some(handle) = named_plain(book, number) {
        if by < book.order(handle).left {
            book.reduce(handle, by);
        }
    }
}

fn take_out(book: &mut Book, next: u32, number: u32)
    requires { IsGrowing next book.old }
    ensures { IsGrowing next book.new }
{
    if let Some(handle) = named(book, number) {
        book.remove(handle);
    }
}

fn take_out_plain(book: &mut PlainBook, next: u32, number: u32)
    requires { IsGrowing next book.old }
    ensures { IsGrowing next book.new }
{
    if let Some(handle) = named_plain(book, number) {
        book.remove(handle);
    }
}

// An order more, one with less left and one less, in both books.
fn step(linked: &mut Book, plain: &mut PlainBook, next: u32, random: u64)
    requires linked { IsGrowing next linked.old }
    requires plain { IsGrowing next plain.old }
    requires few { next < 600 }
    ensures linked { IsGrowing (next + 1) linked.new }
    ensures plain { IsGrowing (next + 1) plain.new }
{
    let order = order_from(next, random);
    put(linked, next, order);
    put_plain(plain, next, order);
    let next = next + 1;
    let less = ((random >> 11) % u64::from(next)) as u32;
    lessen(linked, next, less, random % 4);
    lessen_plain(plain, next, less, random % 4);
    let gone = ((random >> 17) % u64::from(next)) as u32;
    take_out(linked, next, gone);
    take_out_plain(plain, next, gone);
}

fn after(book: &Book, handle: Handle) -> Option<Handle>
    requires { IsLive book.now handle }
    ensures { IfSome result (λ next. IsLive book.now next) }
{
    let _named = book.order(handle);
    book.next(handle)
}

fn after_plain(book: &PlainBook, handle: PlainHandle) -> Option<PlainHandle>
    requires { IsLive book.now handle }
    ensures { IfSome result (λ next. IsLive book.now next) }
{
    let _named = book.order(handle);
    book.next(handle)
}

// Whether the orders of a side are the same, in the same priority.
fn walks_are_alike(linked: &Book, plain: &PlainBook, side: Side) -> bool {
    let mut one = linked.best(side);
    let mut other = plain.best(side);
    for _step in 0..600 {
        let Some(first) = one else {
            return other.is_none();
        };
        let Some(second) = other else {
            return false;
        };
        if linked.order(first) != plain.order(second) {
            return false;
        }
        one = after(linked, first);
        other = after_plain(plain, second);
    }
    false
}

// Whether the counted reads say what the sums say.
fn counts_are_alike<L: Ledger>(book: &Book, i: u32, blank: Blank) -> bool
    requires name { blank.name ≡ L.name }
    requires parts { blank.parts ≡ L.parts }
    requires some { 0 < blank.parts }
    requires within { i < book.now.prices }
{
    let mut steps = Steps::<L>::new(blank);
    let sums = book.sums_counted(i, &mut steps);
    let sold = book.limits_upto(Side::Sell, i, &mut steps);
    let first = book.limits_first(Side::Sell, sold, &mut steps);
    sums == book.sums_at(i)
        && book.level(Side::Sell, Spot::Market) == sums.sells.wrapping_sub(sold)
        && first.unwrap_or(i) <= i
}

fn answers_are_alike(linked: &Book, plain: &PlainBook, random: u64) -> bool
    requires linked { linked.now.prices ≡ 40 }
    requires plain { plain.now.prices ≡ 40 }
{
    let i = ((random >> 25) % 40) as u32;
    let side = side_from(random >> 33);
    let spot = spot_from(random >> 40);
    linked.level(side, spot) == plain.level(side, spot)
        && linked.sums_at(i) == plain.sums_at(i)
        && counts_are_alike::<Brand>(linked, i, Blank::new(1))
        && walks_are_alike(linked, plain, side)
}

#[test]
fn both_bodies_answer_alike(rt: HostRuntime) -> Result<(), Fail> {
    let mut linked = Book::make(rt.alloc(), 40, 600)?;
    let mut plain = PlainBook::make(rt.alloc(), 40, 600)?;
    let mut random = 7;
    for number in 0..600u32 {
        random = next_random(random);
        step(&mut linked, &mut plain, number, random);
        let told = answers_are_alike(&linked, &plain, random);
        let at = number;
        assert!(rt; told, "at {at}");
    }
    Ok(())
}
