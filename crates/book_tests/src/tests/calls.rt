// Calls on a book in turn, and what it answers.
ghost use Rattle.std.specs.Prelude.{◌≡◌, ℕ, ◌+◌, ◌<◌, ◌≤◌, IfSome, [], length};
ghost use Rattle.book_law.specs.BookView.{IsLive, IsSpotBelow};
ghost use Rattle.book_tests.specs.Open.{IsOpen};

use mkt_base::{Caller, Order, Participant, Side, Spot};
use order_book::{Book, Handle, take};
use std::test::Fail;

// One call a line, on a book of 8 prices: orders are named by their numbers, quantities are below 10, b and s are the sides,
// m is the market. `+1b32`: order 1 buys 2 at position 3. `-11`: order 1 has 1 fewer. `x5`: order 5 is taken out. `t82`: 2 are
// taken from order 8. What the book answers: `P` the orders of a side in priority, `L` a level's quantity, `S` the sums at a
// position (buys, above, sells, below), `O` what an order has left, 0 where there is no such order.
const CALLS: &str = "
Pb
Ps
Lb30
S30000
O10
+1b32
+2s51
+3b31
+4bm1
+5b52
+6s31
+7sm2
+8s52
Pb4513
Ps7628
Lb33
Lb52
Lbm1
Lb00
Ls31
Ls53
Lsm2
S06622
S36332
S43333
S53163
S71166
O12
O82
O90
-11
Pb4513
O11
Lb32
S35332
x5
Pb413
O50
Lb50
S33132
x4
Pb13
Lbm0
S32032
t31
Pb1
O30
x1
Pb
t81
Ps7628
O81
Ls52
x7
Ps628
x6
Ps28
t21
Ps8
x8
Ps
S70000
+9s24
Ps9
S20040
S30044
";

// The number of a digit; 0 for any other byte.
fn digit(byte: u8) -> u8
    ensures { result ≤ 9 }
{
    if byte.is_ascii_digit() {
        byte - b'0'
    } else {
        0
    }
}

fn side_of(byte: u8) -> Side {
    if byte == b'b' { Side::Buy } else { Side::Sell }
}

fn spot_of(byte: u8) -> Spot
    ensures { IsSpotBelow 8 result }
{
    if byte == b'm' {
        Spot::Market
    } else {
        Spot::At(u32::from(digit(byte).min(7)))
    }
}

fn order_of(number: u8, side: Side, spot: Spot, left: u8) -> Order
    ensures place { result.place ≡ number }
    ensures number { result.own ≡ number }
    ensures left { result.left ≡ left }
    ensures spot { result.spot ≡ spot }
{
    Order {
        place: u64::from(number),
        caller: Caller(1),
        own: u32::from(number),
        participant: Participant(0),
        side,
        spot,
        left: u64::from(left),
    }
}

// The handle of the order of this number.
fn named(book: &Book, number: u8) -> Option<Handle>
    ensures { IfSome result (λ handle. IsLive book.now handle) }
{
    book.find(Caller(1), u32::from(number))
}

// An order more, if its number is later than all so far; gives the number that the next one has at least.
fn put(book: &mut Book, next: u8, number: u8, side: Side, spot: Spot, left: u8) -> u8
    requires open { IsOpen next book.old }
    requires spot { IsSpotBelow 8 spot }
    ensures { IsOpen result book.new }
{
    if number < next || number > 9 || left == 0 {
        return next;
    }
    book.insert(order_of(number, side, spot, left));
    number + 1
}

fn lessen(book: &mut Book, next: u8, number: u8, by: u8) -> u8
    requires { IsOpen next book.old }
    ensures { IsOpen result book.new }
{
    let by = u64::from(by);
    if let Some(handle) = named(book, number) {
        if by < book.order(handle).left {
            book.reduce(handle, by);
        }
    }
    next
}

fn take_out(book: &mut Book, next: u8, number: u8) -> u8
    requires { IsOpen next book.old }
    ensures { IsOpen result book.new }
{
    if let Some(handle) = named(book, number) {
        book.remove(handle);
    }
    next
}

fn take_from(book: &mut Book, next: u8, number: u8, by: u8) -> u8
    requires { IsOpen next book.old }
    ensures { IsOpen result book.new }
{
    let by = u64::from(by);
    if let Some(handle) = named(book, number) {
        let order = book.order(handle);
        if 1 <= by && by <= order.left {
            take(book, handle, &order, by);
        }
    }
    next
}

// What the order of this number has left; 0 where there is none.
fn left_of(book: &Book, number: u8) -> u64 {
    match named(book, number) {
        Some(handle) => book.order(handle).left,
        None => 0,
    }
}

// Whether the orders of a side have these numbers, in priority.
fn stand_as(book: &Book, side: Side, numbers: &[u8]) -> bool {
    let mut place = book.best(side);
    for number in numbers {
        let Some(handle) = place else {
            return false;
        };
        if book.order(handle).own != u32::from(digit(*number)) {
            return false;
        }
        place = book.next(handle);
    }
    place.is_none()
}

// Does the call of a line; gives the number that the next order has at least.
fn done(book: &mut Book, next: u8, line: &[u8]) -> u8
    requires { IsOpen next book.old }
    ensures { IsOpen result book.new }
{
    match line {
        [b'+', number, side, spot, left] => {
            let (side, spot) = (side_of(*side), spot_of(*spot));
            put(book, next, digit(*number), side, spot, digit(*left))
        }
        [b'-', number, by] => lessen(book, next, digit(*number), digit(*by)),
        [b'x', number] => take_out(book, next, digit(*number)),
        [b't', number, by] => take_from(book, next, digit(*number), digit(*by)),
        _ => next,
    }
}

// Whether the book answers as the line says.
fn answers(book: &Book, line: &[u8]) -> bool
    requires { book.now.prices ≡ 8 }
{
    match line {
        [b'P', side, numbers @ ..] => stand_as(book, side_of(*side), numbers),
        [b'L', side, spot, left] => {
            book.level(side_of(*side), spot_of(*spot)) == u64::from(digit(*left))
        }
        [b'S', at, buys, above, sells, below] => {
            let sums = book.sums_at(u32::from(digit(*at).min(7)));
            sums.buys == u64::from(digit(*buys))
                && sums.above == u64::from(digit(*above))
                && sums.sells == u64::from(digit(*sells))
                && sums.below == u64::from(digit(*below))
        }
        [b'O', number, left] => left_of(book, digit(*number)) == u64::from(digit(*left)),
        _ => true,
    }
}

#[test]
fn a_table_of_calls(rt: HostRuntime) -> Result<(), Fail> {
    let mut book = Book::make(rt.alloc(), 8, 10)?;
    let mut next = 0;
    for line in CALLS.lines() {
        next = done(&mut book, next, line.as_bytes());
        let told = answers(&book, line.as_bytes());
        assert!(rt; told, "at {line}");
    }
    assert_eq!(rt; next, 10);
    Ok(())
}

// A book with room for one order, filled and emptied again and again.
#[test]
fn room_comes_back(rt: HostRuntime) -> Result<(), Fail> {
    let mut book = Book::make(rt.alloc(), 1, 1)?;
    for number in 0..20u8 {
        let handle = book.insert(order_of(number, Side::Sell, Spot::At(0), 7));
        assert_eq!(rt; book.best(Side::Sell), Some(handle));
        assert_eq!(rt; book.remove(handle).own, u32::from(number));
        assert_eq!(rt; book.best(Side::Sell), None);
    }
    assert_eq!(rt; book.prices(), 1);
    Ok(())
}
