// Taking shares from an order.
ghost use Rattle.std.specs.Prelude.{◌≡◌, ℕ, ◌<◌, ◌≤◌, ◌==◌, false, length};
ghost use Rattle.mkt_base.specs.declared.order.Order.{Order};
ghost use Rattle.book_law.specs.BookView.{Names, less, orders, taken};

use crate::{Book, Handle};
use mkt_base::Order;

/// Takes `by` shares from an order that a handle names, at least one and no more than it has left; an order with nothing
/// left is taken out, and any other keeps its handle. Every other handle names what it named.
pub fn take(book: &mut Book, handle: Handle, order: &Order, by: u64)
    requires names { Names book.old handle order.now }
    requires some { 1 ≤ by }
    requires within { by ≤ order.now.left }
    ensures orders { orders book.new ≡ taken order.now.place by (orders book.old) }
    ensures prices { book.new.prices ≡ book.old.prices }
    ensures capacity { book.new.capacity ≡ book.old.capacity }
    ensures count { length book.new.slots ≤ length book.old.slots }
    ensures own { by < order.now.left → Names book.new handle (less by order.now) }
    ensures others { (k : ℕ) (x : Order) → (handle == k) ≡ false → Names book.old k x → Names book.new k x }
{
    book.stands();
    if by == order.left {
        book.remove(handle);
    } else {
        book.reduce(handle, by);
    }
}
