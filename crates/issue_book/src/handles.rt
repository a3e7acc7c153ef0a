// The handle of a caller's order.
ghost use Rattle.std.specs.Prelude.{◌≡◌, IfNone, IfSome, None, find};
ghost use Rattle.book_law.specs.BookView.{is_of, orders};
ghost use Rattle.issue_book.specs.Handles.{IsHandleOf};

use mkt_base::Caller;
use order_book::{Book, Handle};

// The handle of the order of a caller with this own number, if it is in the book.
pub(crate) fn handle_of(book: &Book, caller: Caller, own: u32) -> Option<Handle>
    ensures none { IfNone result (find (is_of caller own) (orders book.now) ≡ None) }
    ensures some { IfSome result (IsHandleOf book.now caller own) }
{
    book.stands();
    book.find(caller, own)
}
