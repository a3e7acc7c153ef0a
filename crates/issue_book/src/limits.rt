// The best limit of a side.
ghost use Rattle.std.specs.Prelude.{◌≡◌};
ghost use Rattle.book_law.specs.BookView.{side_of};
ghost use Rattle.issue_book.specs.Limits.{first_limit};

use mkt_base::{Side, Spot};
use order_book::Book;

// The position of the first limit order of a side in its priority; market orders, which stand before all limits, are passed over.
pub(crate) fn first_limit(book: &Book, side: Side) -> Option<u32>
    ensures { result ≡ first_limit (side_of book.now side) }
{
    book.stands();
    let mut next = book.best(side);
    while let Some(handle) = next {
        if let Spot::At(i) = book.order(handle).spot {
            return Some(i);
        }
        next = book.next(handle);
    }
    None
}
