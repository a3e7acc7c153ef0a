//! The order book of one issue: its orders, the best of each side, the sums at a price. Its contract is a list of the
//! orders by place; `specs/` of `book_law` has the words. `Book` keeps linked levels and running sums; `PlainBook` is the same by
//! one list of orders, as the definitions say it.
#![tactic(auto)]

mod book;
mod depths;
mod handle;
mod held;
mod levels;
mod place;
mod plain;
mod search;
mod taking;
mod total;

pub use book::{Book, BookFault};
pub use handle::Handle;
pub use levels::Levels;
pub use place::PlainHandle;
pub use plain::{PlainBook, PlainFault};
pub use taking::take;
