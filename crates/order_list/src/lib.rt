//! Doubly linked lists of items over one slab, as the orders of a book's levels, and a pool of items that nobody walks, which
//! contracts see by place. An item is named by a link, which stays as it is until the item is unlinked. `specs/` has the
//! definitions over plain lists that contracts cite.
#![tactic(auto)]

mod kept;
mod link;
mod lists;
mod node;
mod pool;

pub use kept::Placed;
pub use link::Link;
pub use lists::{ListFault, OrderList};
pub use pool::Pool;
