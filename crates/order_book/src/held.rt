// An order as a book holds it, and where it is filed.
ghost use Rattle.std.specs.Prelude.{◌≡◌, ◌<◌, ◌≤◌};
ghost use Rattle.order_book.specs.Linked.{bucket_of, level_no};

use crate::Handle;
use mkt_base::{Caller, Order, Side, Spot};
use order_list::{Link, Placed};

// The order's links in the list of its level and in that of its caller's bucket.
#[derive(Clone, Copy, Default)]
pub(crate) struct Filed {
    pub(crate) level: Link,
    pub(crate) owner: Link,
}

#[derive(Clone, Copy)]
pub(crate) struct Held {
    pub(crate) order: Order,
    pub(crate) filed: Filed,
}

impl Placed for Held {
    ghost place = { λ held. held.order.place };

    fn place(&self) -> u64 {
        self.order.place
    }
}

// The number of a level's list: those of the market first, then two for each position.
pub(crate) fn level_of(side: Side, spot: Spot) -> u32
    requires { level_no side spot < 4294967296 }
    ensures { result ≡ level_no side spot }
{
    match (side, spot) {
        (Side::Buy, Spot::Market) => 0,
        (Side::Sell, Spot::Market) => 1,
        (Side::Buy, Spot::At(i)) => 2 * i + 2,
        (Side::Sell, Spot::At(i)) => 2 * i + 3,
    }
}

// The number of the list of a caller's entry with this own number. A caller's entries in an issue are numbered in turn, so that the lists
// of one caller are taken in the order in which they stand in memory.
pub(crate) fn bucket(buckets: u32, caller: Caller, own: u32) -> u32
    requires { 0 < buckets }
    ensures exact { result ≡ bucket_of buckets caller own }
    ensures within { result < buckets }
{
    ((u64::from(own) + u64::from(caller.0) * 2_654_435_769) % u64::from(buckets)) as u32
}
