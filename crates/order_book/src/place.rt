// Handles of orders.
ghost use Rattle.std.specs.Prelude.{◌≡◌, option_map};

use mkt_base::Order;
use std::marker::Model;

/// Names an order of one book from the call that put it in until it is taken out. Contracts see a number. The book may
/// give the same handle out again after that.
#[derive(Clone, Copy, Debug, PartialEq, Eq)]
pub struct PlainHandle {
    key: u64,
}

impl Model for PlainHandle {
    ghost use Rattle.std.specs.Prelude.{ℕ};

    ghost Value = { ℕ };

    ghost view = { λ h. h.key };

    ghost inverse = { λ n. record { key = n } };
}

impl PlainHandle {
    // The handle of the order at a place.
    pub(crate) fn at(place: u64) -> PlainHandle
        ensures { result ≡ place }
    {
        PlainHandle { key: place }
    }

    // The handle of an order that was found.
    pub(crate) fn of(found: Option<Order>) -> Option<PlainHandle>
        ensures { result ≡ option_map (λ o. o.place) found }
    {
        match found {
            Some(order) => Some(PlainHandle::at(order.place)),
            None => None,
        }
    }

    // The place of the order that it names.
    pub(crate) fn place(self) -> u64
        ensures { result ≡ self }
    {
        self.key
    }
}
