// Handles of orders.
ghost use Rattle.std.specs.Prelude.{◌≡◌};

use order_list::Link;
use std::marker::Model;

/// Names an order of one book from the call that put it in until it is taken out. Contracts see a number. The book may
/// give the same handle out again after that.
#[derive(Clone, Copy, Debug, PartialEq, Eq)]
pub struct Handle {
    link: Link,
}

impl Model for Handle {
    ghost use Rattle.std.specs.Prelude.{ℕ};

    ghost Value = { ℕ };

    ghost view = { λ h. h.link };

    ghost inverse = { λ n. record { link = n } };
}

impl Handle {
    pub(crate) fn new(link: Link) -> Handle
        ensures { result ≡ link }
    {
        Handle { link }
    }

    // The link of the order by place.
    pub(crate) fn link(self) -> Link
        ensures { result ≡ self }
    {
        self.link
    }
}
