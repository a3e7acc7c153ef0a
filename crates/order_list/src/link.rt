// Links, and what stands on one side of a node.
ghost use Rattle.std.specs.Prelude.{◌≡◌, ◌<◌};
ghost use Rattle.order_list.specs.Key.{link_of};
ghost use Rattle.order_list.specs.declared.link.Beside.TheVariants.{Neighbour, End};

use std::marker::Model;

// So many nodes at most, and so many lists: then a node's key or a list's number, and which of the two it is, take four bytes.
pub(crate) const MOST: u32 = 2_147_483_648;

/// Names an item of one `OrderList` until it is unlinked; the list may give the same link out again after that. The default
/// one holds the place of a link that is not known yet. Contracts see a number.
#[derive(Clone, Copy, Debug, Default, PartialEq, Eq)]
pub struct Link {
    key: u32,
}

impl Model for Link {
    ghost use Rattle.std.specs.Prelude.{ℕ, ◌<◌};

    ghost Value = { ℕ };

    ghost view = { λ l. l.key };

    ghost invariant = { λ l. l.key < 2147483648 };

    ghost inverse = { λ n. record { key = n } };
}

impl Link {
    pub(crate) fn new(key: usize) -> Link
        requires { key < 2147483648 }
        ensures { result ≡ key }
    {
        Link { key: key as u32 }
    }

    pub(crate) fn key(self) -> usize
        ensures value { result ≡ self }
        ensures some { result < 2147483648 }
    {
        self.key as usize
    }
}

// What stands on one side of a node: another node, or the end of the list of this number.
#[derive(Clone, Copy)]
pub(crate) enum Beside {
    Neighbour(Link),
    End(u32),
}

// The same in four bytes, where the enum takes eight: the links come first, and then the numbers of the lists.
#[derive(Clone, Copy)]
pub(crate) struct Side {
    bits: u32,
}

impl Model for Side {
    ghost use Rattle.order_list.specs.declared.link.Beside.{Beside};

    ghost Value = { Beside };

    ghost use Rattle.order_list.specs.Key.{beside_of, bits_of};

    ghost view = { λ s. beside_of s.bits };

    ghost inverse = { λ b. record { bits = bits_of b } };
}

impl Side {
    pub(crate) fn of(link: Link) -> Side
        ensures { result ≡ Neighbour link }
    {
        Side { bits: link.key }
    }

    pub(crate) fn end(list: u32) -> Side
        requires { list < 2147483648 }
        ensures { result ≡ End list }
    {
        Side { bits: MOST + list }
    }

    pub(crate) fn beside(self) -> Beside
        ensures { result ≡ self }
    {
        if self.bits < MOST {
            Beside::Neighbour(Link { key: self.bits })
        } else {
            Beside::End(self.bits - MOST)
        }
    }

    // The link of the neighbour; none at the end of a list.
    pub(crate) fn link(self) -> Option<Link>
        ensures { result ≡ link_of self }
    {
        match self.beside() {
            Beside::Neighbour(link) => Some(link),
            Beside::End(_list) => None,
        }
    }
}
