// Prices, quantities, moments, and the numbers of those who take part.
ghost use Rattle.std.specs.Prelude.{◌≡◌, ◌<◌, ◌↔◌, ℕ, IsSome, IfSome};
ghost use Rattle.mkt_base.specs.declared.units.TheConstants.{DAY_MS, NODES};

use std::marker::Model;

/// A price in tenths of a yen, 1 to 1,000,000,000 on a grid. An event may carry any number.
#[derive(Clone, Copy, Debug, PartialEq, Eq, PartialOrd, Ord)]
pub struct Price(pub u32);

/// A quantity in shares, 1 to 100,000,000 of an order that is accepted. An event may carry any number.
#[derive(Clone, Copy, Debug, PartialEq, Eq)]
pub struct Qty(pub u32);

/// The number of a trading participant, from 0 in file order.
#[derive(Clone, Copy, Debug, PartialEq, Eq)]
pub struct Participant(pub u16);

/// Who enters an event: a gateway from 1 on, and 0 for the system.
#[derive(Clone, Copy, Debug, PartialEq, Eq)]
pub struct Caller(pub u16);

/// The milliseconds of a day.
pub const DAY_MS: u32 = 86_400_000;

/// A moment of the day, in milliseconds since midnight, 0 to 86,399,999.
#[derive(Clone, Copy, Debug, PartialEq, Eq, PartialOrd, Ord)]
pub struct Moment {
    ms: u32,
}

impl Model for Moment {
    ghost Value = { ℕ };

    ghost view = { λ m. m.ms };

    ghost invariant = { λ m. m.ms < DAY_MS };

    ghost inverse = { λ n. record { ms = n } };
}

impl Moment {
    /// The moment that many milliseconds after midnight; none where the day has ended by then.
    pub fn new(ms: u32) -> Option<Moment>
        ensures within_the_day { IsSome result ↔ (ms < DAY_MS) }
        ensures value { IfSome result (λ moment. moment ≡ ms) }
    {
        if ms < DAY_MS {
            Some(Moment { ms })
        } else {
            None
        }
    }

    /// The milliseconds since midnight.
    pub fn ms(&self) -> u32
        ensures value { result ≡ self.now }
        ensures within_the_day { result < DAY_MS }
    {
        self.ms
    }
}

/// How many memory nodes mirror an issue's journal.
pub const NODES: u8 = 3;

/// The number of a memory node, 0 to 2.
#[derive(Clone, Copy, Debug, PartialEq, Eq)]
pub struct NodeNo {
    n: u8,
}

impl Model for NodeNo {
    ghost Value = { ℕ };

    ghost view = { λ node. node.n };

    ghost invariant = { λ node. node.n < NODES };

    ghost inverse = { λ n. record { n = n } };
}

impl NodeNo {
    /// The node of this number; none where there is no such node.
    pub fn new(n: u8) -> Option<NodeNo>
        ensures a_node { IsSome result ↔ (n < NODES) }
        ensures value { IfSome result (λ node. node ≡ n) }
    {
        if n < NODES { Some(NodeNo { n }) } else { None }
    }

    /// The number.
    pub fn n(&self) -> u8
        ensures value { result ≡ self.now }
        ensures a_node { result < NODES }
    {
        self.n
    }
}
