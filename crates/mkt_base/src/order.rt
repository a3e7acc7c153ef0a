// Orders, and where they stand.
use crate::{Caller, Participant, Price};

/// Whether an order buys or sells.
#[derive(Clone, Copy, Debug, PartialEq, Eq)]
pub enum Side {
    Buy,
    Sell,
}

/// An order's kind, as it is entered: a market order, or a limit order with its limit price.
#[derive(Clone, Copy, Debug, PartialEq, Eq)]
pub enum Kind {
    Market,
    Limit(Price),
}

/// Where an order stands: as a market order, or with its limit at a position of the grid, from 0.
#[derive(Clone, Copy, Debug, PartialEq, Eq)]
pub enum Spot {
    Market,
    At(u32),
}

/// An order of a book.
#[derive(Clone, Copy, Debug, PartialEq, Eq)]
pub struct Order {
    /// The place of its entry, which ranks it in time.
    pub place: u64,
    pub caller: Caller,
    /// The caller's own number of the entry, from 0.
    pub own: u32,
    pub participant: Participant,
    pub side: Side,
    pub spot: Spot,
    /// The shares that it has left, at least 1 in a book.
    pub left: u64,
}
