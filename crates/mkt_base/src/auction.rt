// What an auction answers, and what is traded.
use crate::{Price, Side};

/// The four sums of a book at a grid price, in shares.
#[derive(Clone, Copy, Debug, PartialEq, Eq)]
pub struct Sums {
    pub price: Price,
    /// Market buys, and limit buys at or above the price.
    pub buys: u64,
    /// Market buys, and limit buys above the price.
    pub above: u64,
    /// Market sells, and limit sells at or below the price.
    pub sells: u64,
    /// Market sells, and limit sells below the price.
    pub below: u64,
}

/// The answer of an attempt, with the numbers that show it.
#[derive(Clone, Copy, Debug, PartialEq, Eq)]
pub enum Outcome {
    /// The auction trades this volume at the price of the sums.
    Traded {
        volume: u64,
        sums: Sums,
    },
    /// Nobody presses: the best limit prices, where there are any.
    Calm {
        bid: Option<Price>,
        ask: Option<Price>,
    },
    /// A side has more at the window's end on its side than the other side offers there.
    Pressed {
        side: Side,
        price: Price,
        pressing: u64,
        facing: u64,
    },
}

/// A trade of two orders, which are named by their places.
#[derive(Clone, Copy, Debug, PartialEq, Eq)]
pub struct Trade {
    pub price: Price,
    /// The shares, at least 1.
    pub qty: u64,
    /// The place of the order that buys.
    pub buy: u64,
    /// The place of the order that sells.
    pub sell: u64,
}
