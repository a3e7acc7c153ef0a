// Quotes, and what an issue shows of its state.
use crate::{Moment, Phase, Price, Side};

/// Why a quote is shown.
#[derive(Clone, Copy, Debug, PartialEq, Eq)]
pub enum QuoteKind {
    /// The next price would be too far from the last one.
    Special,
    /// One order would move the price too far.
    Sequential,
}

/// A quote: the side that presses, and the price up to which it may trade.
#[derive(Clone, Copy, Debug, PartialEq, Eq)]
pub struct Quote {
    pub kind: QuoteKind,
    pub side: Side,
    pub price: Price,
    /// When it is renewed; none at the daily limit, and where the day ends before.
    pub due: Option<Moment>,
}

/// What is shown of an issue after so many entries.
#[derive(Clone, Copy, Debug, PartialEq, Eq)]
pub struct Board {
    /// How many entries the journal has.
    pub length: u64,
    pub phase: Phase,
    /// The price of the last trade, and before the first the base price.
    pub last: Price,
    pub quote: Option<Quote>,
    /// The best limit price on each side; market orders do not count.
    pub bid: Option<Price>,
    pub ask: Option<Price>,
}
