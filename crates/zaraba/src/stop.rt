// Why an arriving order stopped.
use mkt_base::Side;

/// Why an arriving order stopped trading.
#[derive(Clone, Copy, Debug, PartialEq, Eq)]
pub enum Stop {
    /// It has nothing left, or it is a limit order that crosses nothing more.
    Done,
    /// The next price is too far from the last one, on this side of it; or it is a market order of this side with nothing
    /// more against it.
    Gap(Side),
    /// The next price is too far from the one at the order's arrival; the order is of this side.
    Sequence(Side),
}
