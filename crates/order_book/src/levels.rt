// The four sums at a position.

/// The four sums of a book at one of its prices, in shares.
#[derive(Clone, Copy, Debug, PartialEq, Eq)]
pub struct Levels {
    /// Market buys, and limit buys at or above the price.
    pub buys: u64,
    /// Market buys, and limit buys above the price.
    pub above: u64,
    /// Market sells, and limit sells at or below the price.
    pub sells: u64,
    /// Market sells, and limit sells below the price.
    pub below: u64,
}
