// A window of prices that an auction may use.

/// Positions of the grid: those from `lo` to `hi`, both included, may be the auction's price; the one nearest to `reference`,
/// which lies among them, is.
#[derive(Clone, Copy, Debug, PartialEq, Eq)]
pub struct Window {
    pub reference: u32,
    pub lo: u32,
    pub hi: u32,
}
