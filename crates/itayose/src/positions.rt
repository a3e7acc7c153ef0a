// What an attempt answers, in positions.
use mkt_base::Side;

/// What an attempt answers over a window, in positions of the grid.
#[derive(Clone, Copy, Debug, PartialEq, Eq)]
pub enum Attempt {
    /// It trades at a position, with a volume in shares.
    Traded { at: u32, volume: u64 },
    /// There is no market order, and no limit buy at or above a limit sell: the best limits, where there are any.
    Calm { bid: Option<u32>, ask: Option<u32> },
    /// A side presses at its end of the window.
    Pressed(Side),
}
