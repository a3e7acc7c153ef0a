// The certificate of an attempt.
use mkt_base::{Outcome, Rows, Sums};

/// What an attempt of an auction answers, with what shows it: the positions of the reference and of the window's ends on the grid, the
/// prices that are nearer to the reference than the chosen one, the nearest first, each with the sums that rule it out, and the outcome.
#[derive(Debug, Drop)]
pub struct Certificate {
    pub reference: u32,
    pub lo: u32,
    pub hi: u32,
    /// Empty where nothing trades.
    pub rejected: Rows<Sums>,
    pub outcome: Outcome,
}
