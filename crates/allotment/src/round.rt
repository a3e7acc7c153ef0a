// Rounds of an allotment.

/// What each participant is given at most in one round of an allotment.
#[derive(Clone, Copy, Debug, PartialEq, Eq)]
pub enum Round {
    /// So many trading units, 1 to 1,000,000.
    Units(u32),
    /// The part n/d of what the participant still lacks, with 1 <= n <= d <= 1000.
    Part { n: u32, d: u32 },
    /// All that it still lacks.
    All,
}
