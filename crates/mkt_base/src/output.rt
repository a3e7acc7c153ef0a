// What an issue puts out while it takes an entry.
use crate::{Moment, Outcome, Participant, Phase, Price, Quote, Sums, Trade};

/// An output of a step, in the order in which the watch is told them.
#[derive(Clone, Copy, Debug, PartialEq, Eq)]
pub enum Output {
    /// A due step comes, at this moment.
    Due(Moment),
    /// A new phase begins.
    NewPhase(Phase),
    /// An attempt is made, with this reference over the window of the prices from `lo` to `hi`.
    Auction {
        reference: Price,
        lo: Price,
        hi: Price,
    },
    /// A price that is nearer than the chosen one fails the conditions by these sums.
    Rejected(Sums),
    /// What the attempt answers.
    Answer(Outcome),
    /// A participant is allotted so many shares.
    Share {
        participant: Participant,
        qty: u64,
    },
    /// Two orders trade.
    Traded(Trade),
    /// A quote begins or moves; or a quote ends and no other takes its place.
    Quoted(Option<Quote>),
}
