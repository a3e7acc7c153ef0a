// How the orders at an auction's price share.

/// How the orders at an auction's price, on the side with the greater sum, share what the better ones leave them.
#[derive(Clone, Copy, Debug, PartialEq, Eq)]
pub enum Margin {
    /// By place: who came first fills first.
    Time,
    /// By an allotment among the participants.
    Rounds,
}
