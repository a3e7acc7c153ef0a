// What a participant asks for in an allotment.
use mkt_base::Participant;

/// The demand of a participant, in shares.
#[derive(Clone, Copy, Debug, PartialEq, Eq)]
pub struct Demand {
    /// Who asks.
    pub participant: Participant,
    /// The least place of its orders that take part, which ranks it among demands of the same size.
    pub first: u64,
    /// How many shares it asks for.
    pub asked: u64,
    /// How many it is given; 0 before the allotment.
    pub share: u64,
}
