// What a seat at the cell's table knows. No value of these types is made: they exist in proofs alone.
use crate::Mark;
use std::collections::LinkedList;

/// Where a caller stands between two of its steps.
pub enum Stage {
    /// It has no ticket.
    Idle,
    /// It has looked at the number that is served, to try for the ticket of that number.
    Noted,
    /// It has a ticket and waits.
    Waiting,
    /// It has the turn.
    Ready,
}

/// A caller whose pass has ended in another one.
pub struct Gone {
    pub caller: u16,
    pub made: LinkedList<Mark>,
    pub turns: u64,
}

/// What a caller knows and has.
pub struct View<F> {
    pub stage: Stage,
    /// The ticket, or the number that was noted.
    pub at: u64,
    pub caller: u16,
    /// Of the cell.
    pub callers: u16,
    /// So many callers, the last ones, have no pass yet and get theirs from this one.
    pub block: u16,
    pub turns: u64,
    /// Failed tries, and the two numbers that the last one found.
    pub tries: u64,
    pub served: u64,
    pub ticket: u64,
    /// The marks that it has seen. In a turn, those of the value as it was found.
    pub seen: LinkedList<Mark>,
    /// The shorter of the two lists that met in it last.
    pub short: LinkedList<Mark>,
    /// The marks that it made.
    pub made: LinkedList<Mark>,
    pub met: LinkedList<Gone>,
    pub fixed: Option<F>,
}
