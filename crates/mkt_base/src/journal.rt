// The states of memory nodes, and how a journal may end.
use crate::{Caller, Event};

/// What a memory node holds of its issue's journal.
#[derive(Clone, Copy, Debug, PartialEq, Eq)]
pub enum NodeState {
    /// Nothing.
    Lost,
    /// This many records from the front, and not yet all.
    Joining(u64),
    /// Every record.
    Synchronised,
}

/// The event that an issue could not record any more, since no node was left to hold it.
#[derive(Clone, Copy, Debug, PartialEq, Eq)]
pub struct Halt {
    pub caller: Caller,
    /// The caller's own number that the event would have had.
    pub own: u32,
    pub event: Event,
}

/// Why a turn recorded nothing.
#[derive(Clone, Copy, Debug, PartialEq, Eq)]
pub enum TurnStop {
    /// No synchronised node is left; the issue is halted.
    NoNode,
    /// With the entry and the losses of the `up` nodes that are not lost the journal could pass its capacity.
    JournalFull { length: u64, up: u64, capacity: u64 },
}

/// The first event that a desk could not enter, and why.
#[derive(Clone, Copy, Debug, PartialEq, Eq)]
pub struct Stopped {
    pub event: Event,
    pub cause: TurnStop,
}
