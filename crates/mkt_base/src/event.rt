// What is entered in an issue's journal, and what is replied.
use crate::{Caller, Kind, Moment, NodeNo, Participant, Price, Qty, Side};

/// What a caller asks of an issue.
#[derive(Clone, Copy, Debug, PartialEq, Eq)]
pub enum Event {
    /// A new order.
    Order {
        participant: Participant,
        side: Side,
        kind: Kind,
        qty: Qty,
    },
    /// A new kind and a new remaining quantity for the order that the caller entered as its own number `target`.
    Change {
        participant: Participant,
        target: u32,
        kind: Kind,
        qty: Qty,
    },
    /// The caller's order of this own number is taken out.
    Cancel {
        participant: Participant,
        target: u32,
    },
    /// The clock moves on to this moment.
    Clock {
        at: Moment,
    },
    /// A memory node is lost.
    Crash {
        node: NodeNo,
    },
    /// A lost memory node comes back.
    Rejoin {
        node: NodeNo,
    },
}

/// An event in an issue's journal.
#[derive(Clone, Copy, Debug, PartialEq, Eq)]
pub struct Entry {
    /// How many entries stand before it.
    pub place: u64,
    pub caller: Caller,
    /// How many entries of this caller stand before it.
    pub own: u32,
    pub event: Event,
}

/// The phase of an issue's day.
#[derive(Clone, Copy, Debug, PartialEq, Eq)]
pub enum Phase {
    /// No orders are taken.
    Idle,
    /// Orders are taken and only join the book.
    Collecting,
    /// Orders trade continuously.
    Trading,
}

/// Why an event is refused, with what shows it. The reasons are tested in this order.
#[derive(Clone, Copy, Debug, PartialEq, Eq)]
pub enum Reason {
    /// No orders are taken in this phase.
    Closed(Phase),
    /// The quantity is 0, above 100,000,000 or no multiple of the issue's unit.
    BadQty(Qty),
    /// The limit price is not on the grid.
    BadPrice(Price),
    /// No order of the caller with this own number is in the book.
    UnknownOrder(u32),
    /// The order is this participant's.
    NotYours(Participant),
    /// The clock already stands at this later moment.
    TimeBack(Moment),
    /// The node is lost already.
    NodeDown(NodeNo),
    /// The node is not lost.
    NodeUp(NodeNo),
}

/// What a caller is told of its event. Quantities are in shares.
#[derive(Clone, Copy, Debug, PartialEq, Eq)]
pub enum Reply {
    /// The order has this place; it filled so much in this event, and has so much left after it.
    Accepted { place: u64, filled: u64, left: u64 },
    /// The same of an order that was changed.
    Changed { place: u64, filled: u64, left: u64 },
    /// So much was taken out.
    Cancelled { left: u64 },
    /// So many due steps were done.
    Moment { steps: u32 },
    /// The node is lost.
    NodeOut(NodeNo),
    /// The node is back: it has all records, or is joining.
    NodeIn(NodeNo),
    /// Nothing is changed by the event.
    Refused(Reason),
}
