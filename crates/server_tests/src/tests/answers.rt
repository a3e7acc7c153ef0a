// Answers as numbers.
use issue_server::TryStop;
use mkt_base::{Reason, Reply, TurnStop};

/// What was answered to an entry of a caller: the caller, the own number, the kind of the answer and its numbers.
pub(super) type Row = [u64; 6];

fn reply_numbers(reply: &Reply) -> [u64; 4] {
    match reply {
        Reply::Accepted {
            place,
            filled,
            left,
        } => [1, *place, *filled, *left],
        Reply::Changed {
            place,
            filled,
            left,
        } => [2, *place, *filled, *left],
        Reply::Cancelled { left } => [3, *left, 0, 0],
        Reply::Moment { steps } => [4, u64::from(*steps), 0, 0],
        Reply::NodeOut(k) => [5, u64::from(k.n()), 0, 0],
        Reply::NodeIn(k) => [6, u64::from(k.n()), 0, 0],
        Reply::Refused(reason) => [7, reason_number(reason), 0, 0],
    }
}

fn reason_number(reason: &Reason) -> u64 {
    match reason {
        Reason::UnknownOrder(own) => u64::from(*own) + 10,
        Reason::BadPrice(_) => 1,
        Reason::BadQty(_) => 2,
        _ => 3,
    }
}

fn stop_numbers(stop: &TurnStop) -> [u64; 4] {
    match stop {
        TurnStop::NoNode => [8, 0, 0, 0],
        TurnStop::JournalFull {
            length,
            up,
            capacity,
        } => [9, *length, *up, *capacity],
    }
}

/// The kind and the numbers of an answer.
pub(super) fn numbers(answer: &Result<Reply, TurnStop>) -> [u64; 4] {
    match answer {
        Ok(reply) => reply_numbers(reply),
        Err(stop) => stop_numbers(stop),
    }
}

/// The kind and the numbers of the answer to a try.
pub(super) fn try_numbers(answer: &Result<Reply, TryStop>) -> [u64; 4] {
    match answer {
        Ok(reply) => reply_numbers(reply),
        Err(TryStop::Stop(stop)) => stop_numbers(stop),
        Err(TryStop::Busy { served, ticket }) => [10, *served, *ticket, 0],
    }
}

/// The row of an answer.
pub(super) fn row(caller: u16, own: u32, answer: &Result<Reply, TurnStop>) -> Row {
    let [kind, first, second, third] = numbers(answer);
    [
        u64::from(caller),
        u64::from(own),
        kind,
        first,
        second,
        third,
    ]
}
