// What a journal and lists of answers have in common, counted.
use super::answers::Row;
use super::events::{clock, nth};
use mkt_base::{Entry, Event};

/// What is counted of a journal, of what was answered to the callers, and of what its replay answers.
#[derive(Clone, Copy, Debug, PartialEq, Eq)]
pub(super) struct Counts {
    /// The entries, and those of the system.
    pub entries: usize,
    pub losses: usize,
    /// The callers' entries that are their own events in order, of each of four.
    pub in_order: [u32; 4],
    /// The answers, and those that the replay gives too.
    pub told: usize,
    pub told_again: usize,
    /// The replay's answers, and those that were told.
    pub replayed: usize,
    pub replayed_told: usize,
}

fn contains(rows: &[Row], wanted: &Row) -> bool {
    for row in rows {
        if row == wanted {
            return true;
        }
    }
    false
}

// How many of the rows the others have.
fn known_rows(rows: &[Row], others: &[Row]) -> usize {
    let mut found: usize = 0;
    for row in rows {
        if contains(others, row) {
            found = found.wrapping_add(1);
        }
    }
    found
}

fn losses(journal: &[Entry]) -> usize {
    journal.iter().filter(|e| e.caller.0 == 0).count()
}

// Whether it is the event that a caller entered with this own number: the first of caller 1 is the clock.
fn is_own(caller: u16, own: u32, event: &Event) -> bool {
    if caller == 1 && own == 0 {
        return *event == clock(32_400_000);
    }
    *event == nth(caller, own)
}

// How many entries a caller has, each of them its own event with the next own number; 0 where one is not.
fn in_order(journal: &[Entry], caller: u16) -> u32 {
    let mut own: u32 = 0;
    for entry in journal {
        if entry.caller.0 == caller {
            if entry.own != own || !is_own(caller, own, &entry.event) {
                return 0;
            }
            own = own.wrapping_add(1);
        }
    }
    own
}

/// Counts all of it.
pub(super) fn count_all(journal: &[Entry], told: &[Row], replayed: &[Row]) -> Counts {
    Counts {
        entries: journal.len(),
        losses: losses(journal),
        in_order: [
            in_order(journal, 1),
            in_order(journal, 2),
            in_order(journal, 3),
            in_order(journal, 4),
        ],
        told: told.len(),
        told_again: known_rows(told, replayed),
        replayed: replayed.len(),
        replayed_told: known_rows(replayed, told),
    }
}
