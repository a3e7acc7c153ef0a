// How an issue's trading ended, and what a report may meet.
use mkt_base::{Entry, Halt, Price, Rows};

/// An issue's journal, and the event that halted it, if any.
#[derive(Debug, Drop)]
pub struct EndedIssue {
    pub journal: Rows<Entry>,
    pub halt: Option<Halt>,
}

/// What an issue's part of the report adds up to.
#[derive(Clone, Copy, Debug, PartialEq, Eq)]
pub struct Totals {
    pub entries: u64,
    pub trades: u64,
    /// Shares traded.
    pub shares: u64,
    pub last: Price,
}

/// Why a report was not written whole.
#[derive(Clone, Copy, Debug, PartialEq, Eq)]
pub enum ReportFault {
    /// The sink failed.
    Write,
    /// There is no memory for an issue's machine, or it made more trades or shares than a u64 counts.
    Memory,
}
