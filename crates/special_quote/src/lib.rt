//! Special quotes: the next price would be too far from the last one, so the market shows how far it may trade, and renews
//! that at an interval. Where one begins and what it is renewed to stand here; the windows in which it is tried and what the
//! answers make of it are those of every quote.
#![tactic(auto)]

mod start;

pub use quote_law::{after_event, at_due, due_window, window};
pub use start::{begin, renewed};
