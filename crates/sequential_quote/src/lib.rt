//! Sequential quotes: one order would move the price too far from where it was at the order's arrival, so the market shows
//! how far it may trade. Where one begins stands here; the windows in which it is tried and what the answers make of it are
//! those of every quote.
#![tactic(auto)]

mod start;

pub use quote_law::{after_event, at_due, due_window, window};
pub use start::begin;
