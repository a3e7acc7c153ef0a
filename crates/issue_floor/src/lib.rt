//! The trading of one issue: orders that enter, quotes that are tried and served, and the boundaries of the sessions.
#![tactic(auto)]

mod boundaries;
mod entering;
mod floor;
mod quoting;

pub use floor::Floor;
