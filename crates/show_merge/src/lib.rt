//! Puts the boards that several gateways read into the order of the script's lines.
#![tactic(auto)]

mod merge;

pub use merge::merge_shows;
