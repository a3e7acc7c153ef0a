//! The book of one issue with its grid, its clock, its last price and its quote: the moves that trading is made of.
#![tactic(auto)]

mod attempts;
mod closing;
mod copies;
mod handles;
mod issue;
mod limits;
mod prices;
mod window;

pub use issue::{IssueBook, IssueFault};
pub use window::Window;
