//! Reads a rules file: the rules of a market day, or the first fault in the one order of its checks.
#![tactic(auto)]

mod checks;
mod fault;
mod form;
mod guesses;
mod issue;
mod issues;
mod keys;
mod lists;
mod names;
mod rules;
mod same;
mod value;

pub use fault::RulesFault;
pub use issue::IssueRules;
pub use rules::{Rules, read_rules};
