//! An auction over the levels of a file: what it answers, and its certificate. What a level has left is known, so the sums at each
//! price follow from those at its neighbour.
#![tactic(auto)]

mod answer;
mod gathering;
mod walk;

pub use answer::attempt;
pub use gathering::gather;
