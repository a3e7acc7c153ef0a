//! Holds a text against one that is printed: a sink that compares, and the first line that the two do not share.
#![tactic(auto)]

mod line;
mod matcher;

pub use line::next_line;
pub use matcher::{Matcher, Verdict};
