//! Sums of a list of quantities, one for each price position: the sum up to a position, and the first position at which it
//! reaches a number. `specs/` has the definitions over plain lists that contracts cite.
#![tactic(auto)]

mod index;
mod steps;
mod tree;

pub use index::{DepthFault, DepthIndex};
pub use steps::Steps;
