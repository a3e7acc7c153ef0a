//! Prints what an auction answered: the prices that its sums rule out, and the line of its outcome.
#![tactic(auto)]

mod certificate;
mod lines;

pub use certificate::{print_certificate, write_certificate};
pub use lines::{print_outcome, print_price, print_rejected};
