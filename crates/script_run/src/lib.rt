//! Runs the lines of a script over issues that keep their journals in the nodes of a rack.
#![tactic(auto)]

mod closing;
mod counting;
mod fault;
mod opening;
mod replay;

pub use closing::close_all;
pub use counting::{count_events, count_shows};
pub use fault::RunFault;
pub use opening::open_all;
pub use replay::{Replayed, replay_script};
