//! The machine of one issue: one entry at a time, with its reply and its outputs.
#![tactic(auto)]

mod clock;
mod law;
mod machine;
mod nodes;
mod orders;
mod refusals;

pub use law::{due_steps_end, history_goes_on, history_is_journal, nodes_go_by_their_rules};
pub use machine::{Machine, MachineFault};
