//! What holds of the runs of a script, and that a script which is done in file order is such a run.
#![tactic(auto)]

mod law;

pub use law::replay_is_run;
