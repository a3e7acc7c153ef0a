//! Runs a script: each of its gateways in a thread of its own, stage by stage, over issues that keep their journals in the nodes of a rack.
#![tactic(auto)]

mod playing;
mod run;

pub use run::{Ran, run_script};
