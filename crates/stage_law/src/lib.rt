//! What holds of a script whose gateways do their lines side by side, stage by stage: laws over the definitions alone.
#![tactic(auto)]

mod law;

pub use law::{played_is_run, played_shows};
