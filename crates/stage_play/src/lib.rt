//! The gateways of a script at their desks, stage by stage, each in a thread of its own.
#![tactic(auto)]

mod blocks;
mod members;
mod notes;
mod part;
mod plan;
mod rounds;
mod seen;
mod sights;
mod stages;

pub use part::Part;
pub use seen::{SeenDesk, Sight};
pub use stages::play_stages;
