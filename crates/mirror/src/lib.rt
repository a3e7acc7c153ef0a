//! The mirror of an issue's journal: three memory nodes, each of which holds all of the journal, its front, or nothing.
//! Whichever node fails at whichever call, the nodes mirror the journal after it, and the nodes that were lost are named.
#![tactic(auto)]

mod answer;
mod copying;
mod member;
mod nodes;
mod send;

pub use answer::{Kept, NoNode};
pub use nodes::Mirror;
