//! Memory nodes, which hold the records of an issue's journal, and the rack that they are taken from and given back to.
#![tactic(auto)]

mod memory;
mod node;
mod rack;
mod send;
mod slots;

pub use memory::{MemNode, NodeFault};
pub use node::{Down, Label, MemoryNode};
pub use rack::{Rack, RackFault};
pub use slots::{MemRack, NodeFails};
