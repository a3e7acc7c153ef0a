//! The states of an issue's three memory nodes: how the events of its journal move them.
#![tactic(auto)]

mod states;

pub use states::{PIECE, crashes, has_synchronised, is_lost, joins, node_step, up};
