//! Rounds in which each of several threads gives some values and takes those of all: an allgather.
#![tactic(auto)]

mod cells;
mod gathered;
mod packed;
mod rounds;

pub use cells::{Cell, empty_cells, make_cells};
pub use gathered::{Gathered, agree};
pub use packed::{Packed, Words};
pub use rounds::gather;
