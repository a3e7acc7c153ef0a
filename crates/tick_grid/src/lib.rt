//! The permitted prices of an issue: tick rows, the grid of the prices on tick, bands that depend on the price, and the
//! steps by which a quote is renewed. `specs/` has the definitions over plain lists that contracts cite.
#![tactic(auto)]

mod build;
mod grid;
mod law;
mod rows;
mod step;

pub use grid::{Grid, GridFault, MAX_PRICES};
pub use law::{ceil_is_least, floor_is_greatest, grid_between_its_ends, positions_are_found};
pub use rows::{BandRow, TickRow, band};
pub use step::{down, up};
