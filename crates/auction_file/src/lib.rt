//! Reads an auction file: a grid with a reference, and an order a line; or tells its first fault.
#![tactic(auto)]

mod grid;
mod levels;
mod reader;

pub use grid::EvenGrid;
pub use levels::Levels;
pub use reader::AuctionFile;
