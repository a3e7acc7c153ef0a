//! The tests of gateways, over desks in memory. A crate with tests of its own is proved twice in each gate, so they stand here,
//! above it.
#![tactic(auto)]

#[cfg(test)]
mod tests;
