//! The tests of the crates `mkt_base` and `mkt_io`. A crate with tests of its own is proved twice in each gate, so they
//! stand here, above them.
#![tactic(auto)]

#[cfg(test)]
mod tests;
