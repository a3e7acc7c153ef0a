//! The tests of the crates above `mkt_io`, a module for each subject. A crate with tests of its own is proved twice in each
//! gate, so they stand here, above all of them.
#![tactic(auto)]

#[cfg(test)]
mod tests;
