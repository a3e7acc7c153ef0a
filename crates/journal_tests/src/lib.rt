//! The tests of an issue over its memory nodes. A crate with tests of its own is proved twice in each gate, so they stand here,
//! above it.
#![tactic(auto)]

#[cfg(test)]
mod tests;
