//! The tests of special and sequential quotes. A crate with tests of its own is proved twice in each gate, so they stand here,
//! above both.
#![tactic(auto)]

#[cfg(test)]
mod tests;
