//! The tests of the readers of rules files and scripts.
#![tactic(auto)]

#[cfg(test)]
mod tests;
