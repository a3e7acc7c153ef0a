//! The tests of the command `replay`, over files and sinks in memory.
#![tactic(auto)]

#[cfg(test)]
mod tests;
