//! The tests of the command `run`: scripts whose gateways act at the same time, over files, sinks and nodes in memory. In which order the
//! gateways of a stage come is free, so reports are compared by what is fixed, and the rest is left to `audit`.
#![tactic(auto)]

#[cfg(test)]
mod tests;
