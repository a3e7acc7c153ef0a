//! The tests of the auction over levels, beside the definitions' own program.
#![tactic(auto)]

#[cfg(test)]
mod tests;
