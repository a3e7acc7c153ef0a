//! The tests of the commands over scripts that are made of a number, `gen` and `replay --gen`, and of `audit`.
#![tactic(auto)]

#[cfg(test)]
mod tests;
