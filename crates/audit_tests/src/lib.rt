//! The tests of the audit of a report.
#![tactic(auto)]

#[cfg(test)]
mod tests;
