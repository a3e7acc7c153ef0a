//! Prints what a rules file says: its tables, or its first fault.
#![tactic(auto)]

mod fault;
mod tables;

pub use fault::{print_fault, write_fault};
pub use tables::{print_issue, print_tables, write_tables};
