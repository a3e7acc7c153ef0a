//! The program's calls: the words of the command line, a module for each command, and what is written for it.
#![tactic(auto)]

mod auction;
mod auditing;
mod check;
mod command;
mod extent;
mod gateways;
mod made;
mod program;
mod reading;
mod replay;
mod reporting;

pub use command::{file_words, is_run};
pub use program::{Status, run_market, run_plain, run_threads};
