//! Prints the report of a run: the part of each issue, with the entries of its journal, what they do and what is replied.
//! A machine of its own does each journal anew, and a watch prints what it puts out.
#![tactic(auto)]

mod ended;
mod events;
mod issue;
mod lines;
mod names;
mod report;
mod shows;
mod sound;
mod tally;
mod totals;
mod watch;

pub use ended::{EndedIssue, ReportFault, Totals};
pub use issue::print_issue;
pub use report::write_report;
pub use shows::print_shows;
pub use totals::write_totals;
