//! Tells whether a text is a report of the rules, and else its first line that no report has. What its lines tell, the entries of
//! journals, halts and reads of boards, is printed again as a report, and held against the text.
#![tactic(auto)]

mod journal;
mod report;
mod shows;
mod told;
mod words;

pub use report::{AuditFault, audit};
pub use text_match::Verdict;
