//! The rules that special and sequential quotes share: the definitions of both, in `specs/`, and as code when a quote is due,
//! how far one renewal goes, the windows in which it is tried, and what the answer of an attempt makes of it.
#![tactic(auto)]

mod answer;
mod renewal;
mod windows;

pub use answer::{after_event, at_due};
pub use renewal::{daily_limit, later, renewed};
pub use windows::{due_window, position, window};
