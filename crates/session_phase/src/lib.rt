//! The sessions of a day: the phase at a moment, and the next boundary between phases.
#![tactic(auto)]

mod law;
mod session;

pub use law::boundaries_rise;
pub use session::{Boundary, Session, next_due, phase_at};
