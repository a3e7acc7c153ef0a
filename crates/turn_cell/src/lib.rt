//! The turn cell: a value that one caller at a time may change, in the order of tickets. It is a ticket lock whose value
//! is a journal: every caller knows for sure which beginning of the journal it has seen and which entries it made.
//! `specs/Rule.antt` has the rule of the lock, `specs/Steps.antt` what each step tells, and `specs/Passes.antt` what a
//! caller's pass stands for.
#![tactic(auto)]

mod cell;
mod end;
mod enter;
mod law;
mod lot;
mod pass;
mod plays;
mod share;
mod turn;
mod value;
mod view;
mod wait;

pub use cell::{CellFault, TurnCell};
pub use enter::Busy;
pub use law::marks_are_the_journal;
pub use pass::Pass;
pub use turn::Turn;
pub use value::{Mark, TurnValue};
