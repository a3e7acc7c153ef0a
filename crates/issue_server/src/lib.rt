//! The server of one issue. Any number of callers enter events into it, each in its turn: a caller gets the reply that the rules give at
//! the place of its entry, and its pass tells exactly what it has seen of the journal and which entries it made.
#![tactic(auto)]

mod end;
mod send;
mod served;
mod server;
mod show;
mod submit;

pub use served::{Served, Shown, Tried, TryStop};
pub use server::{Server, ServerFault};
