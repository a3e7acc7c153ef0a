//! Seats gateways at the desks of issues: a server for each issue, a desk for each gateway at each server; and ends them again.
#![tactic(auto)]

mod back;
mod seating;
mod serving;

pub use back::{close_servers, meet_all};
pub use seating::seat_all;
pub use serving::{SeatFault, Serving, serve_all};
