//! The allotment of shares by rounds.
#![tactic(auto)]

mod demand;
mod law;
mod order;
mod round;
mod sharing;

pub use demand::Demand;
pub use law::{
    accepted_rounds_serve, demands_in_order, none_gets_more, shares_add_up, shares_in_units,
};
pub use round::Round;
pub use sharing::allot;
