//! Continuous trading: an order that arrives trades with the best opposite orders, until a price is too far.
#![tactic(auto)]

mod arriving;
mod law;
mod next;
mod stop;

pub use arriving::{Arrived, incoming};
pub use law::{
    bought_is_sold, done_stays_calm, last_is_near, none_fills_more, sequence_is_beyond,
    stopped_has_left, trades_stand,
};
pub use stop::Stop;
