//! What contracts see of an order book, its orders by place with their handles, and the laws of its lists: what taking
//! from an order does to the sides in their priority.
#![tactic(auto)]

mod law;

pub use law::{
    fronts_are_traded, none_better_left, sides_add_up, stands_once, trades_keep_priority,
};
