//! The law of an auction over plain lists: which prices meet the three conditions, which of them is
//! chosen, and what an attempt answers. `plain_attempt` is the definitions' own program.
#![tactic(auto)]

mod attempt;
mod choice;
mod law;
mod nearness;
mod sums;

pub use attempt::{best_ask, best_bid, plain_attempt, without_trade};
pub use choice::{chosen_sums, meets};
pub use law::{
    attempt_is_the_outcome, chosen_is_nearest, levels_answer_alike, meeting_trades_most,
    one_answer, one_run_meets, sums_go_one_way, tie_never_decides, trades_unless_pressed,
    trades_where_some_meets,
};
pub use nearness::ByNearness;
pub use sums::{limit_of, plain_sums};
