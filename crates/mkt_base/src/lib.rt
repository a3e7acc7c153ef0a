//! The words that all crates of the market share: prices, moments, orders, events and replies, the sums of an
//! auction and its outcome, quotes, boards, the watch that is told what a step puts out, and the desk at which a
//! gateway enters its events. `specs/` has the definitions over plain lists that contracts cite.
#![tactic(auto)]

mod auction;
mod desk;
mod event;
mod journal;
mod law;
mod lists;
mod memory;
mod order;
mod output;
mod quote;
mod script;
mod units;
mod watch;

pub use auction::{Outcome, Sums, Trade};
pub use desk::Desk;
pub use event::{Entry, Event, Phase, Reason, Reply};
pub use journal::{Halt, NodeState, Stopped, TurnStop};
pub use law::{levels_in_priority, paired_alike, taken_adds_up, trades_in_turn};
pub use lists::{Name, Rows};
pub use memory::MemWatch;
pub use order::{Kind, Order, Side, Spot};
pub use output::Output;
pub use quote::{Board, Quote, QuoteKind};
pub use script::{Act, ScriptLine, ShowLine};
pub use units::{Caller, DAY_MS, Moment, NODES, NodeNo, Participant, Price, Qty};
pub use watch::{NoWatch, Watch};
