//! The auction on a book: whether it trades at a window's prices, the certificate of the answer, and who trades with whom.
//! No call takes memory.
#![tactic(auto)]

mod answer;
mod filling;
mod law;
mod margin;
mod outward;
mod plain;
mod positions;
mod rounds;
mod search;
mod settling;
mod sharing;
mod telling;
mod trading;

pub use answer::attempt;
pub use law::{
    calm_afterwards, close_trades_fairly, none_trades_more, sides_lose_trades, trades_are_whole,
    volume_is_traded,
};
pub use margin::Margin;
pub use plain::plain_attempt;
pub use positions::Attempt;
pub use settling::{settle, share_out};
pub use telling::certificate;
