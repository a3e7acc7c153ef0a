//! Laws of an issue's steps, over whole journals: they hold of the definitions, whatever does the steps.
#![tactic(auto)]

mod law;

pub use law::{
    book_stands, bought_is_sold, calm_in_trading, each_loses_its_trades, no_trade_off_the_grid,
};
