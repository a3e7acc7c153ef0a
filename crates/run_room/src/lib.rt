//! How much room an issue needs whose gateways enter a script's events side by side.
#![tactic(auto)]

mod law;

pub use law::no_journal_is_full;
