//! What holds of an issue that was closed when all its gateways had done their lines at its desks: a law over the definitions alone.
#![tactic(auto)]

mod law;

pub use law::end_is_played;
