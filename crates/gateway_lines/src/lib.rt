//! Gives each gateway its lines of a script.
#![tactic(auto)]

mod making;

pub use making::{GatewaysFault, make_gateways};
