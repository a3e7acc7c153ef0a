//! Gateways: the lines of a script that one caller does, stage by stage, each once and in order, at the desks of the issues.
#![tactic(auto)]

mod line;
mod run;
mod send;

pub use run::{Gateway, GatewayFault};
