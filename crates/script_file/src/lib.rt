//! Reads a script: the lines of all gateways with their stages, or the first fault with its line. And makes scripts of any size, each of
//! one number.
#![tactic(auto)]

mod commands;
mod draws;
mod fault;
mod generator;
mod orders;
mod reader;
mod script;
mod words;

pub use fault::ScriptFault;
pub use generator::{GenFault, generate, write_generated};
pub use script::{GatewayScriptLine, Script, read_script};
pub use words::{gateway_of, next_kind, next_moment, next_node, next_participant, next_side};
