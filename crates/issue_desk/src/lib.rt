//! The desk of a gateway in one issue: a server that many share, and the gateway's own pass.
#![tactic(auto)]

mod desk;
mod end;
mod send;

pub use desk::{DeskPlace, IssueDesk};
