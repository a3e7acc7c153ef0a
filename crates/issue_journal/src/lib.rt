//! An issue whose journal is kept in three memory nodes. A turn enters an event: it is written to the nodes first, with the
//! losses of nodes that were met on the way, and then done by the issue's machine. Where no node is left to hold it the issue is
//! halted. An issue that was left is made again of its nodes alone.
#![tactic(auto)]

mod adopt;
mod fault;
mod issue;
mod law;
mod numbers;
mod reading;
mod room;
mod send;
mod turn;
mod value;
mod work;

pub use adopt::NotAdopted;
pub use fault::RoomFault;
pub use issue::{Closed, Issue};
pub use law::losses_stay_few;
pub use room::IssueRoom;
pub use value::FixedPart;
