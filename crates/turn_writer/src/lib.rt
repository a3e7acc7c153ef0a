//! What a turn writes to the memory nodes of an issue: its entry, and the losses of nodes that it met.
//!
//! `write_turn` is the whole of it: the joining nodes catch up, the event's crash wipes its node, the entry goes to the synchronised
//! nodes, a rejoin's node takes its first piece, and then the system records each node that failed on the way. A node may fail at
//! any call. `write_losses` is the last part alone, for one who takes over the nodes of an issue.
//!
//! `specs/Writing.antt` says what was written, and what is known where no synchronised node is left; `specs/Losses.antt` has the
//! entries of losses. `specs/Went.antt` has the relation by which the calls of a turn follow one another.
#![tactic(auto)]

mod catching;
mod losses;
mod lost;
mod noting;
mod putting;
mod turn;

pub use losses::{loss_entry, write_losses};
pub use lost::Lost;
pub use turn::write_turn;
