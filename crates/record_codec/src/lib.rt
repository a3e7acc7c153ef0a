//! The 48-byte records in which an issue's memory nodes hold its journal: each entry has one spelling, and from the bytes
//! of a spelling the entry is read back. `specs/` has the table of the fields.
#![tactic(auto)]

mod check;
mod codec;
mod event;
mod law;
mod row;

pub use codec::{BadRecord, FORM, decode, encode};
pub use law::{no_shared_spelling, one_spelling};
