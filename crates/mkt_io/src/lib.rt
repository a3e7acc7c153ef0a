//! Bytes in and bytes out: a shelf of files, a sink for bytes, the lines and words of a text, and a
//! printer that gathers what it is handed. A fault is told only where the object that was handed in
//! counted one.
#![tactic(auto)]

mod block;
mod fault;
mod gate;
mod lanes;
mod lines;
mod memory;
mod printer;
mod shelf;
mod sink;
mod system;
mod text;
mod time;
mod words;

pub use fault::{LINES_LIMIT, LineFault, TextFault, checked_words, too_long};
pub use gate::{Gate, NoGate};
pub use lanes::is_text;
pub use lines::{LINE_LIMIT, Lines, Piece};
pub use memory::{MemFault, MemShelf, MemSink};
pub use printer::Printer;
pub use shelf::{ReadFault, Shelf, read_whole};
pub use sink::{Failed, Sink, WriteFault, write_all};
pub use system::{FileShelf, StdSink};
pub use time::{printed_moments_read_back, time_word};
pub use words::{Words, next_number, number_in, number_word, side_of};
