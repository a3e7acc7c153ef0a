// The lines of a script, and what its reads of the board answered.
use crate::{Board, Caller, Event};

/// What a line of a script does.
#[derive(Clone, Copy, Debug, PartialEq, Eq)]
pub enum Act {
    /// Enters an event.
    Do(Event),
    /// Reads the board.
    Show,
}

/// A gateway's line of a script, for one issue.
#[derive(Clone, Copy, Debug, PartialEq, Eq)]
pub struct ScriptLine {
    /// The line's number in the file, from 1.
    pub line: u32,
    /// How many `barrier` lines stand before it.
    pub stage: u32,
    /// The issue's number, from 0 in file order.
    pub issue: u16,
    pub act: Act,
}

/// What a gateway read of an issue's board at a line of the script.
#[derive(Clone, Copy, Debug, PartialEq, Eq)]
pub struct ShowLine {
    pub line: u32,
    pub gateway: Caller,
    pub issue: u16,
    pub board: Board,
}
