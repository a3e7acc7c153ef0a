// What the calls of a server answer.
use issue_journal::Issue;
use memory_node::MemoryNode;
use mkt_base::{Board, Reply, TurnStop};
use turn_cell::Pass;

/// The answer to an event that was submitted, and the pass after it.
#[derive(Drop)]
pub struct Served<N: MemoryNode> {
    pub pass: Pass<Issue<N>>,
    /// The reply of the rules, or why the event was not entered.
    pub result: Result<Reply, TurnStop>,
}

/// The answer to an event that was tried, and the pass after it.
#[derive(Drop)]
pub struct Tried<N: MemoryNode> {
    pub pass: Pass<Issue<N>>,
    /// The reply of the rules, or why the event was not entered.
    pub result: Result<Reply, TryStop>,
}

/// Why an event that was tried was not entered.
#[derive(Clone, Copy, Debug, PartialEq, Eq)]
pub enum TryStop {
    /// The turn was taken, and the issue did not take the event.
    Stop(TurnStop),
    /// Another caller has the turn or waits for it. The two numbers are those that the try found, and they differ.
    Busy { served: u64, ticket: u64 },
}

/// A board, and the pass that has seen the journal of it.
#[derive(Drop)]
pub struct Shown<N: MemoryNode> {
    pub pass: Pass<Issue<N>>,
    pub board: Board,
}
