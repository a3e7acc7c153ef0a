// What the calls on a mirror answer.
use thiserror::Error;

/// The nodes that a call lost, by their numbers.
#[derive(Clone, Copy, Debug, PartialEq, Eq)]
pub struct Kept {
    pub lost: [bool; 3],
}

/// No synchronised node is left.
#[derive(Clone, Copy, Debug, PartialEq, Eq, Error)]
#[error("no synchronised memory node is left")]
pub struct NoNode;
