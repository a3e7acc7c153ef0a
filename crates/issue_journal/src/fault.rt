// Why there is no room for an issue.
use thiserror::Error;

/// Why there is no room for an issue.
#[derive(Clone, Copy, Debug, PartialEq, Eq, Error)]
pub enum RoomFault {
    /// There is no memory for the issue's machine, or for its working list.
    #[error("out of memory")]
    Memory,
}
