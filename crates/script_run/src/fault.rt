// Why a script is not run.
use thiserror::Error;

/// Why a script was not run.
#[derive(Clone, Copy, Debug, PartialEq, Eq, Error)]
pub enum RunFault {
    /// There is no memory for the issues, their nodes or the reads of boards.
    #[error("out of memory")]
    Memory,
}
