// Why a script is refused.
ghost use Rattle.std.specs.Prelude.{◌≡◌};
ghost use Rattle.mkt_io.specs.LineFault.{fault_number};

use mkt_io::LineFault;
use thiserror::Error;

/// Why a script was not read.
#[derive(Clone, Copy, Debug, PartialEq, Eq, Error)]
pub enum ScriptFault {
    /// Its first fault: the number of the line, from 1, and the number of the fault, 1 to 9.
    #[error("line {line} of the script has fault {number}")]
    At { line: u32, number: u8 },
    /// There is no memory for what it says.
    #[error("out of memory")]
    Memory,
}

// The fault of a line.
pub(crate) fn at_line(line: u32, fault: LineFault) -> ScriptFault
    ensures { result ≡ ScriptFault.At line (fault_number fault) }
{
    ScriptFault::At {
        line,
        number: fault.number(),
    }
}
