// A script, and how one is read.
ghost use Rattle.std.specs.Prelude.{◌≡◌, ◌<◌, ◌^◌, length, IfOk};
ghost use Rattle.rules_file.specs.Rules.{IsRules};
ghost use Rattle.script_file.specs.Faults.{Gives};
ghost use Rattle.script_file.specs.Script.{IsScript, script_of};

use crate::ScriptFault;
use crate::fault::at_line;
use crate::reader::Reader;
use mkt_base::{Caller, Rows, ScriptLine};
use mkt_io::{Lines, Piece, too_long};
use rules_file::Rules;
use std::alloc::Global;

/// A line of a script, for one issue, with the gateway that it is of.
#[derive(Clone, Copy, Debug, PartialEq, Eq)]
pub struct GatewayScriptLine {
    /// The gateway: its number in the rules, counted from 1.
    pub gateway: Caller,
    pub line: ScriptLine,
}

/// What a script says.
#[derive(Debug, Drop)]
pub struct Script {
    /// The lines of all gateways in their order in the file. A line for all issues stands once for each, in file order of
    /// the issues.
    pub lines: Rows<GatewayScriptLine>,
    /// How many stages there are: one more than there are `barrier` lines.
    pub stages: u32,
}

/// Reads a script of fewer than 2^32 bytes under these rules: what it says, or its first fault with the number of its line.
/// `Memory` comes only where there is no memory. The time is in proportion to the bytes and to what is made of them; while it
/// reads, a byte for each event is kept beside the lines.
pub fn read_script(alloc: Global, bytes: &[u8], rules: &Rules) -> Result<Script, ScriptFault>
    requires rules { IsRules rules.now }
    requires size { length bytes.now < 2 ^ 32 }
    ensures exact { Gives result (script_of rules.now bytes.now) }
    ensures sound { IfOk result (IsScript rules.now) }
{
    let mut lines = Lines::new(bytes);
    let Ok(mut reader) = Reader::make(alloc) else {
        return Err(ScriptFault::Memory);
    };
    'each_line: loop {
        match lines.next() {
            Piece::End => break 'each_line,
            Piece::TooLong(number) => return Err(at_line(number, too_long(number))),
            Piece::Line { number, text } => reader.read_line(rules, number, text)?,
        }
    }
    Ok(reader.into_script())
}
