// What may be wrong with a line of a text file.
ghost use Rattle.std.specs.Prelude.{◌≡◌, ◌<◌, ◌≤◌, ℕ, List, length, MatchResult};
ghost use Rattle.mkt_io.specs.LineFault.{checked_words, fault_number};

use crate::{LINE_LIMIT, Words, is_text};

/// What is wrong with a line.
#[derive(Clone, Copy, Debug, PartialEq, Eq)]
pub enum LineFault {
    /// An unknown, missing or extra word.
    Word,
    /// A word that is no number, or a number out of its range, where a number is wanted.
    Number,
    /// An unknown issue, or `*` where one issue is wanted.
    Issue,
    /// An unknown gateway.
    Gateway,
    /// An unknown participant.
    Participant,
    /// An own number that names no earlier order of this gateway and issue.
    Own,
    /// More than 200 bytes without the line end.
    TooLong,
    /// A line after the first 500,000.
    TooMany,
    /// A byte that is neither a tab nor 32 to 126.
    NotText,
}

/// Why a text file was not read: its first fault with the number of its line, or want of memory.
#[derive(Clone, Copy, Debug, PartialEq, Eq)]
pub enum TextFault {
    /// Its first fault, and the number of the line.
    At { line: u32, fault: LineFault },
    /// There was no memory for what it says.
    Memory,
}

/// How many lines a text file may have.
pub const LINES_LIMIT: u32 = 500_000;

impl LineFault {
    /// The fault's number, as it is printed.
    pub fn number(self) -> u8
        ensures { result ≡ fault_number self }
    {
        match self {
            LineFault::Word => 1,
            LineFault::Number => 2,
            LineFault::Issue => 3,
            LineFault::Gateway => 4,
            LineFault::Participant => 5,
            LineFault::Own => 6,
            LineFault::TooLong => 7,
            LineFault::TooMany => 8,
            LineFault::NotText => 9,
        }
    }
}

#[tactic(auto, unfolding(crate::specs::LineFault::checked_words))]
/// The words of a line, after the tests of its number, its length and its bytes, in this order.
#[inline(always)]
pub fn checked_words(number: u32, line: &[u8]) -> Result<Words<'_>, LineFault>
    ensures { MatchResult result (λ words. checked_words number line.now ≡ Ok words) (λ fault.
        checked_words number line.now ≡ Err fault) }
{
    if number > LINES_LIMIT {
        Err(LineFault::TooMany)
    } else if line.len() > LINE_LIMIT {
        Err(LineFault::TooLong)
    } else if !is_text(line) {
        Err(LineFault::NotText)
    } else {
        Ok(Words::new(line))
    }
}

#[tactic(auto, unfolding(crate::specs::LineFault::checked_words))]
/// The fault of a line that is too long, by its number.
pub fn too_long(line: u32) -> LineFault
    ensures { (text : List ℕ) → 200 < length text → checked_words line text ≡ Err result }
{
    if line > LINES_LIMIT {
        LineFault::TooMany
    } else {
        LineFault::TooLong
    }
}
