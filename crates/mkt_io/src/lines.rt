// The lines of a text, one after another.
ghost use Rattle.std.specs.Prelude.{◌≡◌, ◌<◌, ◌^◌, ◌∷◌, length};
ghost use Rattle.std.specs.Str.Lines.{strip_carriage_return};
ghost use Rattle.mkt_io.specs.Lines.{LinesLeft, IsNextPiece, lines};

use memchr::memchr;
use std::marker::Model;

/// How many bytes a line may have, without its line end.
pub const LINE_LIMIT: usize = 200;

/// What stands next in a text.
#[derive(Clone, Copy)]
pub enum Piece<'a> {
    /// A line without its line end, and its number from 1 on.
    Line { number: u32, text: &'a [u8] },
    /// A line of more than 200 bytes, by its number.
    TooLong(u32),
    /// No byte is left.
    End,
}

/// The lines that are left of a text. A line ends at LF, and one CR before the LF or before the end of the
/// text is dropped. The last line may lack its LF.
#[derive(Drop)]
pub struct Lines<'a> {
    rest: &'a [u8],
    given: u32,
}

impl<'a> Model for Lines<'a> {
    ghost use Rattle.std.specs.Prelude.{◌+◌, ◌<◌, ◌^◌, length};
    ghost use Rattle.mkt_io.specs.Lines.{LinesLeft, lines};

    ghost Value = { LinesLeft };

    ghost view = { λ l. record { left = lines l.rest.now; given = l.given } };

    ghost invariant = { λ l. l.given + length l.rest.now < 2 ^ 32 };
}

impl<'a> Lines<'a> {
    /// The lines of a text of fewer than 2^32 bytes.
    pub fn new(bytes: &'a [u8]) -> Lines<'a>
        requires { length bytes.now < 2 ^ 32 }
        ensures { result ≡ record { left = lines bytes.now; given = 0 } }
    {
        Lines {
            rest: bytes,
            given: 0,
        }
    }

    /// Takes the next line off the front.
    pub fn next(&mut self) -> Piece<'a>
        ensures { IsNextPiece self.old result self.new }
    {
        if self.rest.is_empty() {
            return Piece::End;
        }
        let (text, rest) = cut_line(self.rest);
        self.rest = rest;
        self.given += 1;
        let number = self.given;
        if text.len() > LINE_LIMIT {
            return Piece::TooLong(number);
        }
        Piece::Line { number, text }
    }
}

// The first line of a text, and what stands behind it.
fn cut_line(bytes: &[u8]) -> (&[u8], &[u8])
    requires { 0 < length bytes.now }
    ensures lines { lines bytes.now ≡ result.0.now ∷ lines result.1.now }
    ensures shorter { length result.1.now < length bytes.now }
{
    match memchr(b'\n', bytes) {
        Some(at) => (without_return(&bytes[..at]), &bytes[at + 1..]),
        None => (without_return(bytes), &[]),
    }
}

// A line without one CR at its end.
fn without_return(line: &[u8]) -> &[u8]
    ensures { result.now ≡ strip_carriage_return line.now }
{
    match line {
        [front @ .., b'\r'] => front,
        _ => line,
    }
}
