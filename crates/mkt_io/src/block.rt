// A block of bytes that are gathered before they are written.
ghost use Rattle.std.specs.Prelude.{◌≡◌, ◌+◌, ◌<◌, ◌≤◌, List, ℕ, [], ◌∷◌, ◌++◌, length};
ghost use Rattle.std.specs.Fmt.{decimal};
ghost use Rattle.mkt_io.specs.Printed.{spaced};
ghost use Rattle.mkt_io.specs.declared.block.TheConstants.{BLOCK};
ghost use Rattle.mkt_io.specs.declared.text.TheConstants.{DIGITS};

use crate::text::{copy_text, digit_count, write_decimal};
use std::marker::Model;

/// How many bytes a block holds.
pub(crate) const BLOCK: usize = 4096;

/// The bytes gathered so far, at most 4,096.
#[derive(Drop)]
pub(crate) struct Block {
    bytes: [u8; BLOCK],
    used: usize,
}

impl Model for Block {
    ghost use Rattle.std.specs.Prelude.{List, ℕ, take, ◌≤◌};
    ghost use Rattle.mkt_io.specs.declared.block.TheConstants.{BLOCK};

    ghost Value = { List ℕ };

    ghost view = { λ b. take b.used b.bytes };

    ghost invariant = { λ b. b.used ≤ BLOCK };
}

impl Block {
    pub(crate) fn new() -> Block
        ensures { result ≡ [] }
    {
        Block {
            bytes: [0; BLOCK],
            used: 0,
        }
    }

    #[inline]
    pub(crate) fn room(&self) -> usize
        ensures { result + length self.now ≡ BLOCK }
    {
        BLOCK - self.used
    }

    #[inline]
    pub(crate) fn as_slice(&self) -> &[u8]
        ensures { result.now ≡ self.now }
    {
        &self.bytes[..self.used]
    }

    // Adds a byte.
    #[inline]
    pub(crate) fn push(&mut self, byte: u8)
        requires { length self.old < BLOCK }
        ensures { self.new ≡ self.old ++ byte ∷ [] }
    {
        let at = self.used;
        self.bytes[at] = byte;
        self.used = at + 1;
    }

    // Adds the space before a word, where one stands before it in its line.
    #[inline]
    pub(crate) fn push_space(&mut self, begun: bool)
        requires { length self.old < BLOCK }
        ensures { self.new ≡ self.old ++ spaced begun [] }
    {
        if begun {
            self.push(b' ');
        }
    }

    // Adds a text.
    #[inline(always)]
    pub(crate) fn extend(&mut self, text: &[u8])
        requires { length self.old + length text.now ≤ BLOCK }
        ensures { self.new ≡ self.old ++ text.now }
    {
        let end = self.used + text.len();
        copy_text(&mut self.bytes[self.used..end], text);
        self.used = end;
    }

    // Adds the digits of a number.
    #[inline]
    pub(crate) fn extend_decimal(&mut self, n: u64)
        requires { length self.old + DIGITS ≤ BLOCK }
        ensures { self.new ≡ self.old ++ decimal n }
    {
        let end = self.used + digit_count(n);
        write_decimal(n, &mut self.bytes[self.used..end]);
        self.used = end;
    }

    #[inline]
    pub(crate) fn clear(&mut self)
        ensures { self.new ≡ [] }
    {
        self.used = 0;
    }
}
