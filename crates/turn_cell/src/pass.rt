// The pass of a caller.
ghost use Rattle.std.specs.Prelude.{◌≡◌, ◌≢◌, length};
ghost use Rattle.turn_cell.specs.Marks.{entries_in, halt_in};

use crate::TurnValue;
use crate::view::View;
use atomic_table::Seat;
use mkt_base::{Caller, Halt};
use std::marker::Model;

/// What a pass knows of itself.
#[derive(Clone, Copy, Debug, PartialEq, Eq)]
pub(crate) struct Numbers {
    pub caller: u16,
    /// The callers of the cell.
    pub callers: u16,
    pub block: u16,
    pub met: u16,
    pub turns: u32,
    /// The entries that it made.
    pub own: u32,
}

/// What a pass has seen of the journal.
#[derive(Clone, Copy, Debug, PartialEq, Eq)]
pub(crate) struct Sight {
    pub marks: u64,
    pub entries: u64,
    pub halt: Option<Halt>,
}

/// The place of a caller at a cell's table.
pub(crate) type Place<V> = Seat<Option<V>, View<<V as TurnValue>::Fixed>>;

/// A caller's right to take turns at one cell, with all that it knows of the cell's journal.
#[derive(Drop)]
pub struct Pass<V: TurnValue> {
    pub(crate) seat: Seat<Option<V>, View<V::Fixed>>,
    pub(crate) numbers: Numbers,
    pub(crate) sight: Sight,
}

impl<V: TurnValue> Model for Pass<V> {
    ghost use Rattle.turn_cell.specs.Passes.{Known, known};

    ghost Value = { Known V.Fixed };

    ghost use Rattle.turn_cell.specs.Kept.{Rests};

    ghost view = { λ p. known p.seat.table_id p.seat.me.0 };

    ghost invariant = { λ p. Rests p.seat.me p.numbers p.sight };
}

impl<V: TurnValue> Pass<V> {
    /// Whose pass it is, 1 to the number of callers.
    pub fn caller(&self) -> Caller
        ensures value { result.0 ≡ self.now.caller }
        ensures real { result.0 ≢ 0 }
    {
        Caller(self.numbers.caller)
    }

    /// How many entries of the journal the pass has seen.
    pub fn seen(&self) -> u64
        ensures { result ≡ length (entries_in self.now.seen) }
    {
        self.sight.entries
    }

    /// The own number of the caller's next entry, which is how many entries it has made.
    pub fn next_own(&self) -> u32
        ensures { result ≡ length (entries_in self.now.made) }
    {
        self.numbers.own
    }

    /// How many callers have no pass yet and get theirs from this one.
    pub fn block(&self) -> u16
        ensures { result ≡ self.now.block }
    {
        self.numbers.block
    }

    /// How many passes have ended in this one, directly or through another.
    pub fn met(&self) -> u16
        ensures { result ≡ length self.now.met }
    {
        self.numbers.met
    }

    /// The halt that the pass has seen.
    pub fn halted(&self) -> Option<Halt>
        ensures { result ≡ halt_in self.now.seen }
    {
        self.sight.halt
    }
}
