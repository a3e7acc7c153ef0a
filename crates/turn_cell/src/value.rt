// What a turn cell can hold: a value with a journal.
ghost use Rattle.std.specs.Prelude.{◌≡◌, ℕ, ◌<◌, ◌^◌, List, Option, length};
ghost use Rattle.mkt_base.specs.declared.event.Entry.{Entry};
ghost use Rattle.mkt_base.specs.declared.journal.Halt.{Halt};

use mkt_base::{Entry, Halt};

/// What a turn leaves in a journal: an entry, or the halt that ends the journal.
#[derive(Clone, Copy, Debug, PartialEq, Eq)]
pub enum Mark {
    Made(Entry),
    Ended(Halt),
}

/// A value with a journal of fewer than 2^63 entries, which a halt may end.
pub trait TurnValue {
    /// What no turn changes and every caller knows, as plain data.
    type Fixed;

    /// The entries of the journal, in order.
    ghost entries: { Self → List Entry };

    /// The halt that ends it.
    ghost halt: { Self → Option Halt };

    /// The part that no turn changes.
    ghost fixed: { Self → Self.Fixed };

    /// How many entries the journal has.
    fn length(&self) -> u64
        ensures count { result ≡ length (entries self.now) }
        ensures few { length (entries self.now) < 2 ^ 63 };

    /// The halt, where the journal has ended.
    fn halted(&self) -> Option<Halt>
        ensures { result ≡ halt self.now };
}
