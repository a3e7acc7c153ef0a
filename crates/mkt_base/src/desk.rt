// The desk: where a gateway enters its events of one issue.
ghost use Rattle.std.specs.Prelude.{◌≡◌, ℕ, length};
ghost use Rattle.mkt_base.specs.Desk.{DeskState, IsDeskState, WasShown, WasSubmitted};
ghost use Rattle.mkt_base.specs.declared.event.Event.{Event};
ghost use Rattle.mkt_base.specs.declared.quote.Board.{Board};

use crate::{Board, Event, Reply, Stopped, TurnStop};
use std::sync::Wait;

/// A place where events of one issue are entered, one caller's, and its board is read. Other callers may enter theirs at the same
/// time elsewhere; so both calls may wait.
pub trait Desk {
    /// What no call changes.
    type Fixed;

    ghost fixed: { Self → Self.Fixed };

    /// Which events a desk with this fixed part takes.
    ghost takes: { Self.Fixed → Event → Type 0 };

    /// What it has entered and seen, and what stopped it.
    ghost state: { Self → DeskState };

    /// It has said of this board that it is the board of a front part of its journal, which has the first so many of the events
    /// that it has entered, and none of the later ones.
    ghost tells: { Self → Board → ℕ → Type 0 };

    /// Enters an event, and gives the reply to it. Waits for its turn.
    fn submit<W: Wait>(&mut self, rt: &W, event: Event) -> Result<Reply, TurnStop>
        requires { takes (fixed self.old) event }
        ensures fixed { fixed self.new ≡ fixed self.old }
        ensures done { WasSubmitted event result (state self.old) (state self.new) }
        ensures told { (board : Board) (made : ℕ) → tells self.old board made → tells self.new board made };

    /// The board of the journal, with all that the desk has entered. Waits for its turn.
    fn show<W: Wait>(&mut self, rt: &W) -> Board
        ensures fixed { fixed self.new ≡ fixed self.old }
        ensures done { WasShown result (state self.old) (state self.new) }
        ensures board { tells self.new result (length (state self.old).made) }
        ensures told { (board : Board) (made : ℕ) → tells self.old board made → tells self.new board made };

    /// The first event that could not be entered, and why.
    fn stop(&self) -> Option<Stopped>
        ensures { result ≡ (state self.now).stop };

    /// It enters nothing any more after it was answered that no node is left, or has seen a halt.
    ghost sound: { (d : Self) → IsDeskState (state d) };
}
