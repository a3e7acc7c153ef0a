// How far desks have seen, and how they catch up with one another.
ghost use Rattle.std.specs.Prelude.{◌≡◌, ◌≤◌, ℕ, Option, Some, true, is_some, length};
ghost use Rattle.mkt_base.specs.declared.journal.Halt.{Halt};
ghost use Rattle.stage_play.specs.Seen.{CaughtUp, HasTold, IsOwnStopped};

use mkt_base::Desk;
use std::sync::Wait;

/// A desk that tells how far it has seen the journal of its issue.
pub trait SeenDesk: Desk {
    /// Whose desk it is.
    ghost caller: { Self.Fixed → ℕ };

    /// How many entries it has seen. All that it has entered is among them.
    fn seen(&self) -> u64
        ensures seen { result ≡ (Self.state self.now).seen }
        ensures told { HasTold (Self.tells self.now) (Self.state self.now).seen (length (Self.state self.now).made) };

    /// It has seen a halt of the issue. Where that is of its own caller's event, that event has stopped it.
    fn is_halted(&self) -> bool
        ensures ended { result ≡ (Self.state self.now).ended }
        ensures halt { result ≡ is_some (Self.state self.now).halt }
        ensures own { IsOwnStopped (caller (Self.fixed self.now)) (Self.state self.now) };
}

/// How far some desks of an issue have seen together: the most entries that any of them has seen, and whether any has seen a halt.
#[derive(Clone, Copy, Debug, PartialEq, Eq)]
pub struct Sight {
    pub seen: u64,
    pub halted: bool,
}

// The desk has seen as much.
fn has_seen<D: SeenDesk>(desk: &D, sight: &Sight) -> bool
    ensures told { HasTold (D.tells desk.now) (D.state desk.now).seen (length (D.state desk.now).made) }
    ensures own { IsOwnStopped (D.caller (D.fixed desk.now)) (D.state desk.now) }
    ensures seen { result ≡ true → sight.now.seen ≤ (D.state desk.now).seen }
    ensures halted { result ≡ true → sight.now.halted ≡ true → (h : Halt) × ((D.state desk.now).halt ≡ Some h) }
{
    let is_halted = desk.is_halted();
    desk.seen() >= sight.seen && (is_halted || !sight.halted)
}

// The desk shows its board until it has seen as much.
pub(crate) fn catch_up<W: Wait, D: SeenDesk>(rt: &W, desk: &mut D, sight: &Sight)
    ensures { CaughtUp D.state D.fixed D.caller D.tells sight.now desk.old desk.new }
{
    if has_seen(desk, sight) {
        return;
    }
    for _ in rt.forever() {
        let _board = desk.show(rt);
        if has_seen(desk, sight) {
            return;
        }
    }
    unreachable!()
}
