// The board, in a turn of its own.
ghost use Rattle.std.specs.Prelude.{◌≡◌, length};
ghost use Rattle.turn_cell.specs.Marks.{entries_in};
ghost use Rattle.turn_cell.specs.Passes.{Holds};
ghost use Rattle.turn_cell.specs.Steps.{SeesMore};
ghost use Rattle.issue_server.specs.Meeting.{HaltsByOthers};
ghost use Rattle.issue_server.specs.Served.{HasOnlySeen, IsBoardSeen, IsJournalSeen};

use crate::{Server, Shown};
use issue_journal::Issue;
use memory_node::MemoryNode;
use std::sync::Wait;
use turn_cell::Pass;

impl<N: MemoryNode> Server<N> {
    /// What the board shows, prices in tenths of a yen and the length in entries: that of all entries that the pass has then seen. Waits for
    /// its turn, and adds nothing. What the pass had not seen before is of other callers, a halt too.
    pub fn show(&self, rt: &impl Wait, pass: Pass<Issue<N>>) -> Shown<N>
        requires { pass.cell ≡ self.now }
        ensures turn { HasOnlySeen pass result.pass }
        ensures grows { SeesMore pass.caller pass.seen result.pass.seen }
        ensures whole { IsJournalSeen result.pass }
        ensures holds { Holds result.pass.seen result.pass }
        ensures others_halt { HaltsByOthers pass result.pass }
        ensures board { IsBoardSeen result.board result.pass }
        ensures length { result.board.length ≡ length (entries_in result.pass.seen) }
    {
        let mut turn = self.cell.enter(rt, pass);
        let board = turn.value().show();
        let pass = self.cell.leave(turn);
        Shown { pass, board }
    }
}
