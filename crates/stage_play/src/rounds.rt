// A gateway's rounds of a block: in each it does its lines of a stage, notes what its desks have seen, and catches up with what all have noted.
ghost use Rattle.std.specs.Prelude.{◌≡◌, ℕ, ◌+◌, ◌*◌, ◌<◌, ◌≤◌, ◌^◌, [], ◌++◌, length, IfOk};
ghost use Rattle.stage_play.specs.Blocks.{Advances, HasComeTo};
ghost use Rattle.stage_play.specs.declared.notes.Note.{Note};

use crate::notes::{NOTHING, Note, add_up, note_own};
use crate::sights::level_part;
use crate::stages::run_part;
use crate::{Part, SeenDesk, Sight};
use all_gather::{Cell, Gathered, gather};
use mkt_io::Gate;
use std::alloc::{AllocError, Global};
use std::sync::Wait;

/// What a gateway needs for its rounds.
#[derive(Drop)]
pub(crate) struct Desktop {
    /// The notes of a round.
    pub board: Vec<Note>,
    /// What they say of each issue.
    pub sights: Vec<Sight>,
    pub gathered: Gathered<Note>,
}

// For so many issues, rounds of so many notes, and so many notes in all.
pub(crate) fn make_desktop(
    alloc: Global,
    issues: usize,
    width: usize,
    cells: usize,
) -> Result<Desktop, AllocError>
    ensures board { IfOk result (λ t. length t.board.items ≡ width) }
    ensures sights { IfOk result (λ t. length t.sights.items ≡ issues) }
    ensures gathered { IfOk result (λ t. (t.gathered.values ≡ []) × (t.gathered.room ≡ cells)) }
{
    let none = Note {
        issue: 0,
        sight: NOTHING,
    };
    let board = vec![in alloc; none; width]?;
    let sights = vec![in alloc; NOTHING; issues]?;
    let gathered = Gathered::make(alloc, cells)?;
    Ok(Desktop {
        board,
        sights,
        gathered,
    })
}

// One round, in which the gateway's own notes stand from the first place on.
fn play_round<W: Wait, D: SeenDesk, G: Gate>(
    rt: &W,
    part: &mut Part<D>,
    stage: u32,
    round: &[Cell],
    first: usize,
    board: &mut [Note],
    sights: &mut [Sight],
    gathered: &mut Gathered<Note>,
    gate: &G,
)
    requires come { HasComeTo D.state D.fixed D.caller D.takes D.tells (length sights.old) stage part.old }
    requires own { first + length sights.old ≤ length round.now }
    requires board { length board.old ≡ length round.now }
    requires room { length gathered.old.values + length round.now ≤ gathered.old.room }
    ensures values { gathered.new.values ≡ gathered.old.values ++ board.new }
    ensures room { gathered.new.room ≡ gathered.old.room }
    ensures on { Advances D.state D.fixed D.caller D.takes D.tells (length sights.old) (length round.now) stage 1 board.new part.old part.new }
{
    run_part(rt, part, stage, gate);
    let many = part.desks.len();
    note_own(part.desks.as_slice(), first, board);
    gather(rt, round, first, many, board, gathered);
    add_up(board, sights);
    level_part(rt, part, sights);
}

// So many rounds, one for each stage from this one on.
pub(crate) fn play_rounds<W: Wait, D: SeenDesk, G: Gate>(
    rt: &W,
    part: &mut Part<D>,
    stage: u32,
    count: u32,
    cells: &[Cell],
    first: usize,
    desktop: Desktop,
    gate: &G,
) -> Gathered<Note>
    requires come { HasComeTo D.state D.fixed D.caller D.takes D.tells (length desktop.sights.items) stage part.old }
    requires stages { stage + count < 2 ^ 32 }
    requires own { first + length desktop.sights.items ≤ length desktop.board.items }
    requires cells { length cells.now ≡ count * length desktop.board.items }
    requires room { (desktop.gathered.values ≡ []) × (length cells.now ≤ desktop.gathered.room) }
    ensures { Advances D.state D.fixed D.caller D.takes D.tells (length desktop.sights.items) (length desktop.board.items) stage count result.values part.old part.new }
{
    let Desktop {
        mut board,
        mut sights,
        mut gathered,
    } = desktop;
    let board = board.as_mut_slice();
    let sights = sights.as_mut_slice();
    let mut rest = cells;
    for turn in 0..count {
        let (round, others) = rest.split_at(board.len());
        play_round(
            rt,
            part,
            stage + turn,
            round,
            first,
            board,
            sights,
            &mut gathered,
            gate,
        );
        rest = others;
    }
    gathered
}
