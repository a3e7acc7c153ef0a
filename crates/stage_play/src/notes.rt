// What a gateway notes for the others of what its desks have seen.
ghost use Rattle.std.specs.Prelude.{◌≡◌, ℕ, ◌+◌, ◌<◌, ◌≤◌, length, slice_index_or, slice_set};
ghost use Rattle.stage_play.specs.Blocks.{nothing, sights_of};
ghost use Rattle.stage_play.specs.Packing.{packed, unpacked, unpacked_packed};
ghost use Rattle.stage_play.specs.Seen.{joined, sight_at};
ghost use Rattle.stage_play.specs.declared.notes.Note.{Note};

use crate::{SeenDesk, Sight};
use all_gather::{Packed, Words};

/// What a gateway's desk of an issue has seen.
#[derive(Clone, Copy)]
pub struct Note {
    pub issue: usize,
    pub sight: Sight,
}

impl Packed for Note {
    ghost packed = { packed };

    ghost unpacked = { unpacked };

    #[inline]
    fn pack(&self) -> Words {
        Words {
            first: self.issue as u64,
            second: self.sight.seen,
            third: u64::from(self.sight.halted),
        }
    }

    #[inline]
    fn unpack(words: Words) -> Note {
        Note {
            issue: words.first as usize,
            sight: Sight {
                seen: words.second,
                halted: words.third != 0,
            },
        }
    }

    ghost told = { unpacked_packed };
}

/// Nothing is seen.
pub(crate) const NOTHING: Sight = Sight {
    seen: 0,
    halted: false,
};

pub(crate) fn sight_at<D: SeenDesk>(desk: &D) -> Sight
    ensures { result ≡ sight_at (D.state desk.now) }
{
    Sight {
        seen: desk.seen(),
        halted: desk.is_halted(),
    }
}

// What is seen by both together.
pub(crate) fn both(a: Sight, b: Sight) -> Sight
    ensures { result ≡ joined a b }
{
    Sight {
        seen: a.seen.max(b.seen),
        halted: a.halted || b.halted,
    }
}

// Writes a note of each desk to the board, from a place on.
pub(crate) fn note_own<D: SeenDesk>(desks: &[D], first: usize, board: &mut [Note])
    requires { first + length desks.now ≤ length board.old }
    ensures { (issue : ℕ) (d : D) (n : Note) → issue < length desks.now
        → slice_index_or board.new (first + issue) n ≡ record { issue = issue; sight = sight_at (D.state (slice_index_or desks.now issue d)) } }
{
    for (issue, desk) in desks.iter().enumerate() {
        board[first + issue] = Note {
            issue,
            sight: sight_at(desk),
        };
    }
}

// A note is added to what is known of its issue.
fn add_note(sights: &mut [Sight], note: Note)
    ensures { sights.new ≡ slice_set sights.old note.issue (joined (slice_index_or sights.old note.issue nothing) note.sight) }
{
    if note.issue < sights.len() {
        sights[note.issue] = both(sights[note.issue], note.sight);
    }
}

// What all notes on the board say of the issues.
pub(crate) fn add_up(board: &[Note], sights: &mut [Sight])
    ensures { sights.new ≡ sights_of (length sights.old) board.now }
{
    sights.fill(NOTHING);
    for note in board {
        add_note(sights, *note);
    }
}
