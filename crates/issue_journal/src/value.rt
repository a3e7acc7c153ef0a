// An issue as the value of a turn cell, and what of it no turn changes.
ghost use Rattle.std.specs.Prelude.{◌≡◌, ◌<◌, ◌^◌, length};

use crate::{Issue, IssueRoom};
use memory_node::{Label, MemoryNode};
use mkt_base::Halt;
use std::marker::Model;
use turn_cell::TurnValue;

/// What no turn changes of an issue: the rules of its trading, its number, how many entries it takes, the place at which it was
/// made, and the labels of its nodes. No value of this type is made: passes know it in contracts alone.
pub struct FixedPart {
    pub room: IssueRoom,
    pub place: u64,
    pub first: Label,
    pub second: Label,
    pub third: Label,
}

impl Model for FixedPart {
    ghost use Rattle.issue_journal.specs.Issue.{Fixed, fixed_in};

    ghost Value = { Fixed };

    ghost view = { λ f. fixed_in f.room f.place f.first f.second f.third };
}

impl<N: MemoryNode> TurnValue for Issue<N> {
    type Fixed = FixedPart;

    ghost entries = { λ i. i.entries };

    ghost halt = { λ i. i.halt };

    ghost fixed = { λ i. i.fixed };

    fn length(&self) -> u64 {
        Issue::length(self)
    }

    fn halted(&self) -> Option<Halt> {
        Issue::halted(self)
    }
}
