// An issue that keeps its journal in three memory nodes.
ghost use Rattle.std.specs.Prelude.{◌≡◌, ◌<◌, ◌≤◌, [], None, Some, length, slice_get};
ghost use Rattle.mkt_base.specs.declared.journal.NodeState.TheVariants.{Synchronised};
ghost use Rattle.issue_machine.specs.History.{entries_by};
ghost use Rattle.issue_machine.specs.Step.{board_of};
ghost use Rattle.mirror.specs.Replicas.{node_at, replica};
ghost use Rattle.issue_journal.specs.Adopted.{IsNode};
ghost use Rattle.issue_journal.specs.Issue.{IsIssueNow, fixed_in, state_of};

use crate::IssueRoom;
use crate::work::Work;
use memory_node::MemoryNode;
use mirror::Mirror;
use mkt_base::{Board, Caller, Entry, Halt, NodeNo, NodeState, Rows};
use std::marker::Model;

/// An issue: its journal, which three memory nodes mirror, and the state of its trading. Where no node is left to hold an event
/// the issue is halted: all nodes are then lost and empty, the journal stays, and no turn records anything any more.
///
/// No call takes memory.
#[derive(Drop)]
pub struct Issue<N: MemoryNode> {
    pub(crate) work: Work,
    pub(crate) mirror: Mirror<N>,
    pub(crate) halt: Option<Halt>,
    pub(crate) issue: u16,
    pub(crate) place: u64,
}

impl<N: MemoryNode> Model for Issue<N> {
    ghost use Rattle.issue_journal.specs.Inside.{issue_of};
    ghost use Rattle.issue_journal.specs.Issue.{IsIssueNow, IssueNow};

    ghost Value = { IssueNow };

    ghost view = { λ i. issue_of i.work i.mirror i.halt i.issue i.place };

    ghost invariant = { λ i. IsIssueNow (issue_of i.work i.mirror i.halt i.issue i.place) };
}

/// An issue that was closed: its journal, what halted it, and its nodes in their order.
#[derive(Drop)]
pub struct Closed<N: MemoryNode> {
    pub log: Rows<Entry>,
    pub halt: Option<Halt>,
    pub a: N,
    pub b: N,
    pub c: N,
}

impl<N: MemoryNode> Issue<N> {
    /// An issue without entries, of three empty nodes with room for all entries that it takes. They are synchronised.
    pub fn begin(room: IssueRoom, a: N, b: N, c: N) -> Issue<N>
        requires first { (N.contents a ≡ []) × (room.capacity ≤ N.spare a) × (N.most a ≡ 0) }
        requires second { (N.contents b ≡ []) × (room.capacity ≤ N.spare b) × (N.most b ≡ 0) }
        requires third { (N.contents c ≡ []) × (room.capacity ≤ N.spare c) × (N.most c ≡ 0) }
        ensures fixed { result.fixed ≡ fixed_in room 0 (N.label a) (N.label b) (N.label c) }
        ensures entries { result.entries ≡ [] }
        ensures halt { result.halt ≡ None }
        ensures first { result.nodes.first ≡ replica Synchronised (N.contents a) (N.spare a) (N.label a)
            (N.most a) (N.faults a) }
        ensures second { result.nodes.second ≡ replica Synchronised (N.contents b) (N.spare b) (N.label b)
            (N.most b) (N.faults b) }
        ensures third { result.nodes.third ≡ replica Synchronised (N.contents c) (N.spare c) (N.label c)
            (N.most c) (N.faults c) }
        ensures length { result.nodes.length ≡ 0 }
        ensures stands { IsIssueNow result }
    {
        let IssueRoom { work, issue } = room;
        work.stands();
        let mirror = Mirror::make(a, b, c);
        Issue {
            work,
            mirror,
            halt: None,
            issue,
            place: 0,
        }
    }

    /// What the board shows: prices in tenths of a yen, the length in entries. That of a halted issue is the board of its journal.
    pub fn show(&self) -> Board
        ensures { result ≡ board_of self.now.fixed.terms (state_of self.now) }
    {
        self.work.board()
    }

    /// The entry of a place of the journal, from 0 on.
    pub fn entry(&self, at: u64) -> Entry
        requires { at < length self.now.entries }
        ensures { slice_get self.now.entries at ≡ Some result }
    {
        self.work.entry(at)
    }

    /// How many entries the journal has.
    pub fn length(&self) -> u64
        ensures value { result ≡ length self.now.entries }
        ensures few { result ≤ 100000000 }
        ensures stands { IsIssueNow self.now }
    {
        self.work.length()
    }

    /// The next own number of a caller: how many entries it has.
    pub fn next_own(&self, caller: Caller) -> u32
        requires { caller.0 ≤ 16 }
        ensures { result ≡ length (entries_by caller.0 self.now.entries) }
    {
        self.work.next_own(caller)
    }

    /// The event that halted the issue.
    pub fn halted(&self) -> Option<Halt>
        ensures { result ≡ self.now.halt }
    {
        self.halt
    }

    /// The state of a node.
    pub fn node(&self, k: NodeNo) -> NodeState
        ensures { result ≡ (node_at k self.now.nodes).state }
    {
        self.mirror.state(k)
    }

    /// The journal, what halted the issue, and the nodes as they are.
    pub fn close(self) -> Closed<N>
        ensures log { result.log ≡ self.entries }
        ensures halt { result.halt ≡ self.halt }
        ensures first { IsNode self.nodes.first (N.contents result.a) (N.spare result.a) (N.label result.a)
            (N.most result.a) (N.faults result.a) }
        ensures second { IsNode self.nodes.second (N.contents result.b) (N.spare result.b) (N.label result.b)
            (N.most result.b) (N.faults result.b) }
        ensures third { IsNode self.nodes.third (N.contents result.c) (N.spare result.c) (N.label result.c)
            (N.most result.c) (N.faults result.c) }
        ensures stands { IsIssueNow self }
    {
        let Issue {
            work,
            mirror,
            halt,
            ..
        } = self;
        let (a, b, c) = mirror.close();
        Closed {
            log: work.into_rows(),
            halt,
            a,
            b,
            c,
        }
    }
}
