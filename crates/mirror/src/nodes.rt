// The mirror.
ghost use Rattle.std.specs.Prelude.{◌≡◌, ◌+◌, ◌≤◌, ◌≢◌, ℕ, List, [], ◌∷◌, ◌++◌, true, false, None, length, IfOk, IfSome, OnOk, OnErr};
ghost use Rattle.mkt_base.specs.declared.journal.NodeState.TheVariants.{Lost, Joining, Synchronised};
ghost use Rattle.record_codec.specs.Entry.{spelling};
ghost use Rattle.mirror.specs.Calls.{AllFell, BecameAll, HasRoom, IsJoining, KeepsAll, caught, is_named, lacks};
ghost use Rattle.mirror.specs.Members.{CameAll, WasPut};
ghost use Rattle.mirror.specs.Mirrored.{AreMirrored, HoldsAs, Mirrors, MirrorsSome};
ghost use Rattle.mirror.specs.Replicas.{fell, node_at, replica, state_at, states, wiped, with_node, with_state};

use crate::copying::fill;
use crate::member::Member;
use crate::{Kept, NoNode};
use memory_node::MemoryNode;
use mkt_base::{Entry, NodeNo, NodeState};
use record_codec::encode;
use std::marker::Model;

// Puts a record to each of three nodes that is synchronised. Which of them this lost.
#[inline(always)]
fn put_all<N: MemoryNode>(
    a: &mut Member<N>,
    b: &mut Member<N>,
    c: &mut Member<N>,
    rec: &[u8; 48],
) -> [bool; 3]
    requires first { a.old.state ≡ Synchronised → 1 ≤ a.old.spare }
    requires second { b.old.state ≡ Synchronised → 1 ≤ b.old.spare }
    requires third { c.old.state ≡ Synchronised → 1 ≤ c.old.spare }
    ensures first { WasPut rec.now (is_named result 0) a.old a.new }
    ensures second { WasPut rec.now (is_named result 1) b.old b.new }
    ensures third { WasPut rec.now (is_named result 2) c.old c.new }
{
    let first = a.put(rec);
    let second = b.put(rec);
    let third = c.put(rec);
    [first, second, third]
}

// How many records the first synchronised node of three holds.
#[inline(always)]
fn held<N: MemoryNode>(a: &Member<N>, b: &Member<N>, c: &Member<N>) -> Option<u64>
    ensures held { IfSome result (λ n. (journal : List (List ℕ)) → HoldsAs journal a.now.state a.now.contents →
        HoldsAs journal b.now.state b.now.contents → HoldsAs journal c.now.state c.now.contents → n ≡ length journal) }
    ensures first { result ≡ None → a.now.state ≢ Synchronised }
    ensures second { result ≡ None → b.now.state ≢ Synchronised }
    ensures third { result ≡ None → c.now.state ≢ Synchronised }
{
    if let Some(n) = a.held() {
        return Some(n);
    }
    if let Some(n) = b.held() {
        return Some(n);
    }
    c.held()
}

// Whether a node was lost between these states.
fn fell(before: NodeState, after: NodeState) -> bool
    ensures { result ≡ fell before after }
{
    before != NodeState::Lost && after == NodeState::Lost
}

/// The three memory nodes of an issue, 0 to 2, each with its state, and the length of the journal that they mirror. Of a
/// mirror there is always a journal that its nodes mirror.
///
/// A call of a node may fail at any time. The node is then lost, which the answer tells, and the others go on.
#[derive(Drop)]
pub struct Mirror<N: MemoryNode> {
    first: Member<N>,
    second: Member<N>,
    third: Member<N>,
    entries: u64,
}

impl<N: MemoryNode> Model for Mirror<N> {
    ghost use Rattle.mirror.specs.Mirrored.{MirrorsSome};
    ghost use Rattle.mirror.specs.Replicas.{Replicas};

    ghost Value = { Replicas };

    ghost view = { λ m. record { first = m.first; second = m.second; third = m.third; length = m.entries } };

    ghost invariant = { λ m. MirrorsSome (record {
      first = m.first;
      second = m.second;
      third = m.third;
      length = m.entries;
    }) };
}

impl<N: MemoryNode> Mirror<N> {
    /// The mirror of an empty journal, of three empty nodes. They are synchronised.
    pub fn make(a: N, b: N, c: N) -> Mirror<N>
        requires first { N.contents a ≡ [] }
        requires second { N.contents b ≡ [] }
        requires third { N.contents c ≡ [] }
        ensures first { result.first ≡ replica Synchronised (N.contents a) (N.spare a) (N.label a)
            (N.most a) (N.faults a) }
        ensures second { result.second ≡ replica Synchronised (N.contents b) (N.spare b) (N.label b)
            (N.most b) (N.faults b) }
        ensures third { result.third ≡ replica Synchronised (N.contents c) (N.spare c) (N.label c)
            (N.most c) (N.faults c) }
        ensures length { result.length ≡ 0 }
        ensures mirrored { Mirrors [] result }
    {
        Mirror::resume(a, b, c, [NodeState::Synchronised; 3], 0)
    }

    /// The mirror of a journal of so many entries, of three nodes that mirror it in these states.
    pub fn resume(a: N, b: N, c: N, states: [NodeState; 3], entries: u64) -> Mirror<N>
        requires mirrored { (journal : List (List ℕ)) × AreMirrored journal entries (state_at states 0) (state_at states 1)
            (state_at states 2) (N.contents a) (N.contents b) (N.contents c) }
        ensures first { result.first ≡ replica (state_at states 0) (N.contents a) (N.spare a) (N.label a)
            (N.most a) (N.faults a) }
        ensures second { result.second ≡ replica (state_at states 1) (N.contents b) (N.spare b) (N.label b)
            (N.most b) (N.faults b) }
        ensures third { result.third ≡ replica (state_at states 2) (N.contents c) (N.spare c) (N.label c)
            (N.most c) (N.faults c) }
        ensures length { result.length ≡ entries }
    {
        Mirror {
            first: Member {
                node: a,
                state: states[0],
            },
            second: Member {
                node: b,
                state: states[1],
            },
            third: Member {
                node: c,
                state: states[2],
            },
            entries,
        }
    }

    /// The state of a node.
    #[inline(always)]
    pub fn state(&self, k: NodeNo) -> NodeState
        ensures value { result ≡ (node_at k self.now).state }
        ensures mirrored { MirrorsSome self.now }
    {
        match k.n() {
            0 => self.first.state,
            1 => self.second.state,
            _ => self.third.state,
        }
    }

    /// How many entries the journal has.
    #[inline(always)]
    pub fn length(&self) -> u64
        ensures value { result ≡ self.now.length }
        ensures mirrored { MirrorsSome self.now }
    {
        self.entries
    }

    /// Puts an entry to each synchronised node, 0 first, at the end of the journal. A node that fails is lost, and the answer
    /// names it. Where each synchronised node fails, or there is none, the journal stays as it was.
    #[inline(always)]
    pub fn append(&mut self, entry: &Entry) -> Result<Kept, NoNode>
        requires place { entry.now.place ≡ self.old.length }
        requires room { HasRoom 1 self.old }
        ensures kept { OnOk result ((journal : List (List ℕ)) → Mirrors journal self.old →
            Mirrors (journal ++ spelling entry.now ∷ []) self.new) }
        ensures length { OnOk result (self.new.length ≡ self.old.length + 1) }
        ensures lost { IfOk result (λ kept. BecameAll self.old kept.lost self.old self.new) }
        ensures no_node { OnErr result (AllFell self.old self.new) }
        ensures mirrored { OnErr result ((journal : List (List ℕ)) → Mirrors journal self.old → Mirrors journal self.new) }
        ensures same_length { OnErr result (self.new.length ≡ self.old.length) }
        ensures keeps { KeepsAll self.old self.new }
    {
        let rec = encode(entry);
        let lost = put_all(&mut self.first, &mut self.second, &mut self.third, &rec);
        let Some(entries) = held(&self.first, &self.second, &self.third) else {
            return Err(NoNode);
        };
        self.entries = entries;
        Ok(Kept { lost })
    }

    /// Empties a node and makes it lost.
    pub fn crash(&mut self, k: NodeNo)
        ensures node { self.new ≡ with_node k (wiped (node_at k self.old)) self.old }
        ensures mirrored { (journal : List (List ℕ)) → Mirrors journal self.old → Mirrors journal self.new }
        ensures keeps { KeepsAll self.old self.new }
    {
        match k.n() {
            0 => self.first.wipe(),
            1 => self.second.wipe(),
            _ => self.third.wipe(),
        }
    }

    /// Lets a lost node join, which then holds none of the journal yet. The journal has an entry at least.
    pub fn rejoin(&mut self, k: NodeNo)
        requires lost { (node_at k self.old).state ≡ Lost }
        requires entries { 1 ≤ self.old.length }
        ensures node { self.new ≡ with_state k (Joining 0) self.old }
        ensures mirrored { (journal : List (List ℕ)) → Mirrors journal self.old → Mirrors journal self.new }
        ensures keeps { KeepsAll self.old self.new }
    {
        match k.n() {
            0 => self.first.state = NodeState::Joining(0),
            1 => self.second.state = NodeState::Joining(0),
            _ => self.third.state = NodeState::Joining(0),
        }
    }

    // Copies the next `limit` records to a joining node, or all that it lacks, until it fails. Whether there was a source for
    // each.
    fn fill(&mut self, k: NodeNo, limit: u64) -> bool
        requires joining { IsJoining (node_at k self.old).state }
        requires room { lacks self.old.length (node_at k self.old).state ≤ (node_at k self.old).spare }
        ensures came { result ≡ true →
            CameAll (with_state k (caught limit self.old.length (node_at k self.old).state) self.old) self.old self.new }
        ensures fell { result ≡ false → AllFell (with_node k (node_at k self.new) self.old) self.new }
        ensures joins { result ≡ false → IsJoining (node_at k self.new).state }
        ensures mirrored { (journal : List (List ℕ)) → Mirrors journal self.old → Mirrors journal self.new }
        ensures length { self.new.length ≡ self.old.length }
        ensures keeps { KeepsAll self.old self.new }
    {
        match k.n() {
            0 => fill(
                &mut self.first,
                &mut self.second,
                &mut self.third,
                limit,
                self.entries,
            ),
            1 => fill(
                &mut self.second,
                &mut self.first,
                &mut self.third,
                limit,
                self.entries,
            ),
            _ => fill(
                &mut self.third,
                &mut self.first,
                &mut self.second,
                limit,
                self.entries,
            ),
        }
    }

    /// The states of the nodes 0, 1 and 2.
    #[inline(always)]
    pub fn states(&self) -> [NodeState; 3]
        ensures value { result ≡ states self.now }
        ensures mirrored { MirrorsSome self.now }
    {
        [self.first.state, self.second.state, self.third.state]
    }

    /// Copies the next `limit` records to a joining node, or all that it lacks where these are fewer; a node that then has
    /// all records is synchronised. They are read from the synchronised node of the lowest number, and where that fails from
    /// the next. A node that fails is lost, also the one that joins, and the answer names it. Where no synchronised node is
    /// left to read from, the node has joined as far as it came.
    pub fn catch_up(&mut self, k: NodeNo, limit: u64) -> Result<Kept, NoNode>
        requires joining { IsJoining (node_at k self.old).state }
        requires room { lacks self.old.length (node_at k self.old).state ≤ (node_at k self.old).spare }
        ensures lost { IfOk result (λ kept. BecameAll
            (with_state k (caught limit self.old.length (node_at k self.old).state) self.old) kept.lost self.old self.new) }
        ensures no_node { OnErr result (AllFell (with_node k (node_at k self.new) self.old) self.new) }
        ensures joins { OnErr result (IsJoining (node_at k self.new).state) }
        ensures mirrored { (journal : List (List ℕ)) → Mirrors journal self.old → Mirrors journal self.new }
        ensures length { self.new.length ≡ self.old.length }
        ensures keeps { KeepsAll self.old self.new }
    {
        let before = self.states();
        if !self.fill(k, limit) {
            return Err(NoNode);
        }
        let after = self.states();
        Ok(Kept {
            lost: [
                fell(before[0], after[0]),
                fell(before[1], after[1]),
                fell(before[2], after[2]),
            ],
        })
    }

    /// The three nodes, in their order, as they are.
    pub fn close(self) -> (N, N, N)
        ensures first { self.first ≡ replica self.first.state (N.contents result.0) (N.spare result.0) (N.label result.0)
            (N.most result.0) (N.faults result.0) }
        ensures second { self.second ≡ replica self.second.state (N.contents result.1) (N.spare result.1) (N.label result.1)
            (N.most result.1) (N.faults result.1) }
        ensures third { self.third ≡ replica self.third.state (N.contents result.2) (N.spare result.2) (N.label result.2)
            (N.most result.2) (N.faults result.2) }
    {
        (self.first.node, self.second.node, self.third.node)
    }
}
