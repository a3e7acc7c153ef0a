// Reads the journal of an issue that was left back from its nodes.
ghost use Rattle.std.specs.Prelude.{◌≡◌, ◌+◌, ◌<◌, ◌≤◌, ◌^◌, ℕ, List, [], ◌∷◌, ◌++◌, true, false, None, Some, length, map, max, slice_index_or, vec_capacity, IfSome};
ghost use Rattle.mkt_base.specs.declared.event.Entry.{Entry};
ghost use Rattle.record_codec.specs.Entry.{Spells, spelling};
ghost use Rattle.node_rules.specs.Nodes.{node_step};
ghost use Rattle.issue_machine.specs.History.{entries_by, nodes_after};
ghost use Rattle.issue_journal.specs.Reading.{AreLeft, HoldsOf, WasTried, is_gone};

use crate::work::push;
use memory_node::MemoryNode;
use mkt_base::{Entry, NodeState};
use node_rules::node_step;
use record_codec::decode;
use std::marker::Model;

// A node that an issue left.
#[derive(Drop)]
pub(crate) struct LeftNode<N: MemoryNode> {
    pub(crate) node: N,
}

impl<N: MemoryNode> Model for LeftNode<N> {
    ghost use Rattle.mirror.specs.Replicas.{Replica};
    ghost use Rattle.issue_journal.specs.Reading.{seen};

    ghost Value = { Replica };

    ghost view = { λ l. seen (N.contents l.node) (N.spare l.node) (N.label l.node) (N.most l.node) (N.faults l.node) };
}

impl<N: MemoryNode> LeftNode<N> {
    // The record at a place, where the node has so many records and does not fail.
    fn read(&mut self, end: u64, at: u64) -> Option<[u8; 48]>
        requires { at < end }
        ensures tried { WasTried end self.old self.new }
        ensures read { IfSome result (λ rec. (entries : List Entry) → HoldsOf entries end self.old →
            rec ≡ slice_index_or (map spelling entries) at rec) }
        ensures none { result ≡ None → length self.new.contents ≡ end → ⊥ }
    {
        if self.node.len() != end {
            return None;
        }
        self.node.read(at).ok()
    }

    // Whether the node was synchronised, and has not all records any more.
    pub(crate) fn is_gone(&self, end: u64, state: NodeState) -> bool
        ensures { result ≡ is_gone end state self.now }
    {
        state == NodeState::Synchronised && self.node.len() != end
    }
}

// The greatest length of three nodes.
pub(crate) fn longest<N: MemoryNode>(
    first: &LeftNode<N>,
    second: &LeftNode<N>,
    third: &LeftNode<N>,
) -> u64
    ensures { result ≡ max (max (length first.now.contents) (length second.now.contents)) (length third.now.contents) }
{
    first
        .node
        .len()
        .max(second.node.len())
        .max(third.node.len())
}

// The record at a place, from the first of three nodes that has so many records and does not fail.
fn read_any<N: MemoryNode>(
    first: &mut LeftNode<N>,
    second: &mut LeftNode<N>,
    third: &mut LeftNode<N>,
    end: u64,
    at: u64,
) -> Option<[u8; 48]>
    requires { at < end }
    ensures first_tried { WasTried end first.old first.new }
    ensures second_tried { WasTried end second.old second.new }
    ensures third_tried { WasTried end third.old third.new }
    ensures read { IfSome result (λ rec. (entries : List Entry) → AreLeft entries end first.old second.old third.old →
        rec ≡ slice_index_or (map spelling entries) at rec) }
    ensures first_none { result ≡ None → length first.new.contents ≡ end → ⊥ }
    ensures second_none { result ≡ None → length second.new.contents ≡ end → ⊥ }
    ensures third_none { result ≡ None → length third.new.contents ≡ end → ⊥ }
{
    if let Some(rec) = first.read(end, at) {
        return Some(rec);
    }
    if let Some(rec) = second.read(end, at) {
        return Some(rec);
    }
    third.read(end, at)
}

// The entry of a record; none where the bytes are no spelling of one at this place.
fn entry_of(rec: &[u8; 48], at: u64) -> Option<Entry>
    ensures { (e : Entry) → Spells rec.now at e → result ≡ Some e }
{
    match decode(rec, at) {
        Ok(entry) => Some(entry),
        Err(_) => None,
    }
}

// Reads all entries into a list with room for them. Whether some node answered for each.
pub(crate) fn read_all<N: MemoryNode>(
    first: &mut LeftNode<N>,
    second: &mut LeftNode<N>,
    third: &mut LeftNode<N>,
    end: u64,
    log: &mut Vec<Entry>,
) -> bool
    requires empty { log.old.items ≡ [] }
    requires room { end ≤ vec_capacity log.old }
    ensures first_tried { WasTried end first.old first.new }
    ensures second_tried { WasTried end second.old second.new }
    ensures third_tried { WasTried end third.old third.new }
    ensures read { result ≡ true → (entries : List Entry) → AreLeft entries end first.old second.old third.old → log.new.items ≡ entries }
    ensures first_none { result ≡ false → (entries : List Entry) → AreLeft entries end first.old second.old third.old →
        length first.new.contents ≡ end → ⊥ }
    ensures second_none { result ≡ false → (entries : List Entry) → AreLeft entries end first.old second.old third.old →
        length second.new.contents ≡ end → ⊥ }
    ensures third_none { result ≡ false → (entries : List Entry) → AreLeft entries end first.old second.old third.old →
        length third.new.contents ≡ end → ⊥ }
    ensures capacity { vec_capacity log.new ≡ vec_capacity log.old }
{
    for at in 0..end {
        let Some(rec) = read_any(first, second, third, end, at) else {
            return false;
        };
        let Some(entry) = entry_of(&rec, at) else {
            return false;
        };
        push(log, &entry);
    }
    true
}

// The states of the nodes after an entry more.
fn advance(nodes: &mut [NodeState; 3], place: u64, entry: &Entry)
    requires { place + 1 < 2 ^ 64 }
    ensures { nodes.new ≡ node_step place entry.now.caller.0 entry.now.event nodes.old }
{
    let next = node_step(place, entry.caller, &entry.event, *nodes);
    *nodes = next;
}

// The states of the nodes after a journal.
pub(crate) fn nodes_after(journal: &[Entry]) -> [NodeState; 3]
    requires { length journal.now + 1 < 2 ^ 64 }
    ensures { result ≡ nodes_after journal.now }
{
    let mut nodes = [NodeState::Synchronised; 3];
    for i in 0..journal.len() {
        advance(&mut nodes, i as u64, &journal[i]);
    }
    nodes
}

// How many entries are the system's.
pub(crate) fn system_entries(journal: &[Entry]) -> u32
    requires { length journal.now < 2 ^ 32 }
    ensures { result ≡ length (entries_by 0 journal.now) }
{
    let mut count = 0;
    for i in 0..journal.len() {
        if journal[i].caller.0 == 0 {
            count += 1;
        }
    }
    count
}
