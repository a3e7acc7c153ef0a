// One node of a mirror.
ghost use Rattle.std.specs.Prelude.{◌≡◌, ◌≢◌, ◌+◌, ◌<◌, ◌≤◌, true, false, None, [], ◌∷◌, ◌++◌, length, slice_index_or, IfSome};
ghost use Rattle.mkt_base.specs.declared.journal.NodeState.TheVariants.{Lost, Joining, Synchronised};
ghost use Rattle.mirror.specs.Calls.{Keeps, reached};
ghost use Rattle.mirror.specs.Replicas.{wiped};
ghost use Rattle.mirror.specs.Members.{Failed, WasPut, WasRead};

use memory_node::MemoryNode;
use mkt_base::NodeState;
use std::marker::Model;

// A memory node, and what it holds of the journal.
#[derive(Drop)]
pub(crate) struct Member<N: MemoryNode> {
    pub(crate) node: N,
    pub(crate) state: NodeState,
}

impl<N: MemoryNode> Model for Member<N> {
    ghost use Rattle.mirror.specs.Replicas.{Replica};

    ghost Value = { Replica };

    ghost view = { λ m. record {
      state = m.state;
      contents = N.contents m.node;
      spare = N.spare m.node;
      label = N.label m.node;
      most = N.most m.node;
      faults = N.faults m.node;
    } };
}

impl<N: MemoryNode> Member<N> {
    // Puts a record where the node is synchronised; a node that fails is lost. Whether this call lost it.
    #[inline(always)]
    pub(crate) fn put(&mut self, rec: &[u8; 48]) -> bool
        requires room { self.old.state ≡ Synchronised → 1 ≤ self.old.spare }
        ensures { WasPut rec.now result self.old self.new }
    {
        if self.state != NodeState::Synchronised {
            return false;
        }
        if self.node.put(rec).is_ok() {
            return false;
        }
        self.state = NodeState::Lost;
        true
    }

    // How many records the node holds, where it is synchronised.
    #[inline(always)]
    pub(crate) fn held(&self) -> Option<u64>
        ensures held { IfSome result (λ n. n ≡ length self.now.contents) }
        ensures synchronised { IfSome result (λ _. self.now.state ≡ Synchronised) }
        ensures none { result ≡ None → self.now.state ≢ Synchronised }
    {
        if self.state == NodeState::Synchronised {
            Some(self.node.len())
        } else {
            None
        }
    }

    // The record at a place, where the node is synchronised; a node that fails is lost.
    #[inline(always)]
    pub(crate) fn read(&mut self, at: u64) -> Option<[u8; 48]>
        requires within { self.old.state ≡ Synchronised → at < length self.old.contents }
        ensures read { IfSome result (λ rec. rec ≡ slice_index_or self.old.contents at rec) }
        ensures source { IfSome result (λ _. self.old.state ≡ Synchronised) }
        ensures none { result ≡ None → self.new.state ≢ Synchronised }
        ensures was_read { WasRead self.old self.new }
    {
        if self.state != NodeState::Synchronised {
            return None;
        }
        if let Ok(rec) = self.node.read(at) {
            return Some(rec);
        }
        self.state = NodeState::Lost;
        None
    }

    // Puts the record at a place to the node, which joins a journal of this length and has all records before; a node that
    // fails is lost. Whether it stayed.
    #[inline(always)]
    pub(crate) fn copy(&mut self, rec: &[u8; 48], at: u64, entries: u64) -> bool
        requires joining { self.old.state ≡ Joining at }
        requires within { at < entries }
        requires room { 1 ≤ self.old.spare }
        ensures state { result ≡ true → self.new.state ≡ reached entries (at + 1) }
        ensures put { result ≡ true → self.new.contents ≡ self.old.contents ++ rec.now ∷ [] }
        ensures lost { result ≡ false → Failed self.old self.new }
        ensures keeps { Keeps (length self.new.contents) self.old self.new }
    {
        if self.node.put(rec).is_err() {
            self.state = NodeState::Lost;
            return false;
        }
        let next = at + 1;
        self.state = if next < entries {
            NodeState::Joining(next)
        } else {
            NodeState::Synchronised
        };
        true
    }

    // Empties the node and makes it lost.
    pub(crate) fn wipe(&mut self)
        ensures { self.new ≡ wiped self.old }
    {
        self.node.wipe();
        self.state = NodeState::Lost;
    }
}
