// The memory node: where the records of a journal are held.
ghost use Rattle.std.specs.Prelude.{◌≡◌, ◌+◌, ◌<◌, ◌≤◌, ℕ, List, [], ◌∷◌, ◌++◌, max, length, slice_index_or, IfOk, OnOk, OnErr};
ghost use Rattle.mkt_io.specs.Faults.{Rises};
ghost use Rattle.memory_node.specs.declared.node.Label.{Label};

use mkt_base::NodeNo;
use thiserror::Error;

/// A call of a node failed: its count of faults rose, and it holds nothing any more.
#[derive(Clone, Copy, Debug, PartialEq, Eq, Error)]
#[error("the memory node is down")]
pub struct Down;

/// The issue, by its number from 0 on, and the node number that a node was made for.
#[derive(Clone, Copy, Debug, PartialEq, Eq)]
pub struct Label {
    pub issue: u16,
    pub node: NodeNo,
}

/// A memory node. It holds a list of records of 48 bytes, in memory that was taken when it was made.
///
/// A call that fails loses all that the node held. The node may be used on: then it begins again, empty. A node may be let
/// go, so a caller who finds no memory halfway need not give back the nodes that it took.
pub trait MemoryNode: Drop {
    /// The records that it holds.
    ghost contents: { Self → List (List ℕ) };

    /// How many more records it has room for.
    ghost spare: { Self → ℕ };

    /// What it was made for.
    ghost label: { Self → Label };

    /// The most records that it has held.
    ghost most: { Self → ℕ };

    /// How often it has failed, as a u64 that stops at its last value.
    ghost faults: { Self → ℕ };

    /// Adds a record behind those that it holds.
    fn put(&mut self, rec: &[u8; 48]) -> Result<(), Down>
        requires { 0 < spare self.old }
        ensures put { OnOk result (contents self.new ≡ contents self.old ++ rec.now ∷ []) }
        ensures lost { OnErr result (contents self.new ≡ []) }
        ensures failed { OnErr result (Rises (faults self.old) (faults self.new)) }
        ensures count { faults self.old ≤ faults self.new }
        ensures label { label self.new ≡ label self.old }
        ensures room { length (contents self.new) + spare self.new
            ≡ length (contents self.old) + spare self.old }
        ensures most { most self.new ≡ max (most self.old) (length (contents self.new)) };

    /// The record at a place, from 0 on.
    fn read(&mut self, at: u64) -> Result<[u8; 48], Down>
        requires { at < length (contents self.old) }
        ensures read { IfOk result (λ rec. rec ≡ slice_index_or (contents self.old) at rec) }
        ensures kept { OnOk result (contents self.new ≡ contents self.old) }
        ensures lost { OnErr result (contents self.new ≡ []) }
        ensures failed { OnErr result (Rises (faults self.old) (faults self.new)) }
        ensures count { faults self.old ≤ faults self.new }
        ensures label { label self.new ≡ label self.old }
        ensures room { length (contents self.new) + spare self.new
            ≡ length (contents self.old) + spare self.old }
        ensures most { most self.new ≡ most self.old };

    /// Empties the node. This cannot fail.
    fn wipe(&mut self)
        ensures empty { contents self.new ≡ [] }
        ensures count { faults self.new ≡ faults self.old }
        ensures label { label self.new ≡ label self.old }
        ensures room { spare self.new ≡ length (contents self.old) + spare self.old }
        ensures most { most self.new ≡ most self.old };

    /// How many records it holds.
    fn len(&self) -> u64
        ensures { result ≡ length (contents self.now) };

    /// It never held fewer records than it holds now.
    ghost reached: { (n : Self) → length (contents n) ≤ most n };
}
