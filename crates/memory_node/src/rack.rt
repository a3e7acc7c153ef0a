// The rack: where the nodes of all issues are taken from and given back to.
ghost use Rattle.std.specs.Prelude.{◌≡◌, ◌↔◌, ◌≤◌, Option, Some, [], IfOk, OnOk, OnErr};
ghost use Rattle.memory_node.specs.Given.{Given};
ghost use Rattle.memory_node.specs.declared.node.Label.{Label};

use crate::MemoryNode;
use mkt_base::NodeNo;
use std::alloc::Global;
use thiserror::Error;

/// Why no node was taken.
#[derive(Clone, Copy, Debug, PartialEq, Eq, Error)]
pub enum RackFault {
    /// There is no memory for the node, or for keeping it when it is given back.
    #[error("out of memory")]
    Memory,
}

/// A rack of memory nodes, at most one for each issue and node number at a time.
pub trait Rack {
    type Node: MemoryNode + Send;

    /// The node of this label was taken and not given back.
    ghost is_out: { Self → Label → Type 0 };

    /// What is told of the node of this label that was given back last. Where none was, or where one was taken since, the
    /// rack may tell anything.
    ghost given: { Self → Label → Option Given };

    /// Takes an empty node for an issue, by its number, and a node number, with room for at least `capacity` records. The
    /// room in which `give` keeps the node is taken here too.
    fn take(
        &mut self,
        alloc: Global,
        issue: u16,
        k: NodeNo,
        capacity: u64,
    ) -> Result<Self::Node, RackFault>
        requires { is_out self.old (record { issue = issue; node = k }) → ⊥ }
        ensures empty { IfOk result (λ n. Self.Node.contents n ≡ []) }
        ensures room { IfOk result (λ n. capacity ≤ Self.Node.spare n) }
        ensures label { IfOk result (λ n. Self.Node.label n ≡ record { issue = issue; node = k }) }
        ensures most { IfOk result (λ n. Self.Node.most n ≡ 0) }
        ensures faults { IfOk result (λ n. Self.Node.faults n ≡ 0) }
        ensures out { OnOk result (is_out self.new (record { issue = issue; node = k })) }
        ensures refused { OnErr result ((l : Label) →
            (is_out self.new l ↔ is_out self.old l) × (given self.new l ≡ given self.old l)) }
        ensures others { (l : Label) → (l ≡ record { issue = issue; node = k } → ⊥) →
            (is_out self.new l ↔ is_out self.old l) × (given self.new l ≡ given self.old l) };

    /// Keeps the node of an issue, by its number, and a node number. This takes no memory.
    fn give(&mut self, issue: u16, k: NodeNo, node: Self::Node)
        requires out { is_out self.old (record { issue = issue; node = k }) }
        requires label { Self.Node.label node ≡ record { issue = issue; node = k } }
        ensures returned { given self.new (record { issue = issue; node = k }) ≡ Some (record {
          contents = Self.Node.contents node;
          faults = Self.Node.faults node;
          most = Self.Node.most node;
        }) }
        ensures back { is_out self.new (record { issue = issue; node = k }) → ⊥ }
        ensures others { (l : Label) → (l ≡ record { issue = issue; node = k } → ⊥) →
            (is_out self.new l ↔ is_out self.old l) × (given self.new l ≡ given self.old l) };
}
