// The rack in memory: a slot for each node of each issue.
ghost use Rattle.std.specs.Prelude.{◌≡◌, ◌+◌, ◌*◌, ◌<◌, ℕ, Some, None, length, IfOk, MatchOption, OnOk};
ghost use Rattle.mkt_base.specs.declared.units.TheConstants.{NODES};
ghost use Rattle.memory_node.specs.Slots.{IsOut, given_at, told_at};
ghost use Rattle.memory_node.specs.declared.node.Label.{Label};

use crate::{MemNode, MemoryNode, Rack, RackFault};
use mkt_base::{NODES, NodeNo};
use std::alloc::{AllocError, Global};

/// The calls of one node that are to fail, by their numbers.
#[derive(Drop)]
pub struct NodeFails {
    /// The issue's number, from 0 on.
    pub issue: u16,
    pub k: NodeNo,
    pub calls: Vec<u64>,
}

// What stands at the place of a node.
#[derive(Drop)]
pub(crate) enum Slot {
    // It was not taken yet.
    Never,
    // It was taken and not given back.
    Out,
    // It was given back.
    Kept(MemNode),
}

/// A rack whose nodes stand in memory. Each node that it gives out fails at the calls that were named for it, also where
/// it is taken again. Of two lists of failing calls for one node the first counts.
#[derive(Drop)]
pub struct MemRack {
    fails: Vec<NodeFails>,
    slots: Vec<Slot>,
}

// The place of a node's slot.
fn place_of(issue: u16, k: NodeNo) -> usize
    ensures place { result ≡ 3 * issue + k }
    ensures a_node { k < NODES }
{
    usize::from(NODES) * usize::from(issue) + usize::from(k.n())
}

// The failing calls that are named for a node.
fn fails_of(
    alloc: Global,
    fails: &[NodeFails],
    issue: u16,
    k: NodeNo,
) -> Result<Vec<u64>, AllocError> {
    for node in fails {
        if node.issue == issue && node.k == k {
            return Vec::from_slice(alloc, &node.calls);
        }
    }
    Ok(Vec::new(alloc))
}

// Adds slots at the end until there is one at this place.
fn grow(slots: &mut Vec<Slot>, place: usize) -> Result<(), AllocError>
    ensures room { OnOk result (place < length slots.new.items) }
    ensures same { (i : ℕ) → told_at slots.new.items i ≡ told_at slots.old.items i }
{
    while slots.len() <= place {
        slots.push(Slot::Never)?;
    }
    Ok(())
}

impl MemRack {
    /// A rack from which nothing is taken yet. Of the nodes that are named in `fails` the calls with these numbers fail.
    pub fn make(alloc: Global, fails: Vec<NodeFails>) -> Result<MemRack, RackFault>
        ensures none_out { IfOk result (λ rack. (l : Label) → ⟦<MemRack as Rack>⟧.is_out rack l → ⊥) }
        ensures none_given { IfOk result (λ rack. (l : Label) → ⟦<MemRack as Rack>⟧.given rack l ≡ None) }
    {
        let slots = Vec::with_capacity(alloc, usize::from(NODES)).map_err(|_| RackFault::Memory)?;
        Ok(MemRack { fails, slots })
    }

    /// The node of an issue, by its number, and a node number; none where it is not in the rack.
    pub fn kept(&self, issue: u16, k: NodeNo) -> Option<&MemNode>
        ensures { let told = ⟦<MemRack as Rack>⟧.given self.now (record { issue = issue; node = k }) in
            MatchOption result (told ≡ None) (λ n. told ≡ Some (record {
              contents = ⟦<MemNode as MemoryNode>⟧.contents n.now;
              faults = ⟦<MemNode as MemoryNode>⟧.faults n.now;
              most = ⟦<MemNode as MemoryNode>⟧.most n.now;
            })) }
    {
        match self.slots.get(place_of(issue, k)) {
            Some(Slot::Kept(node)) => Some(node),
            _ => None,
        }
    }
}

impl Rack for MemRack {
    type Node = MemNode;

    ghost is_out = { λ rack l. IsOut rack.slots.items l };

    ghost given = { λ rack l. given_at rack.slots.items l };

    fn take(
        &mut self,
        alloc: Global,
        issue: u16,
        k: NodeNo,
        capacity: u64,
    ) -> Result<MemNode, RackFault> {
        let place = place_of(issue, k);
        grow(&mut self.slots, place).map_err(|_| RackFault::Memory)?;
        let fails = fails_of(alloc, &self.fails, issue, k).map_err(|_| RackFault::Memory)?;
        let node = MemNode::make(alloc, issue, k, capacity, fails).map_err(|_| RackFault::Memory)?;
        self.slots[place] = Slot::Out;
        Ok(node)
    }

    fn give(&mut self, issue: u16, k: NodeNo, node: MemNode) {
        self.slots[place_of(issue, k)] = Slot::Kept(node);
    }
}
