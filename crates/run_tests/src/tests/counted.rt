// Nodes that count what they hold where others can see it while they are at work.
ghost use Rattle.std.specs.Prelude.{IfOk};
ghost use Rattle.memory_node.specs.declared.node.Label.{Label};

use memory_node::{Down, MemNode, MemRack, MemoryNode, Rack, RackFault};
use mkt_base::NodeNo;
use std::alloc::Global;
use std::sync::atomic::{AtomicU64, Ordering};

/// How many records were put to each node number.
#[derive(Drop)]
pub(super) struct Puts {
    first: AtomicU64,
    second: AtomicU64,
    third: AtomicU64,
}

impl Puts {
    pub(super) fn none() -> Puts {
        Puts {
            first: AtomicU64::new(0),
            second: AtomicU64::new(0),
            third: AtomicU64::new(0),
        }
    }

    fn of(&self, k: NodeNo) -> &AtomicU64 {
        match k.n() {
            0 => &self.first,
            1 => &self.second,
            _ => &self.third,
        }
    }

    /// The least of the three counts.
    pub(super) fn least(&self) -> u64 {
        let first = self.first.load(Ordering::SeqCst);
        let second = self.second.load(Ordering::SeqCst);
        let third = self.third.load(Ordering::SeqCst);
        first.min(second).min(third)
    }
}

/// A node that adds one to a count after each record that it has taken.
#[derive(Drop)]
pub(super) struct CountedNode<'a> {
    node: MemNode,
    puts: &'a AtomicU64,
}

impl MemoryNode for CountedNode<'_> {
    ghost contents = { λ n. ⟦<MemNode as MemoryNode>⟧.contents n.node };

    ghost spare = { λ n. ⟦<MemNode as MemoryNode>⟧.spare n.node };

    ghost label = { λ n. ⟦<MemNode as MemoryNode>⟧.label n.node };

    ghost most = { λ n. ⟦<MemNode as MemoryNode>⟧.most n.node };

    ghost faults = { λ n. ⟦<MemNode as MemoryNode>⟧.faults n.node };

    ghost reached = { λ n. n.node.reached };

    fn put(&mut self, rec: &[u8; 48]) -> Result<(), Down> {
        let put = self.node.put(rec);
        if put.is_ok() {
            self.puts.fetch_add(1, Ordering::SeqCst);
        }
        put
    }

    fn read(&mut self, at: u64) -> Result<[u8; 48], Down> {
        self.node.read(at)
    }

    fn wipe(&mut self) {
        self.node.wipe();
    }

    fn len(&self) -> u64 {
        self.node.len()
    }
}

/// A rack of such nodes.
#[derive(Drop)]
pub(super) struct CountedRack<'a> {
    rack: MemRack,
    puts: &'a Puts,
}

/// A rack of which nothing is out and no call fails.
pub(super) fn counted_rack<'a>(alloc: Global, puts: &'a Puts) -> Result<CountedRack<'a>, RackFault>
    ensures { IfOk result (λ r. (l : Label) → ⟦<CountedRack<'a> as Rack>⟧.is_out r l → ⊥) }
{
    match MemRack::make(alloc, Vec::new(alloc)) {
        Ok(rack) => Ok(CountedRack { rack, puts }),
        Err(fault) => Err(fault),
    }
}

impl<'a> Rack for CountedRack<'a> {
    type Node = CountedNode<'a>;

    ghost is_out = { λ r l. ⟦<MemRack as Rack>⟧.is_out r.rack l };

    ghost given = { λ r l. ⟦<MemRack as Rack>⟧.given r.rack l };

    fn take(
        &mut self,
        alloc: Global,
        issue: u16,
        k: NodeNo,
        capacity: u64,
    ) -> Result<CountedNode<'a>, RackFault> {
        let node = self.rack.take(alloc, issue, k, capacity)?;
        let puts = self.puts.of(k);
        Ok(CountedNode { node, puts })
    }

    fn give(&mut self, issue: u16, k: NodeNo, node: CountedNode<'a>) {
        let CountedNode { node, puts: _ } = node;
        self.rack.give(issue, k, node);
    }
}
