// A node in memory, whose calls fail by their numbers.
ghost use Rattle.std.specs.Prelude.{◌≡◌, ◌<◌, ◌≤◌, ◌-◌, max, [], length, vec_len, vec_capacity, IfOk, OnOk, OnErr};
ghost use Rattle.mkt_io.specs.Faults.{Rises};

use crate::{Down, Label, MemoryNode};
use mkt_base::NodeNo;
use std::alloc::Global;
use thiserror::Error;

/// Why no node was made.
#[derive(Clone, Copy, Debug, PartialEq, Eq, Error)]
pub enum NodeFault {
    /// There is no memory for its records.
    #[error("out of memory")]
    Memory,
}

// Which calls fail, and how many calls and faults there were.
#[derive(Drop)]
struct Calls {
    fails: Vec<u64>,
    done: u64,
    faults: u64,
}

impl Calls {
    // Counts a call, which fails where its number is among those that do. The last number, 2^64 - 1, is that of no call.
    #[inline(always)]
    fn next(&mut self) -> Result<(), Down>
        ensures passed { OnOk result (self.new.faults ≡ self.old.faults) }
        ensures failed { OnErr result (Rises self.old.faults self.new.faults) }
        ensures count { self.old.faults ≤ self.new.faults }
    {
        let number = self.done;
        if number == u64::MAX {
            return Ok(());
        }
        self.done = number + 1;
        if self.fails.contains(&number) {
            self.faults = self.faults.saturating_add(1);
            return Err(Down);
        }
        Ok(())
    }
}

/// A node whose records stand in memory that is taken when it is made. Its puts and reads are numbered together from 0 up
/// to 2^64 - 2, and a call with the number of one that is to fail answers `Down`.
#[derive(Drop)]
pub struct MemNode {
    records: Vec<[u8; 48]>,
    room: usize,
    most: usize,
    label: Label,
    calls: Calls,
    ghost roomy: { room ≤ vec_capacity records },
    ghost within: { vec_len records ≤ room },
    ghost reached: { length records.items ≤ most },
}

impl MemNode {
    /// An empty node for an issue, by its number, and a node number, with room for `capacity` records, of which the calls
    /// with the numbers in `fails` fail. The memory for the room is taken here, and none later.
    pub fn make(
        alloc: Global,
        issue: u16,
        k: NodeNo,
        capacity: u64,
        fails: Vec<u64>,
    ) -> Result<MemNode, NodeFault>
        ensures contents { IfOk result (λ n. ⟦<MemNode as MemoryNode>⟧.contents n ≡ []) }
        ensures spare { IfOk result (λ n. ⟦<MemNode as MemoryNode>⟧.spare n ≡ capacity) }
        ensures label { IfOk result (λ n.
            ⟦<MemNode as MemoryNode>⟧.label n ≡ record { issue = issue; node = k }) }
        ensures most { IfOk result (λ n. ⟦<MemNode as MemoryNode>⟧.most n ≡ 0) }
        ensures faults { IfOk result (λ n. ⟦<MemNode as MemoryNode>⟧.faults n ≡ 0) }
    {
        let room = capacity as usize;
        let Ok(records) = Vec::with_capacity(alloc, room) else {
            return Err(NodeFault::Memory);
        };
        let calls = Calls {
            fails,
            done: 0,
            faults: 0,
        };
        Ok(MemNode {
            records,
            room,
            most: 0,
            label: Label { issue, node: k },
            calls,
        })
    }

    // Counts a put or a read. Where it is to fail the records are lost.
    #[inline(always)]
    fn call(&mut self) -> Result<(), Down>
        ensures passed { OnOk result (self.new.records ≡ self.old.records) }
        ensures lost { OnErr result (self.new.records.items ≡ []) }
        ensures failed { OnErr result (Rises self.old.calls.faults self.new.calls.faults) }
        ensures count { self.old.calls.faults ≤ self.new.calls.faults }
        ensures label { self.new.label ≡ self.old.label }
        ensures room { self.new.room ≡ self.old.room }
        ensures most { self.new.most ≡ self.old.most }
    {
        let counted = self.calls.next();
        if counted.is_err() {
            self.records.clear();
        }
        counted
    }

    /// The records that it holds.
    pub fn records(&self) -> &[[u8; 48]]
        ensures { result.now ≡ ⟦<MemNode as MemoryNode>⟧.contents self.now }
    {
        &self.records
    }

    /// The most records that it has held.
    pub fn most(&self) -> u64
        ensures { result ≡ ⟦<MemNode as MemoryNode>⟧.most self.now }
    {
        self.most as u64
    }

    /// How often it has failed, as a number that stops at 2^64 - 1.
    pub fn faults(&self) -> u64
        ensures { result ≡ ⟦<MemNode as MemoryNode>⟧.faults self.now }
    {
        self.calls.faults
    }
}

impl MemoryNode for MemNode {
    ghost contents = { λ n. n.records.items };

    ghost spare = { λ n. n.room - vec_len n.records };

    ghost label = { λ n. n.label };

    ghost most = { λ n. n.most };

    ghost faults = { λ n. n.calls.faults };

    ghost reached = { λ n. n.reached };

    #[inline(always)]
    fn put(&mut self, rec: &[u8; 48]) -> Result<(), Down> {
        self.call()?;
        if self.records.push(*rec).is_err() {
            unreachable!();
        }
        self.most = self.most.max(self.records.len());
        Ok(())
    }

    #[inline(always)]
    fn read(&mut self, at: u64) -> Result<[u8; 48], Down> {
        self.call()?;
        Ok(self.records[at as usize])
    }

    fn wipe(&mut self) {
        self.records.clear();
    }

    fn len(&self) -> u64 {
        self.records.len() as u64
    }
}
