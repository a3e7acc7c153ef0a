// The index: a list of quantities by position, over a tree of their sums.
ghost use Rattle.std.specs.Prelude.{◌≡◌, ◌+◌, ◌-◌, ◌^◌, ◌<◌, ◌≤◌, IfOk, MatchOption, length, replicate, slice_index, slice_set, sum};
ghost use Rattle.depth_index.specs.Depths.{AreDepths, IsFirstReaching, IsNowhereReached, TakesFewSteps, sum_upto};

use crate::Steps;
use crate::tree::{add_at, first_reaching, sub_at, sum_left_of};
use std::alloc::Global;
use std::marker::Model;
use std::sync::ledger::Ledger;

/// Why there is no index.
#[derive(Clone, Copy, Debug, PartialEq, Eq)]
pub enum DepthFault {
    /// There is no memory for the sums.
    Memory,
}

/// A quantity at each of 1 to 20,000 positions, whose sum fits 64 bits. Contracts see the list of the quantities.
#[derive(Debug, Drop)]
pub struct DepthIndex {
    // The tree's root and inner nodes stand below `leaves`, which is 2 to the power `rows`, and the quantities from there on.
    rows: u32,
    leaves: usize,
    sums: Vec<u64>,
}

impl Model for DepthIndex {
    ghost use Rattle.std.specs.Prelude.{List, ℕ, drop};
    ghost use Rattle.depth_index.specs.Tree.{IsIndex};

    ghost Value = { List ℕ };

    ghost view = { λ d. drop d.leaves d.sums.items };

    ghost invariant = { λ d. IsIndex d.rows d.leaves d.sums.items };
}

impl DepthIndex {
    /// An index of so many positions, each with the quantity 0.
    pub fn make(alloc: Global, size: u32) -> Result<DepthIndex, DepthFault>
        requires some { 1 ≤ size }
        requires few { size ≤ 20000 }
        ensures { IfOk result (λ index. index ≡ replicate size 0) }
    {
        let (rows, leaves) = rows_for(size);
        let sums = vec![in alloc; 0u64; leaves + size as usize].map_err(|_| DepthFault::Memory)?;
        Ok(DepthIndex { rows, leaves, sums })
    }

    /// What holds of every index, for those who hold one.
    pub fn stands(&self)
        ensures { AreDepths self.now }
    {
        let _ = &self.rows;
    }

    /// The quantity at a position.
    pub fn at(&self, i: u32) -> u64
        requires { i < length self.now }
        ensures { result ≡ slice_index self.now i }
    {
        self.sums[self.leaves + i as usize]
    }

    /// Adds `qty` to the quantity at a position.
    pub fn add(&mut self, i: u32, qty: u64)
        requires within { i < length self.old }
        requires fits { sum self.old + qty < 2 ^ 64 }
        ensures { self.new ≡ slice_set self.old i (slice_index self.old i + qty) }
    {
        add_at(self.sums.as_mut_slice(), self.leaves, i as usize, qty);
    }

    /// Takes `qty` from the quantity at a position.
    pub fn sub(&mut self, i: u32, qty: u64)
        requires within { i < length self.old }
        requires enough { qty ≤ slice_index self.old i }
        ensures { self.new ≡ slice_set self.old i (slice_index self.old i - qty) }
    {
        sub_at(self.sums.as_mut_slice(), self.leaves, i as usize, qty);
    }

    /// The sum of the quantities at the positions 0 to `i`. A step is one sum read.
    pub fn upto<L: Ledger>(&self, i: u32, steps: &mut Steps<L>) -> u64
        requires { i < length self.now }
        ensures exact { result ≡ sum_upto self.now i }
        ensures steps { TakesFewSteps (length self.now) steps.old steps.new }
    {
        let after = self.leaves + i as usize + 1;
        sum_left_of(self.sums.as_slice(), self.rows, after, steps)
    }

    /// The first position whose `upto` is at least `least`; none exactly where there is none. A step is one sum read.
    pub fn find_first<L: Ledger>(&self, least: u64, steps: &mut Steps<L>) -> Option<u32>
        ensures exact { MatchOption result (IsNowhereReached self.now least) (IsFirstReaching self.now least) }
        ensures steps { TakesFewSteps (length self.now) steps.old steps.new }
    {
        steps.tick();
        if self.sums[1] < least {
            return None;
        }
        let leaf = first_reaching(self.sums.as_slice(), self.rows, least, steps);
        Some((leaf - self.leaves) as u32)
    }
}

// How many rows a tree has below its root so that its last row has more places than `size`, and how many those are.
fn rows_for(size: u32) -> (u32, usize)
    requires some { 1 ≤ size }
    requires few { size ≤ 20000 }
    ensures power { result.1 ≡ 2 ^ result.0 }
    ensures above { size < result.1 }
    ensures digits { result.1 ≤ size + size }
{
    let mut rows = 0;
    let mut leaves = 1;
    while leaves <= size as usize {
        leaves *= 2;
        rows += 1;
    }
    (rows, leaves)
}
