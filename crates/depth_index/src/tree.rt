// A complete binary tree of sums in one list. Node 1 is the root, and the children of node k are the nodes 2k and 2k + 1;
// from `leaves` on stand the quantities. A node has the sum of what stands under it. So a search and a sum go a row at a
// time through one piece of memory, and the rows near the root, which every call reads, lie beside one another.
ghost use Rattle.std.specs.Prelude.{◌≡◌, ◌+◌, ◌-◌, ◌*◌, ◌^◌, ◌<◌, ◌≤◌, drop, length, slice_index, slice_set, sum};
ghost use Rattle.depth_index.specs.Tree.{IsSumTree, left_of};

use crate::Steps;
use std::sync::ledger::Ledger;

// The sum of what stands left of a node in its row, so many rows below the root.
pub(crate) fn sum_left_of<L: Ledger>(
    sums: &[u64],
    rows: u32,
    node: usize,
    steps: &mut Steps<L>,
) -> u64
    requires first { 2 ^ rows ≤ node }
    requires last { node < 2 * 2 ^ rows }
    requires within { node ≤ length sums.now }
    requires unused { slice_index sums.now 0 ≡ 0 }
    requires narrow { 2 ^ rows < 2 ^ 32 }
    requires fits { left_of sums.now rows node < 2 ^ 64 }
    ensures exact { result ≡ left_of sums.now rows node }
    ensures steps { steps.new ≡ steps.old + rows }
{
    let mut left = 0;
    let mut at = node;
    for _row in 0..rows {
        // A left child has no sister on its left, and reads the unused first place, which is 0: so no branch is taken.
        left += sums[(at - 1) * (at % 2)];
        at /= 2;
        steps.tick();
    }
    left
}

// The first leaf at which the sum from the left reaches `least`.
pub(crate) fn first_reaching<L: Ledger>(
    sums: &[u64],
    rows: u32,
    least: u64,
    steps: &mut Steps<L>,
) -> usize
    requires tree { IsSumTree (2 ^ rows) sums.now }
    requires some { 2 ^ rows < length sums.now }
    requires short { length sums.now < 2 * 2 ^ rows }
    requires narrow { 2 ^ rows < 2 ^ 32 }
    requires reached { least ≤ slice_index sums.now 1 }
    ensures from { 2 ^ rows ≤ result }
    ensures within { result < length sums.now }
    ensures reached { least ≤ left_of sums.now rows result + slice_index sums.now result }
    ensures before { 2 ^ rows < result → left_of sums.now rows result < least }
    ensures steps { steps.new ≡ steps.old + rows }
{
    let mut node = 1;
    let mut rest = least;
    for _row in 0..rows {
        node *= 2;
        let left = sums[node];
        if left < rest {
            rest -= left;
            node += 1;
        }
        steps.tick();
    }
    node
}

// Adds to the quantity at a position, and to every sum over it.
pub(crate) fn add_at(sums: &mut [u64], leaves: usize, i: usize, qty: u64)
    requires tree { IsSumTree leaves sums.old }
    requires within { leaves + i < length sums.old }
    requires short { length sums.old < 2 * leaves }
    requires narrow { leaves < 2 ^ 32 }
    requires fits { slice_index sums.old 1 + qty < 2 ^ 64 }
    ensures tree { IsSumTree leaves sums.new }
    ensures leaves { drop leaves sums.new ≡ slice_set (drop leaves sums.old) i (slice_index (drop leaves sums.old) i + qty) }
{
    let mut node = leaves + i;
    while node > 0 {
        sums[node] += qty;
        node /= 2;
    }
}

// Takes from the quantity at a position, and from every sum over it.
pub(crate) fn sub_at(sums: &mut [u64], leaves: usize, i: usize, qty: u64)
    requires tree { IsSumTree leaves sums.old }
    requires within { leaves + i < length sums.old }
    requires short { length sums.old < 2 * leaves }
    requires narrow { leaves < 2 ^ 32 }
    requires enough { qty ≤ slice_index (drop leaves sums.old) i }
    ensures tree { IsSumTree leaves sums.new }
    ensures leaves { drop leaves sums.new ≡ slice_set (drop leaves sums.old) i (slice_index (drop leaves sums.old) i - qty) }
{
    let mut node = leaves + i;
    while node > 0 {
        sums[node] -= qty;
        node /= 2;
    }
}
