// The nodes that a turn lost.
ghost use Rattle.std.specs.Prelude.{◌≡◌, ◌<◌, ◌≤◌, [], ◌∷◌, ◌++◌, Some, length, slice_get};
ghost use Rattle.turn_writer.specs.Went.{without};

use mkt_base::NodeNo;
use std::marker::Model;

/// The nodes that a turn lost, in the order in which they were lost; at most three. Contracts see their numbers.
#[derive(Drop)]
pub struct Lost {
    list: [NodeNo; 3],
    len: usize,
}

impl Model for Lost {
    ghost use Rattle.std.specs.Prelude.{ℕ, List, take, length, ◌≤◌};

    ghost Value = { List ℕ };

    ghost view = { λ l. take l.len l.list };

    ghost invariant = { λ l. (l.len ≤ 3) × (l.len ≤ length l.list) };
}

// The node of a number.
#[inline(always)]
pub(crate) fn node_no(n: u8) -> NodeNo
    requires { n < 3 }
    ensures { result ≡ n }
{
    let Some(k) = NodeNo::new(n) else {
        unreachable!();
    };
    k
}

impl Lost {
    /// No node.
    #[inline(always)]
    pub fn none() -> Lost
        ensures { result ≡ [] }
    {
        Lost {
            list: [node_no(0); 3],
            len: 0,
        }
    }

    /// Adds a node behind those that were lost before it.
    pub fn push(&mut self, k: NodeNo)
        requires { length self.old < 3 }
        ensures { self.new ≡ self.old ++ k ∷ [] }
    {
        self.list[self.len] = k;
        self.len += 1;
    }

    /// How many there are.
    #[inline(always)]
    pub fn len(&self) -> usize
        ensures value { result ≡ length self.now }
        ensures three { result ≤ 3 }
    {
        self.len
    }

    /// The node at a place, from 0 on.
    #[inline(always)]
    pub fn node(&self, i: usize) -> NodeNo
        requires { i < length self.now }
        ensures { slice_get self.now i ≡ Some result }
    {
        self.list[i]
    }

    // The others than this node.
    pub(crate) fn without(&self, k: NodeNo) -> Lost
        ensures rest { result ≡ without k self.now }
        ensures a_node { k < 3 }
    {
        let number = k.n();
        let mut rest = Lost::none();
        for i in 0..self.len() {
            let j = self.node(i);
            if j.n() != number {
                rest.push(j);
            }
        }
        rest
    }
}
