// The nodes of all lists in one slab, and the two ends of each list. A walk goes from an end by the links, and a change
// writes a node's neighbours, or the end of its list where it has none on that side. Only there is the list's number
// wanted, so that it stands in the place of the neighbour, and a node has no other word of it.
ghost use Rattle.std.specs.Prelude.{◌≡◌, ℕ, ◌<◌, length};
ghost use Rattle.slab.specs.Slab.{ContainsKey};
ghost use Rattle.order_list.specs.Links.{ChangesNode, SetsAfter, SetsBefore};
ghost use Rattle.order_list.specs.declared.link.Beside.TheVariants.{Neighbour, End};

use crate::link::{Beside, Side};
use slab::Slab;
use std::alloc::AllocError;

#[derive(Drop)]
pub(crate) struct Node<T> {
    pub(crate) before: Side,
    pub(crate) after: Side,
    pub(crate) item: T,
}

impl<T: Copy> Clone for Node<T> {
    ghost is_clone = { λ node copy. copy ≡ node };

    fn clone(&self) -> Result<Self, AllocError> {
        Ok(Node {
            before: self.before,
            after: self.after,
            item: self.item,
        })
    }
}

#[derive(Drop)]
pub(crate) struct Ends {
    pub(crate) first: Side,
    pub(crate) last: Side,
}

// Lets `after` follow `before`, or be the first of the list where `before` is its end.
pub(crate) fn set_after<T: Copy>(
    nodes: &mut Slab<Node<T>>,
    ends: &mut [Ends],
    before: Side,
    after: Side,
)
    requires live { (key : ℕ) → before ≡ Neighbour key → ContainsKey nodes.old key }
    requires within { (list : ℕ) → before ≡ End list → list < length ends.old }
    ensures { SetsAfter after before nodes.old ends.old nodes.new ends.new }
{
    match before.beside() {
        Beside::Neighbour(link) => set_after_of(nodes, link.key(), after),
        Beside::End(list) => ends[list as usize].first = after,
    }
}

// Lets `before` come before `after`, or be the last of the list where `after` is its end.
pub(crate) fn set_before<T: Copy>(
    nodes: &mut Slab<Node<T>>,
    ends: &mut [Ends],
    after: Side,
    before: Side,
)
    requires live { (key : ℕ) → after ≡ Neighbour key → ContainsKey nodes.old key }
    requires within { (list : ℕ) → after ≡ End list → list < length ends.old }
    ensures { SetsBefore before after nodes.old ends.old nodes.new ends.new }
{
    match after.beside() {
        Beside::Neighbour(link) => set_before_of(nodes, link.key(), before),
        Beside::End(list) => ends[list as usize].last = before,
    }
}

fn set_after_of<T: Copy>(nodes: &mut Slab<Node<T>>, key: usize, after: Side)
    requires { ContainsKey nodes.old key }
    ensures { ChangesNode (λ n. record n { after = after }) nodes.old key nodes.new }
{
    nodes[key].after = after;
}

fn set_before_of<T: Copy>(nodes: &mut Slab<Node<T>>, key: usize, before: Side)
    requires { ContainsKey nodes.old key }
    ensures { ChangesNode (λ n. record n { before = before }) nodes.old key nodes.new }
{
    nodes[key].before = before;
}

pub(crate) fn set_item<T: Copy>(nodes: &mut Slab<Node<T>>, key: usize, item: T)
    requires { ContainsKey nodes.old key }
    ensures { ChangesNode (λ n. record n { item = item }) nodes.old key nodes.new }
{
    nodes[key].item = item;
}
