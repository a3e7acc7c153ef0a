// The lists: items in order by list number, each named by its link.
ghost use Rattle.std.specs.Prelude.{◌≡◌, ℕ, ◌+◌, ◌<◌, ◌≤◌, [], IfOk, IfSome, IsOk, OnOk, Some, length, option_map, replicate, slice_get};
ghost use Rattle.std.specs.List.{after_first};
ghost use Rattle.slab.specs.Slab.{ContainsKey, HasRoomFor};
ghost use Rattle.order_list.specs.Links.{AddsNode, AreEmpty, IsGrown, PutsBetween};
ghost use Rattle.order_list.specs.declared.link.Beside.TheVariants.{Neighbour, End};
ghost use Rattle.order_list.specs.Lists.{AreLists, IsFresh, IsIn, IsLive, OthersStay, Stay, first_link, is_at, list_at, with_before, with_item, with_last, without};

use crate::link::{Link, MOST, Side};
use crate::node::{Ends, Node, set_after, set_before, set_item};
use slab::Slab;
use std::alloc::{AllocError, Global};
use std::marker::Model;

/// Why there is no room for a list or an item.
#[derive(Clone, Copy, Debug, PartialEq, Eq)]
pub enum ListFault {
    /// There is no memory for it.
    Memory,
}

/// Doubly linked lists of items, by number from 0 on. Contracts see, for each list, its items in order, each with the link
/// that names it, and how many more items can be put in without memory (`spare`). A link stays live, and names the same
/// item in the same list, until it is unlinked; each clause gives all lists after a call, so what it does not touch is as
/// before. Every call but `make` and `reserve` takes constant time and no memory.
#[derive(Drop)]
pub struct OrderList<T: Copy> {
    nodes: Slab<Node<T>>,
    ends: Vec<Ends>,
}

impl<T: Copy> Model for OrderList<T> {
    ghost use Rattle.order_list.specs.Lists.{Lists, lists_code};

    ghost Value = { Lists T };

    ghost coded = { lists_code T.code };

    ghost use Rattle.order_list.specs.Links.{IsSound, shown};

    ghost view = { λ l. shown l.nodes l.ends.items };

    ghost invariant = { λ l. IsSound l.nodes l.ends.items };
}

impl<T: Copy> OrderList<T> {
    ghost use Rattle.std.specs.Borrow.{sem};
    ghost use Rattle.order_list.specs.Lending.{LendsItem};

    /// So many empty lists, with no room for an item yet. There is no memory for more than 2,147,483,648 of them.
    pub fn make(alloc: Global, lists: u32) -> Result<OrderList<T>, ListFault>
        ensures { IfOk result (λ made. made ≡ record { lists = replicate lists []; spare = 0 }) }
    {
        if lists > MOST {
            return Err(ListFault::Memory);
        }
        let ends = empty_ends(alloc, lists).map_err(|_| ListFault::Memory)?;
        Ok(OrderList {
            nodes: Slab::new(alloc),
            ends,
        })
    }

    /// Makes room for `n` more items, in all for at most 2,147,483,648. What room there was stays, whatever is answered.
    /// Items that are there already are copied.
    pub fn reserve(&mut self, _alloc: Global, n: u32) -> Result<(), ListFault>
        ensures room { OnOk result (n ≤ self.new.spare) }
        ensures lists { self.new.lists ≡ self.old.lists }
        ensures kept { self.old.spare ≤ self.new.spare }
        ensures succeeds { n ≤ self.old.spare → IsOk result }
    {
        let more = n as usize;
        if more > self.spare() {
            self.nodes = with_room(&self.nodes, more)?;
        }
        Ok(())
    }

    /// How many more items can be put in without memory.
    pub fn spare(&self) -> usize
        ensures { result ≡ self.now.spare }
    {
        self.nodes.capacity() - self.nodes.len()
    }

    /// What holds of all lists, for those who hold them.
    pub fn stands(&self)
        ensures { AreLists self.now.lists }
    {
        let _ = &self.nodes;
    }

    /// Puts an item at the end of a list. The link that names it was in no list.
    pub fn push_back(&mut self, list: u32, item: T) -> Link
        requires within { list < length self.old.lists }
        requires room { 1 ≤ self.old.spare }
        ensures lists { self.new.lists ≡ with_last list (record { link = result; item = item }) self.old.lists }
        ensures names { IsIn self.new.lists result list item }
        ensures stay { Stay self.old.lists self.new.lists }
        ensures fresh { IsFresh self.old.lists result }
        ensures unused { ¬ IsLive self.old.lists result }
        ensures count { length self.new.lists ≡ length self.old.lists }
        ensures spare { self.new.spare + 1 ≡ self.old.spare }
    {
        let last = self.ends[list as usize].last;
        put_between(
            &mut self.nodes,
            self.ends.as_mut_slice(),
            last,
            Side::end(list),
            item,
        )
    }

    /// Puts an item just before the one that a live link names. The link that names it was in no list.
    pub fn insert_before(&mut self, link: Link, item: T) -> Link
        requires live { IsLive self.old.lists link }
        requires room { 1 ≤ self.old.spare }
        ensures lists { self.new.lists ≡ with_before link (record { link = result; item = item }) self.old.lists }
        ensures names { (list : ℕ) (there : T) → IsIn self.old.lists link list there → IsIn self.new.lists result list item }
        ensures stay { Stay self.old.lists self.new.lists }
        ensures fresh { IsFresh self.old.lists result }
        ensures unused { ¬ IsLive self.old.lists result }
        ensures count { length self.new.lists ≡ length self.old.lists }
        ensures spare { self.new.spare + 1 ≡ self.old.spare }
    {
        let node = &self.nodes[link.key()];
        let before = node.before;
        put_between(
            &mut self.nodes,
            self.ends.as_mut_slice(),
            before,
            Side::of(link),
            item,
        )
    }

    /// Takes out the item that a live link names. Its place serves for another item.
    pub fn unlink(&mut self, link: Link) -> T
        requires { IsLive self.old.lists link }
        ensures item { (list : ℕ) (item : T) → IsIn self.old.lists link list item → result ≡ item }
        ensures lists { self.new.lists ≡ without link self.old.lists }
        ensures gone { ¬ IsLive self.new.lists link }
        ensures others { OthersStay link self.old.lists self.new.lists }
        ensures count { length self.new.lists ≡ length self.old.lists }
        ensures spare { self.new.spare ≡ self.old.spare + 1 }
    {
        let Node {
            before,
            after,
            item,
        } = self.nodes.remove(link.key());
        set_after(&mut self.nodes, self.ends.as_mut_slice(), before, after);
        set_before(&mut self.nodes, self.ends.as_mut_slice(), after, before);
        item
    }

    /// The link of the first item of a list; none where it is empty.
    pub fn front(&self, list: u32) -> Option<Link>
        requires { list < length self.now.lists }
        ensures exact { result ≡ first_link (list_at self.now.lists list) }
        ensures live { IfSome result (λ link. (item : T) × IsIn self.now.lists link list item) }
    {
        self.ends[list as usize].first.link()
    }

    /// The link of the item after the one that a live link names; none where that is the last of its list.
    pub fn next(&self, link: Link) -> Option<Link>
        requires { IsLive self.now.lists link }
        ensures exact { (list : ℕ) (item : T) → IsIn self.now.lists link list item
            → result ≡ first_link (after_first (is_at link) (list_at self.now.lists list)) }
        ensures live { (list : ℕ) (item : T) → IsIn self.now.lists link list item
            → IfSome result (λ next. (there : T) × IsIn self.now.lists next list there) }
    {
        self.nodes[link.key()].after.link()
    }

    /// The item that a live link names.
    pub fn item(&self, link: Link) -> T
        requires { IsLive self.now.lists link }
        ensures { (list : ℕ) (item : T) → IsIn self.now.lists link list item → result ≡ item }
    {
        self.nodes[link.key()].item
    }

    /// The item that a live link names, for writing.
    pub fn item_mut(&mut self, link: Link) -> &mut T
        requires { IsLive self.old.lists link }
        ensures* writes_back { sem 𝓛 (LendsItem T.row self.entry link result) }
        ensures item { (list : ℕ) (item : T) → IsIn self.old.lists link list item → result.now ≡ item }
    {
        let node = &mut self.nodes[link.key()];
        &mut node.item
    }

    /// Puts another item in the place of the one that a live link names.
    pub fn set(&mut self, link: Link, item: T)
        requires { IsLive self.old.lists link }
        ensures lists { self.new.lists ≡ with_item link item self.old.lists }
        ensures names { (list : ℕ) (old : T) → IsIn self.old.lists link list old → IsIn self.new.lists link list item }
        ensures others { OthersStay link self.old.lists self.new.lists }
        ensures count { length self.new.lists ≡ length self.old.lists }
        ensures spare { self.new.spare ≡ self.old.spare }
    {
        set_item(&mut self.nodes, link.key(), item);
    }
}

// The same entries with room for so many more. They are copied, so that those that there are keep their room where the copy
// has more than a key can name: how much a slab makes room for is its own affair.
pub(crate) fn with_room<C: Clone + Drop>(cells: &Slab<C>, more: usize) -> Result<Slab<C>, ListFault>
    requires { (cell copy : C) → C.is_clone cell copy → copy ≡ cell }
    ensures { IfOk result (IsGrown cells.now more) }
{
    let mut grown = cells.clone().map_err(|_| ListFault::Memory)?;
    grown.reserve(more).map_err(|_| ListFault::Memory)?;
    if grown.capacity() > MOST as usize {
        return Err(ListFault::Memory);
    }
    Ok(grown)
}

// The ends of so many empty lists.
fn empty_ends(alloc: Global, lists: u32) -> Result<Vec<Ends>, AllocError>
    requires { lists ≤ 2147483648 }
    ensures { IfOk result (λ ends. AreEmpty lists ends.items) }
{
    let mut ends = Vec::with_capacity(alloc, lists as usize)?;
    for list in 0..lists {
        ends.push(Ends {
            first: Side::end(list),
            last: Side::end(list),
        })?;
    }
    Ok(ends)
}

// Puts an item between two neighbours of a list, of which either may be its end.
fn put_between<T: Copy>(
    nodes: &mut Slab<Node<T>>,
    ends: &mut [Ends],
    before: Side,
    after: Side,
    item: T,
) -> Link
    requires room { HasRoomFor nodes.old 1 }
    requires small { nodes.old.capacity ≤ 2147483648 }
    requires before { (key : ℕ) → before ≡ Neighbour key → ContainsKey nodes.old key }
    requires after { (key : ℕ) → after ≡ Neighbour key → ContainsKey nodes.old key }
    requires first { (list : ℕ) → before ≡ End list → list < length ends.old }
    requires last { (list : ℕ) → after ≡ End list → list < length ends.old }
    ensures { PutsBetween before after item result nodes.old ends.old nodes.new ends.new }
{
    let link = add_node(
        nodes,
        Node {
            before,
            after,
            item,
        },
    );
    set_after(nodes, ends, before, Side::of(link));
    set_before(nodes, ends, after, Side::of(link));
    link
}

fn add_node<T: Copy>(nodes: &mut Slab<Node<T>>, node: Node<T>) -> Link
    requires room { HasRoomFor nodes.old 1 }
    requires small { nodes.old.capacity ≤ 2147483648 }
    ensures { AddsNode node result nodes.old nodes.new }
{
    Link::new(nodes.insert_reserved(node))
}
