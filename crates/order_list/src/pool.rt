// The pool: items that contracts see by place, each named by its link.
ghost use Rattle.std.specs.Prelude.{◌≡◌, ℕ, ◌+◌, ◌<◌, ◌≤◌, [], ◌∷◌, All, AllPairs, IfOk, IsOk, OnOk, length};
ghost use Rattle.order_list.specs.Lists.{AreLists, IsFresh, IsIn, IsLive, OthersStay, Stay, list_at, with_item, with_last, without};

use crate::kept::{Kept, Placed};
use crate::link::Link;
use crate::lists::{ListFault, with_room};
use slab::Slab;
use std::alloc::Global;
use std::marker::Model;

/// Items without an order of their own. Contracts see one list of them by rising place, each with the link that names it,
/// and how many more can be put in without memory (`spare`). Nobody can walk this list, so that a pool keeps no links
/// between its items. A link stays live, and names the same item, until it is unlinked or another is put in its stead. Every
/// call but `reserve` takes constant time and no memory.
#[derive(Drop)]
pub struct Pool<T: Copy + Placed> {
    cells: Slab<Kept<T>>,
}

impl<T: Copy + Placed> Model for Pool<T> {
    ghost use Rattle.order_list.specs.Lists.{Lists, lists_code};

    ghost Value = { Lists T };

    ghost coded = { lists_code T.code };

    ghost use Rattle.order_list.specs.Pool.{IsPool, pooled};

    ghost view = { λ p. pooled T.place p.cells };

    ghost invariant = { λ p. IsPool T.place p.cells };
}

impl<T: Copy + Placed> Pool<T> {
    /// A pool without items, with no room for one yet.
    pub fn make(alloc: Global) -> Pool<T>
        ensures { result ≡ record { lists = [] ∷ []; spare = 0 } }
    {
        Pool {
            cells: Slab::new(alloc),
        }
    }

    /// Makes room for `n` more items, in all for at most 2,147,483,648. What room there was stays, whatever is answered.
    /// Items that are there already are copied.
    pub fn reserve(&mut self, _alloc: Global, n: u32) -> Result<(), ListFault>
        ensures room { OnOk result (n ≤ self.new.spare) }
        ensures lists { self.new.lists ≡ self.old.lists }
        ensures kept { self.old.spare ≤ self.new.spare }
        ensures succeeds { n ≤ self.old.spare → IsOk result }
    {
        let more = n as usize;
        if more > self.spare() {
            self.cells = with_room(&self.cells, more)?;
        }
        Ok(())
    }

    /// How many more items can be put in without memory.
    pub fn spare(&self) -> usize
        ensures { result ≡ self.now.spare }
    {
        self.cells.capacity() - self.cells.len()
    }

    /// What holds of every pool, for those who hold one.
    pub fn stands(&self)
        ensures lists { AreLists self.now.lists }
        ensures one { length self.now.lists ≡ 1 }
        ensures rising { AllPairs (λ m n. T.place m.item < T.place n.item) (list_at self.now.lists 0) }
    {
        let _ = &self.cells;
    }

    /// Puts in an item whose place is behind all others. The link that names it was in no list.
    pub fn push_back(&mut self, item: T) -> Link
        requires last { All (λ n. T.place n.item < T.place item) (list_at self.old.lists 0) }
        requires room { 1 ≤ self.old.spare }
        ensures lists { self.new.lists ≡ with_last 0 (record { link = result; item = item }) self.old.lists }
        ensures names { IsIn self.new.lists result 0 item }
        ensures stay { Stay self.old.lists self.new.lists }
        ensures fresh { IsFresh self.old.lists result }
        ensures unused { ¬ IsLive self.old.lists result }
        ensures count { length self.new.lists ≡ length self.old.lists }
        ensures spare { self.new.spare + 1 ≡ self.old.spare }
    {
        Link::new(self.cells.insert_reserved(Kept { item }))
    }

    /// Takes out the item that a live link names. Its room serves for another item.
    pub fn unlink(&mut self, link: Link) -> T
        requires { IsLive self.old.lists link }
        ensures item { (list : ℕ) (item : T) → IsIn self.old.lists link list item → result ≡ item }
        ensures lists { self.new.lists ≡ without link self.old.lists }
        ensures gone { ¬ IsLive self.new.lists link }
        ensures others { OthersStay link self.old.lists self.new.lists }
        ensures count { length self.new.lists ≡ length self.old.lists }
        ensures spare { self.new.spare ≡ self.old.spare + 1 }
    {
        self.cells.remove(link.key()).item
    }

    /// The item that a live link names.
    pub fn item(&self, link: Link) -> T
        requires { IsLive self.now.lists link }
        ensures { (list : ℕ) (item : T) → IsIn self.now.lists link list item → result ≡ item }
    {
        self.cells[link.key()].item
    }

    /// Puts another item of the same place in the stead of the one that a live link names.
    pub fn set(&mut self, link: Link, item: T)
        requires live { IsLive self.old.lists link }
        requires place { (list : ℕ) (old : T) → IsIn self.old.lists link list old → T.place item ≡ T.place old }
        ensures lists { self.new.lists ≡ with_item link item self.old.lists }
        ensures names { (list : ℕ) (old : T) → IsIn self.old.lists link list old → IsIn self.new.lists link list item }
        ensures others { OthersStay link self.old.lists self.new.lists }
        ensures count { length self.new.lists ≡ length self.old.lists }
        ensures spare { self.new.spare ≡ self.old.spare }
    {
        let kept = &mut self.cells[link.key()];
        kept.item = item;
    }
}
