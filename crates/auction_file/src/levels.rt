// The orders of an auction, those of a level as one.
ghost use Rattle.std.specs.Prelude.{◌≡◌, [], ◌∷◌, ◌++◌, List, IfOk, OnErr, OnOk};
ghost use Rattle.mkt_base.specs.Book.{total_left};
ghost use Rattle.mkt_base.specs.Priority.{is_on_level};
ghost use Rattle.mkt_base.specs.declared.order.Order.{Order};
ghost use Rattle.auction_file.specs.LevelList.{HasRoom, OneALevel, StandsFor, level_of};

use mkt_base::{Order, Side, Spot};
use std::alloc::{AllocError, Global};
use std::marker::Model;

/// The orders of an auction. Those of a level, which are of one side and at one spot, stand together as one, with the
/// place of the first. A book may have many times as many orders as levels: the list of all of them would be megabytes of
/// fresh memory, and an auction walks the list once for each price of the grid.
#[derive(Drop)]
pub struct Levels {
    /// How many prices the grid has.
    count: u32,
    orders: Vec<Order>,
    /// Where among `orders` each level's stands.
    slots: Vec<Option<u32>>,
}

impl Model for Levels {
    ghost use Rattle.auction_file.specs.LevelList.{IsSlotted, LevelList};

    ghost Value = { LevelList };

    ghost view = { λ l. record { count = l.count; orders = l.orders.items } };

    ghost invariant = { λ l. IsSlotted l.count l.orders.items l.slots.items };
}

impl Levels {
    /// No orders, over a grid of so many prices.
    pub fn new(alloc: Global, count: u32) -> Result<Levels, AllocError>
        ensures { IfOk result (λ levels. levels ≡ record { count = count; orders = [] }) }
    {
        let slots = vec![in alloc; None; 2 * (count as usize + 1)]?;
        Ok(Levels {
            count,
            orders: Vec::new(alloc),
            slots,
        })
    }

    /// The orders, one for each level that has any.
    pub fn as_slice(&self) -> &[Order]
        ensures orders { result.now ≡ self.now.orders }
        ensures one_a_level { OneALevel result.now }
    {
        self.orders.as_slice()
    }

    /// The shares that the orders of a side have left at a spot.
    pub fn left(&self, side: Side, spot: Spot) -> u64
        ensures { result ≡ total_left (is_on_level side spot) self.now.orders }
    {
        let level = level_of(side, spot);
        if level >= self.slots.len() {
            return 0;
        }
        match self.slots[level] {
            Some(index) => self.orders[index as usize].left,
            None => 0,
        }
    }

    /// Adds an order to its level. Where there is no memory, nothing changes.
    pub fn add(&mut self, order: Order) -> Result<(), AllocError>
        requires { HasRoom self.old order }
        ensures count { self.new.count ≡ self.old.count }
        ensures one_more { OnOk result ((all : List Order) → StandsFor self.old.orders all
            → StandsFor self.new.orders (all ++ order ∷ [])) }
        ensures unchanged { OnErr result (self.new ≡ self.old) }
    {
        let level = level_of(order.side, order.spot);
        if let Some(index) = self.slots[level] {
            self.orders[index as usize].left += order.left;
            return Ok(());
        }
        let index = self.orders.len() as u32;
        self.orders.push(order)?;
        self.slots[level] = Some(index);
        Ok(())
    }
}

// The number of a level: the market's two come first, then those of each price.
fn level_of(side: Side, spot: Spot) -> usize
    ensures { result ≡ level_of side spot }
{
    let number = match spot {
        Spot::Market => 0,
        Spot::At(position) => position as usize + 1,
    };
    match side {
        Side::Buy => 2 * number,
        Side::Sell => 2 * number + 1,
    }
}
