// Which of the gateways' events are orders, by own number.
ghost use Rattle.std.specs.Prelude.{◌≡◌, ◌+◌, ◌*◌, ◌<◌, ◌≤◌, false, [], ◌∷◌, ◌++◌, length, map, replicate, slice_index_or, slice_set, IfOk, MatchResult};
ghost use Rattle.script_file.specs.Orders.{noted, row_at, row_of, rows_of};
ghost use Rattle.script_file.specs.Own.{is_order};

use mkt_base::{Act, Caller, Event};
use std::alloc::{AllocError, Global};

// How many rows a caller has, and how many rows there are, for the callers up to 16. (Caller 0 has no line in a script, and its
// rows stay empty.)
const ISSUES: usize = 64;

const ROWS: usize = 17 * ISSUES;

// A row for each gateway and issue: for each of the gateway's events there, by own number, whether it is an order.
#[derive(Drop)]
pub(crate) struct OrderLog {
    rows: Vec<Vec<bool>>,
}

impl OrderLog {
    // The rows before the first event.
    pub(crate) fn make(alloc: Global) -> Result<OrderLog, AllocError>
        ensures { IfOk result (λ log. rows_of log ≡ replicate 1088 []) }
    {
        let mut rows = Vec::with_capacity(alloc, ROWS)?;
        for _ in 0..ROWS {
            rows.push(Vec::new(alloc))?;
        }
        Ok(OrderLog { rows })
    }

    // Whether the gateway's event of this own number in the issue is an order.
    #[inline(always)]
    pub(crate) fn is_order(&self, gateway: Caller, issue: u16, own: u32) -> bool
        requires { row_of gateway issue < length (rows_of self.now) }
        ensures { result ≡ slice_index_or (row_at (rows_of self.now) (row_of gateway issue)) own false }
    {
        match self.rows[row_of(gateway, issue)].get(own as usize) {
            Some(is_order) => *is_order,
            None => false,
        }
    }

    // Notes what the gateway's next line in the issue does. Where there is no memory nothing is noted.
    #[inline(always)]
    pub(crate) fn note(&mut self, gateway: Caller, issue: u16, act: &Act) -> Result<(), AllocError>
        requires { row_of gateway issue < length (rows_of self.old) }
        ensures { MatchResult result (λ _. rows_of self.new ≡ noted (rows_of self.old) gateway issue act.now) (λ _.
            rows_of self.new ≡ rows_of self.old) }
    {
        match act {
            Act::Do(_) => push_at(&mut self.rows, row_of(gateway, issue), is_order(act)),
            Act::Show => Ok(()),
        }
    }
}

// The number of the row of a gateway and an issue.
#[inline(always)]
fn row_of(gateway: Caller, issue: u16) -> usize
    ensures { result ≡ row_of gateway issue }
{
    ISSUES * usize::from(gateway.0) + usize::from(issue)
}

// Whether a line enters a new order.
#[inline(always)]
fn is_order(act: &Act) -> bool
    ensures { result ≡ is_order act.now }
{
    match act {
        Act::Do(Event::Order { .. }) => true,
        _ => false,
    }
}

// Adds an item at the end of a row.
#[inline(always)]
fn push_at(rows: &mut Vec<Vec<bool>>, at: usize, item: bool) -> Result<(), AllocError>
    requires { at < length rows.old.items }
    ensures { MatchResult result (λ _. map (λ r. r.items) rows.new.items ≡ slice_set (map (λ r. r.items) rows.old.items) at
        (slice_index_or (map (λ r. r.items) rows.old.items) at [] ++ item ∷ [])) (λ _. map (λ r. r.items) rows.new.items ≡ map (λ r.
        r.items) rows.old.items) }
{
    let row = &mut rows[at];
    row.push(item)?;
    Ok(())
}
