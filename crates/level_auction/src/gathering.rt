// The certificate of an auction over the levels of its orders.
ghost use Rattle.std.specs.Prelude.{◌≡◌, ◌-◌, ◌<◌, All, IfOk, length, map};
ghost use Rattle.mkt_base.specs.Book.{price_at, sums_at};
ghost use Rattle.auction_law.specs.Attempt.{nearer_prices};
ghost use Rattle.auction_check.specs.True.{IsTrueCertificate};
ghost use Rattle.level_auction.specs.Walk.{CanWalk};

use crate::attempt;
use crate::walk::LevelWalk;
use auction_check::{Certificate, CertificateFault};
use auction_file::Levels;
use auction_law::{meets, plain_sums};
use mkt_base::{Outcome, Price, Rows, Sums};
use std::alloc::Global;

/// The certificate of the attempt with the reference at this position over the whole grid. Its time grows with the levels, and with the
/// prices up to the chosen one. `Memory` where there is none for the prices that are ruled out.
pub fn gather(
    alloc: Global,
    levels: &Levels,
    grid: &[Price],
    reference: u32,
) -> Result<Certificate, CertificateFault>
    requires can { CanWalk grid.now levels.now.orders }
    requires left { All (λ o. 0 < o.left) levels.now.orders }
    requires in_range { reference < length grid.now }
    ensures is_true { IfOk result (λ c. IsTrueCertificate grid.now levels.now.orders c) }
    ensures whole_grid { IfOk result (λ c. (c.reference ≡ reference) × (c.lo ≡ 0) × (c.hi ≡ length grid.now - 1)) }
{
    let outcome = attempt(levels, grid, reference);
    let rejected = match outcome {
        Outcome::Traded { .. } => nearer(alloc, levels, grid, reference)?,
        Outcome::Calm { .. } | Outcome::Pressed { .. } => Vec::new(alloc),
    };
    Ok(Certificate {
        reference,
        lo: 0,
        hi: grid.len() as u32 - 1,
        rejected: Rows::new(rejected),
        outcome,
    })
}

// The prices that are nearer than the first that meets the three conditions, the nearest first, with their sums.
fn nearer(
    alloc: Global,
    levels: &Levels,
    grid: &[Price],
    reference: u32,
) -> Result<Vec<Sums>, CertificateFault>
    requires can { CanWalk grid.now levels.now.orders }
    requires in_range { reference < length grid.now }
    ensures { IfOk result (λ sums. sums.items
        ≡ map (sums_at grid.now levels.now.orders) (nearer_prices grid.now levels.now.orders (price_at grid.now reference))) }
{
    let mut rejected = Vec::new(alloc);
    let sums = plain_sums(levels.as_slice(), grid, grid[reference as usize]);
    if meets(&sums) {
        return Ok(rejected);
    }
    if rejected.push(sums).is_err() {
        return Err(CertificateFault::Memory);
    }
    let mut rest = LevelWalk::new(levels, grid, reference, sums);
    while let Some((_, sums)) = rest.next() {
        if meets(&sums) {
            return Ok(rejected);
        }
        if rejected.push(sums).is_err() {
            return Err(CertificateFault::Memory);
        }
    }
    Ok(rejected)
}
