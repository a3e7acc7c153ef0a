// The certificate of an attempt over plain orders.
ghost use Rattle.std.specs.Prelude.{◌≡◌, ◌<◌, ◌≤◌, All, IfOk, Some, length, map};
ghost use Rattle.mkt_base.specs.Book.{FitsSums, IsOnGrid, IsRising, price_at, sums_at};
ghost use Rattle.auction_law.specs.Attempt.{chosen, nearer_prices};
ghost use Rattle.auction_check.specs.True.{IsTrueCertificate};

use crate::Certificate;
use auction_law::{ByNearness, plain_attempt, plain_sums};
use mkt_base::{Order, Outcome, Price, Rows, Sums};
use std::alloc::Global;

/// Why there is no certificate.
#[derive(Clone, Copy, Debug, PartialEq, Eq)]
pub enum CertificateFault {
    /// There is no memory for the prices that are ruled out.
    Memory,
}

/// The certificate of the attempt with this reference over a window, by their positions on the grid: the definitions' own program, which
/// adds up the orders anew at each price.
pub fn gather(
    alloc: Global,
    orders: &[Order],
    grid: &[Price],
    reference: u32,
    lo: u32,
    hi: u32,
) -> Result<Certificate, CertificateFault>
    requires rising { IsRising grid.now }
    requires on_grid { All (λ o. IsOnGrid grid.now o.spot) orders.now }
    requires left { All (λ o. 0 < o.left) orders.now }
    requires fits { FitsSums orders.now }
    requires from_lo { lo ≤ reference }
    requires to_hi { reference ≤ hi }
    requires in_range { hi < length grid.now }
    ensures is_true { IfOk result (λ c. IsTrueCertificate grid.now orders.now c) }
    ensures of_window { IfOk result (λ c. (c.reference ≡ reference) × (c.lo ≡ lo) × (c.hi ≡ hi)) }
{
    let outcome = plain_attempt(orders, grid, reference, lo, hi);
    let rejected = match outcome {
        Outcome::Traded { sums, .. } => nearer(alloc, orders, grid, reference, sums.price)?,
        Outcome::Calm { .. } | Outcome::Pressed { .. } => Vec::new(alloc),
    };
    Ok(Certificate {
        reference,
        lo,
        hi,
        rejected: Rows::new(rejected),
        outcome,
    })
}

// The prices that are nearer than the chosen one, the nearest first, with their sums.
fn nearer(
    alloc: Global,
    orders: &[Order],
    grid: &[Price],
    reference: u32,
    last: Price,
) -> Result<Vec<Sums>, CertificateFault>
    requires rising { IsRising grid.now }
    requires on_grid { All (λ o. IsOnGrid grid.now o.spot) orders.now }
    requires fits { FitsSums orders.now }
    requires reference { reference < length grid.now }
    requires chosen { chosen grid.now orders.now (price_at grid.now reference) ≡ Some last.0 }
    ensures { IfOk result (λ sums. sums.items ≡ map (sums_at grid.now orders.now) (nearer_prices grid.now orders.now (price_at grid.now reference))) }
{
    let mut rejected = Vec::new(alloc);
    let mut nearest = ByNearness::new(grid, reference);
    while let Some(price) = nearest.next() {
        if price == last {
            break;
        }
        if rejected.push(plain_sums(orders, grid, price)).is_err() {
            return Err(CertificateFault::Memory);
        }
    }
    Ok(rejected)
}
