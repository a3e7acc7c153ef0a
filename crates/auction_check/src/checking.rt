// Whether a certificate is true.
ghost use Rattle.std.specs.Prelude.{◌≡◌, ◌<◌, ◌≤◌, ◌↔◌, ℕ, [], ◌∷◌, All, IsTrue, MatchOption, Some, length, map};
ghost use Rattle.mkt_base.specs.Book.{FitsSums, IsOnGrid, IsRising, price_at, sums_at};
ghost use Rattle.auction_law.specs.Attempt.{IsAttempt, chosen, nearer_prices};
ghost use Rattle.auction_check.specs.True.{IsTrueCertificate};

use crate::Certificate;
use auction_law::{ByNearness, attempt_is_the_outcome, plain_attempt, plain_sums};
use mkt_base::{Order, Outcome, Price, Sums};

/// Whether a certificate is the one of an attempt over these orders: its window lies on the grid and holds the reference, its outcome is
/// the attempt's, and the prices that it rules out are exactly the nearer ones, with their sums. The grid rises, and all limits lie on it;
/// each order has something left.
pub fn check(certificate: &Certificate, orders: &[Order], grid: &[Price]) -> bool
    requires rising { IsRising grid.now }
    requires on_grid { All (λ o. IsOnGrid grid.now o.spot) orders.now }
    requires left { All (λ o. 0 < o.left) orders.now }
    requires fits { FitsSums orders.now }
    ensures { IsTrue result ↔ IsTrueCertificate grid.now orders.now certificate.now }
{
    has_window(certificate, grid) && is_attempt(certificate, orders, grid)
}

// The window lies on the grid, and holds the reference.
fn has_window(certificate: &Certificate, grid: &[Price]) -> bool
    ensures { IsTrue result ↔ ((certificate.now.lo ≤ certificate.now.reference) × (certificate.now.reference ≤ certificate.now.hi)
        × (certificate.now.hi < length grid.now)) }
{
    certificate.lo <= certificate.reference
        && certificate.reference <= certificate.hi
        && (certificate.hi as usize) < grid.len()
}

// The outcome is the attempt's, and the prices that are ruled out are the nearer ones.
fn is_attempt(certificate: &Certificate, orders: &[Order], grid: &[Price]) -> bool
    requires rising { IsRising grid.now }
    requires on_grid { All (λ o. IsOnGrid grid.now o.spot) orders.now }
    requires left { All (λ o. 0 < o.left) orders.now }
    requires fits { FitsSums orders.now }
    requires window { (certificate.now.lo ≤ certificate.now.reference) × (certificate.now.reference ≤ certificate.now.hi)
        × (certificate.now.hi < length grid.now) }
    ensures { IsTrue result ↔ IsTrueCertificate grid.now orders.now certificate.now }
{
    attempt_is_the_outcome();
    let reference = certificate.reference;
    let outcome = plain_attempt(orders, grid, reference, certificate.lo, certificate.hi);
    if !is_same_outcome(&outcome, &certificate.outcome) {
        return false;
    }
    let rejected = certificate.rejected.as_slice();
    match outcome {
        Outcome::Traded { sums, .. } => are_nearer(rejected, orders, grid, reference, sums.price),
        Outcome::Calm { .. } | Outcome::Pressed { .. } => is_none_left(rejected),
    }
}

// Whether these are the prices that are nearer than the chosen one, the nearest first, each with its sums.
fn are_nearer(
    rejected: &[Sums],
    orders: &[Order],
    grid: &[Price],
    reference: u32,
    last: Price,
) -> bool
    requires rising { IsRising grid.now }
    requires on_grid { All (λ o. IsOnGrid grid.now o.spot) orders.now }
    requires fits { FitsSums orders.now }
    requires reference { reference < length grid.now }
    requires chosen { chosen grid.now orders.now (price_at grid.now reference) ≡ Some last.0 }
    ensures { IsTrue result ↔ (rejected.now ≡ map (sums_at grid.now orders.now) (nearer_prices grid.now orders.now (price_at grid.now reference))) }
{
    let mut left = rejected;
    let mut nearest = ByNearness::new(grid, reference);
    while let Some(price) = nearest.next() {
        if price == last {
            break;
        }
        let Some((sums, more)) = cut_first(left) else {
            return false;
        };
        if !is_same(&sums, &plain_sums(orders, grid, price)) {
            return false;
        }
        left = more;
    }
    is_none_left(left)
}

fn is_none_left(sums: &[Sums]) -> bool
    ensures { IsTrue result ↔ (sums.now ≡ []) }
{
    sums.is_empty()
}

// The first of the sums, and the others.
fn cut_first(sums: &[Sums]) -> Option<(Sums, &[Sums])>
    ensures { MatchOption result (sums.now ≡ []) (λ cut. sums.now ≡ cut.0 ∷ cut.1.now) }
{
    let [first, more @ ..] = sums else {
        return None;
    };
    Some((*first, more))
}

fn is_same(a: &Sums, b: &Sums) -> bool
    ensures { IsTrue result ↔ (a.now ≡ b.now) }
{
    a == b
}

fn is_same_outcome(a: &Outcome, b: &Outcome) -> bool
    ensures { IsTrue result ↔ (a.now ≡ b.now) }
{
    a == b
}
