// Which field of a record is wrong.
ghost use Rattle.std.specs.Prelude.{◌≡◌, ◌<◌, ◌==◌, not, length, position, IfSome};
ghost use Rattle.record_codec.specs.Check.{checks, first_false, first_used, first_wrong, is_of, is_right};
ghost use Rattle.record_codec.specs.Record.{row_of};

use crate::row::Row;
use mkt_base::{DAY_MS, NODES};

// Whether a field that the event has is from `low` to `high`, and one that it does not have zero.
#[tactic(auto, unfolding(crate::specs::Check::is_right))]
fn is_right(has: bool, low: u32, high: u32, value: u32) -> bool
    ensures { result ≡ is_right has low high value }
{
    if has {
        low <= value && value <= high
    } else {
        value == 0
    }
}

// Whether the event is one of these kinds.
fn is_of(first: u8, last: u8, row: Row) -> bool
    ensures { result ≡ is_of first last row }
{
    first <= row.kind && row.kind <= last
}

// Each field that may be wrong: whether it is right, and the offset at which it begins.
#[tactic(auto, unfolding(crate::specs::Check::checks))]
fn checks(form: u8, place: u64, row: Row) -> [(bool, u8); 11]
    ensures { result ≡ checks form place row }
{
    let participant = u32::from(row.participant);
    let side = u32::from(row.side);
    let limit = u32::from(row.limit);
    let node = u32::from(row.node);
    [
        (row.form == form, 0),
        (is_of(1, 6, row), 1),
        (row.place == place, 8),
        (is_right(is_of(1, 3, row), 0, 65_535, participant), 16),
        (is_right(is_of(1, 1, row), 1, 2, side), 18),
        (is_right(is_of(1, 2, row), 1, 2, limit), 19),
        (is_right(row.limit == 2, 0, u32::MAX, row.price), 20),
        (is_right(is_of(1, 2, row), 0, u32::MAX, row.quantity), 24),
        (is_right(is_of(2, 3, row), 0, u32::MAX, row.target), 28),
        (is_right(is_of(4, 4, row), 0, DAY_MS - 1, row.moment), 32),
        (
            is_right(is_of(5, 6, row), 0, u32::from(NODES) - 1, node),
            36,
        ),
    ]
}

// The offset of the first check that fails.
#[tactic(auto, unfolding(crate::specs::Check::first_false))]
fn first_false(checks: &[(bool, u8)]) -> Option<u8>
    ensures { result ≡ first_false checks.now }
{
    for check in checks {
        if !check.0 {
            return Some(check.1);
        }
    }
    None
}

// The first place at which a byte is not zero.
fn first_not_zero(bytes: &[u8]) -> Option<usize>
    ensures exact { result ≡ position (λ b. not (b == 0)) bytes.now }
    ensures within { IfSome result (λ i. i < length bytes.now) }
{
    bytes.iter().position(|b| *b != 0)
}

// The first offset from 37 on at which a byte is not zero.
#[tactic(auto, unfolding(crate::specs::Check::first_used))]
fn first_used(rec: &[u8]) -> Option<u8>
    requires { length rec.now ≡ 48 }
    ensures { result ≡ first_used rec.now }
{
    let (_, tail) = rec.split_at(37);
    match first_not_zero(tail) {
        Some(i) => Some(37 + i as u8),
        None => None,
    }
}

// The offset of the first wrong field of a record of a form at a place.
#[tactic(auto, unfolding(crate::specs::Check::first_wrong))]
pub(crate) fn first_wrong(form: u8, place: u64, rec: &[u8; 48], row: Row) -> Option<u8>
    requires { row ≡ row_of rec.now }
    ensures { result ≡ first_wrong form place rec.now }
{
    first_false(&checks(form, place, row)).or(first_used(rec))
}
