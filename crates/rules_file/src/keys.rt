// What stands at the keys of a rules file.
ghost use Rattle.std.specs.Prelude.{◌≡◌, ◌+◌, ◌<◌, ◌≤◌, Bool, false, true, List, ℕ, length, map, All, IfOk, IfSome, option_map};
ghost use Rattle.toml.specs.View.{table_view, view};
ghost use Rattle.rules_file.specs.Faults.{Gives, GivesAs, IsTold};
ghost use Rattle.rules_file.specs.Forms.{integer_in, is_empty_list, is_name, name_row};
ghost use Rattle.rules_file.specs.Keys.{AreChecked, checked_rows, first_failing, formed, listed, rows_at, wanted};
ghost use Rattle.rules_file.specs.declared.fault.RulesFault.{RulesFault};

use crate::RulesFault;
use crate::fault::{bad_number, missing_key, too_many};
use crate::form::{Form, all_of, name_row};
use crate::value::{integer_in, is_empty_list, items_in, value_at};
use mkt_base::{Name, Rows};
use std::alloc::Global;
use toml::{Table, Value};

// What was found at a key, unless it is missing.
#[tactic(auto, unfolding(crate::specs::Keys::wanted))]
fn wanted<'a>(alloc: Global, key: &str, found: Option<&'a Value>) -> Result<&'a Value, RulesFault>
    ensures exact { let found = option_map (λ v. view v.now) found.entry in
        GivesAs (λ v. view v.now) result (wanted key.now found) }
    ensures full { IfOk result (λ v. is_empty_list (view v.now) ≡ false) }
{
    match found {
        Some(value) => {
            if is_empty_list(value) {
                return Err(missing_key(alloc, key));
            }
            Ok(value)
        }
        None => Err(missing_key(alloc, key)),
    }
}

// An integer from `low` to `high`.
#[tactic(auto, unfolding(crate::specs::Keys::formed))]
pub(crate) fn integer_of(
    alloc: Global,
    key: &str,
    found: Option<&Value>,
    low: u32,
    high: u32,
) -> Result<u32, RulesFault>
    ensures exact { let found = option_map (λ v. view v.now) found.entry in
        Gives result (formed (integer_in low high) key.now found) }
    ensures range { IfOk result (λ n. (low ≤ n) × (n ≤ high)) }
{
    let value = wanted(alloc, key, found)?;
    match integer_in(value, low, high) {
        Some(n) => Ok(n),
        None => Err(bad_number(alloc, key)),
    }
}

// A name.
#[tactic(auto, unfolding(crate::specs::Keys::formed))]
pub(crate) fn name_of(alloc: Global, key: &str, found: Option<&Value>) -> Result<Name, RulesFault>
    ensures exact { let found = option_map (λ v. view v.now) found.entry in
        Gives result (formed name_row key.now found) }
    ensures sound { IfOk result (λ name. is_name name ≡ true) }
{
    let value = wanted(alloc, key, found)?;
    match name_row(value) {
        Some(name) => match String::from_str(alloc, name) {
            Ok(text) => Ok(Name::new(text)),
            Err(_) => Err(RulesFault::Memory),
        },
        None => Err(bad_number(alloc, key)),
    }
}

// The items of the list at a key.
#[tactic(auto, unfolding(crate::specs::Keys::listed, crate::specs::Keys::formed, crate::specs::Keys::few))]
pub(crate) fn listed<'a>(
    alloc: Global,
    table: &'a Table,
    key: &str,
    limit: usize,
) -> Result<&'a [Value], RulesFault>
    ensures exact { let read = listed key.now limit (table_view table.now) in
        GivesAs (λ items. map view items.now) result read }
    ensures some { IfOk result (λ items. 1 ≤ length items.now) }
    ensures few { IfOk result (λ items. length items.now ≤ limit) }
{
    let value = wanted(alloc, key, value_at(table, key))?;
    let Some(items) = items_in(value) else {
        return Err(bad_number(alloc, key));
    };
    if items.len() > limit {
        return Err(too_many(alloc, key, items.len() as u64));
    }
    Ok(items)
}

// The rows of the list at a key, all of their form.
#[tactic(auto, unfolding(crate::specs::Keys::rows_at))]
pub(crate) fn rows_at<R: Form>(
    alloc: Global,
    table: &Table,
    key: &str,
    limit: usize,
) -> Result<Rows<R>, RulesFault>
    ensures exact { Gives result (rows_at R.form key.now limit (table_view table.now)) }
    ensures sound { IfOk result (All R.good) }
    ensures some { IfOk result (λ rows. 1 ≤ length rows) }
    ensures few { IfOk result (λ rows. length rows ≤ limit) }
{
    let items = listed(alloc, table, key, limit)?;
    match all_of::<R>(alloc, items) {
        Ok(Some(rows)) => Ok(rows),
        Ok(None) => Err(bad_number(alloc, key)),
        Err(_) => Err(RulesFault::Memory),
    }
}

// A row of a list with a check of its own.
pub(crate) trait Row: Form {
    // Whether the row at a place fails.
    ghost fails_at: { List Self → ℕ → Bool };

    // The fault of the list at a key where this row, counted from 1, fails.
    ghost fault_of: { List ℕ → ℕ → RulesFault };

    fn fails(rows: &[Self], i: usize) -> bool
        requires place { i < length rows.now }
        requires good { All Self.good rows.now }
        ensures { result ≡ fails_at rows.now i };

    fn fault(alloc: Global, key: &str, row: u32) -> RulesFault
        ensures { IsTold (fault_of key.now row) result };
}

// The place of the first row that fails.
fn first_failing<R: Row>(rows: &[R]) -> Option<usize>
    requires { All R.good rows.now }
    ensures exact { result ≡ first_failing R.fails_at rows.now }
    ensures within { IfSome result (λ i. i < length rows.now) }
{
    for i in 0..rows.len() {
        if R::fails(rows, i) {
            return Some(i);
        }
    }
    None
}

// The rows of the list at a key, of which none fails.
#[tactic(auto, unfolding(crate::specs::Keys::checked_rows, crate::specs::Keys::checked))]
pub(crate) fn checked_rows<R: Row>(
    alloc: Global,
    table: &Table,
    key: &str,
    limit: usize,
) -> Result<Rows<R>, RulesFault>
    requires { limit ≤ 64 }
    ensures exact { let read = checked_rows R.form R.fails_at R.fault_of key.now limit in
        Gives result (read (table_view table.now)) }
    ensures sound { IfOk result (AreChecked R.good R.fails_at limit) }
{
    let rows = rows_at::<R>(alloc, table, key, limit)?;
    match first_failing(rows.as_slice()) {
        Some(i) => Err(R::fault(alloc, key, i as u32 + 1)),
        None => Ok(rows),
    }
}
