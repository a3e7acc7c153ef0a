// The values of a TOML document, and those that have a form of numbers and times.
ghost use Rattle.std.specs.Prelude.{◌≡◌, ◌<◌, ◌≤◌, length, map, option_map, IfSome};
ghost use Rattle.std.specs.Option.{ok_or};
ghost use Rattle.toml.specs.Data.{get_member};
ghost use Rattle.toml.specs.View.{table_view, view};
ghost use Rattle.mkt_base.specs.declared.units.TheConstants.{DAY_MS};
ghost use Rattle.rules_file.specs.Faults.{GivesAs};
ghost use Rattle.rules_file.specs.Forms.{document_of, integer_at, integer_in, integer_within, is_empty_list, items_in, row_of, time_at};
ghost use Rattle.rules_file.specs.declared.fault.RulesFault.TheVariants.{NotToml};

use crate::RulesFault;
use mkt_base::Moment;
use mkt_io::time_word;
use std::alloc::Global;
use toml::{Table, Value};

// The table of a text.
pub(crate) fn document_of(alloc: Global, bytes: &[u8]) -> Result<Table, RulesFault>
    ensures { GivesAs table_view result (ok_or (document_of bytes.now) NotToml) }
{
    match toml::table_from_slice(alloc, bytes) {
        Ok(table) => Ok(table),
        Err(e) if e.is_memory() => Err(RulesFault::Memory),
        Err(_) => Err(RulesFault::NotToml),
    }
}

// What stands at a key of a table.
pub(crate) fn value_at<'a>(table: &'a Table, key: &str) -> Option<&'a Value>
    ensures { option_map (λ v. view v.now) result ≡ get_member key.now (table_view table.now) }
{
    table.get(key)
}

// The items of a value that is an array.
#[tactic(auto, unfolding(crate::specs::Forms::items_in))]
pub(crate) fn items_in(value: &Value) -> Option<&[Value]>
    ensures { option_map (λ items. map view items.now) result ≡ items_in (view value.now) }
{
    match value.as_array() {
        Some(items) => Some(items.as_slice()),
        None => None,
    }
}

// Whether a value is an array without items.
#[tactic(auto, unfolding(crate::specs::Forms::is_empty_list))]
pub(crate) fn is_empty_list(value: &Value) -> bool
    ensures { result ≡ is_empty_list (view value.now) }
{
    match items_in(value) {
        Some(items) => items.is_empty(),
        None => false,
    }
}

// The items of an array that has `n` of them.
#[tactic(auto, unfolding(crate::specs::Forms::row_of))]
pub(crate) fn row_of(value: &Value, n: usize) -> Option<&[Value]>
    ensures exact { option_map (λ row. map view row.now) result ≡ row_of n (view value.now) }
    ensures length { IfSome result (λ row. length row.now ≡ n) }
{
    match items_in(value) {
        Some(items) if items.len() == n => Some(items),
        _ => None,
    }
}

// An integer from `low` to `high`.
#[tactic(auto, unfolding(crate::specs::Forms::integer_in))]
pub(crate) fn integer_in(value: &Value, low: u32, high: u32) -> Option<u32>
    ensures exact { result ≡ integer_in low high (view value.now) }
    ensures range { IfSome result (λ n. (low ≤ n) × (n ≤ high)) }
{
    let integer = value.as_integer()?;
    integer_within(integer, low, high)
}

fn integer_within(integer: i64, low: u32, high: u32) -> Option<u32>
    ensures exact { result ≡ integer_within low high integer }
    ensures range { IfSome result (λ n. (low ≤ n) × (n ≤ high)) }
{
    let n = u32::try_from(integer).ok()?;
    if low <= n && n <= high { Some(n) } else { None }
}

// An integer as an item of a row.
#[tactic(auto, unfolding(crate::specs::Forms::integer_at))]
pub(crate) fn integer_at(row: &[Value], i: usize, low: u32, high: u32) -> Option<u32>
    requires { i < length row.now }
    ensures exact { result ≡ integer_at low high (map view row.now) i }
    ensures range { IfSome result (λ n. (low ≤ n) × (n ≤ high)) }
{
    integer_in(&row[i], low, high)
}

// A time word as an item of a row.
#[tactic(auto, unfolding(crate::specs::Forms::time_at))]
pub(crate) fn time_at(row: &[Value], i: usize) -> Option<Moment>
    requires { i < length row.now }
    ensures exact { result ≡ time_at (map view row.now) i }
    ensures within { IfSome result (λ at. at < DAY_MS) }
{
    let word = row[i].as_str()?;
    time_word(word.as_bytes())
}
