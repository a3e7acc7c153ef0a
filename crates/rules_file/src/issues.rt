// The issues of a rules file.
ghost use Rattle.std.specs.Prelude.{◌≡◌, ◌+◌, ◌<◌, ◌≤◌, true, false, [], length, map, IfOk};
ghost use Rattle.std.specs.List.{list_all, list_any};
ghost use Rattle.std.specs.Str.{bytes_eq};
ghost use Rattle.toml.specs.Data.{as_table};
ghost use Rattle.toml.specs.View.{table_view, view};
ghost use Rattle.tick_grid.specs.Grid.{IsGrid};
ghost use Rattle.tick_grid.specs.Rows.{AreBandRows, AreTickRows, is_on_tick};
ghost use Rattle.rules_file.specs.Faults.{Gives};
ghost use Rattle.rules_file.specs.Forms.{is_name, is_table, members_in};
ghost use Rattle.rules_file.specs.Issues.{AreIssues, IsIssue, IsNewCode, high_end, issue_of, issue_rules, issues_at, issues_of, low_end, new_code, no_issues, on_tick, with_grid, with_issue};

use crate::RulesFault;
use crate::fault::bad_number;
use crate::issue::{IssueRules, Issues};
use crate::keys::{integer_of, listed, name_of};
use crate::names::Names;
use crate::value::value_at;
use mkt_base::{Name, Price, Rows};
use std::alloc::Global;
use tick_grid::{BandRow, Grid, GridFault, TickRow, band, grid_between_its_ends};
use toml::{Table, Value};

/// The highest price, in tenths of a yen.
const MAX_PRICE: u32 = 1_000_000_000;

/// The greatest trading unit, in shares.
const MAX_UNIT: u32 = 100_000_000;

/// How many issues there may be.
const MAX_ISSUES: usize = 64;

// Whether a price is a multiple of the tick of the first row whose bound it is not above.
fn is_on_tick(ticks: &[TickRow], p: u32) -> bool
    requires { AreTickRows ticks.now }
    ensures { result ≡ is_on_tick ticks.now p }
{
    for row in ticks {
        if p <= row.upto {
            return p % row.tick == 0;
        }
    }
    false
}

fn low_end(limits: &[BandRow], base: u32) -> u32
    requires limits { AreBandRows limits.now }
    requires base { base ≤ 1000000000 }
    ensures { result ≡ low_end limits.now base }
{
    let width = band(limits, Price(base));
    base.saturating_sub(width).max(1)
}

fn high_end(limits: &[BandRow], base: u32) -> u32
    requires limits { AreBandRows limits.now }
    requires base { base ≤ 1000000000 }
    ensures { result ≡ high_end limits.now base }
{
    let width = band(limits, Price(base));
    (base + width).min(MAX_PRICE)
}

// An issue with this base, unit and grid.
fn issue_rules(grid: &Grid, base: u32, unit: u32) -> IssueRules
    ensures exact { result ≡ issue_rules base unit grid.now }
    ensures stands { IsGrid grid.now }
{
    let prices = grid.size();
    IssueRules {
        base: Price(base),
        unit,
        low: grid.price(0),
        high: grid.price(prices - 1),
        prices,
    }
}

// The code and the rules of an issue, where its grid has at most 20,000 prices.
#[tactic(auto, unfolding(crate::specs::Issues::with_grid, crate::specs::Issues::issue_grid))]
fn with_grid(
    alloc: Global,
    ticks: &[TickRow],
    limits: &[BandRow],
    code: Name,
    base: u32,
    unit: u32,
) -> Result<(Name, IssueRules), RulesFault>
    requires ticks { AreTickRows ticks.now }
    requires limits { AreBandRows limits.now }
    requires base { (1 ≤ base) × (base ≤ 1000000000) }
    requires unit { (1 ≤ unit) × (unit ≤ 100000000) }
    requires on_tick { is_on_tick ticks.now base ≡ true }
    ensures exact { Gives result (with_grid ticks.now limits.now code base unit) }
    ensures same { IfOk result (λ issue. issue.0 ≡ code) }
    ensures sound { IfOk result (λ issue. IsIssue ticks.now limits.now issue.1) }
{
    grid_between_its_ends();
    let low = low_end(limits, base);
    let high = high_end(limits, base);
    match Grid::build(alloc, ticks, Price(low), Price(high)) {
        Ok(grid) => Ok((code, issue_rules(&grid, base, unit))),
        Err(GridFault::GridTooLarge(n)) => Err(RulesFault::GridTooLarge(code, n)),
        Err(GridFault::NoPrice) => unreachable!(),
        Err(GridFault::Memory) => Err(RulesFault::Memory),
    }
}

// The code of an issue, where it is new.
#[tactic(auto, unfolding(crate::specs::Issues::new_code))]
fn new_code(before: &Names, code: Name) -> Result<Name, RulesFault>
    ensures exact { Gives result (new_code before.now code) }
    ensures same { IfOk result (λ same. same ≡ code) }
    ensures fresh { IfOk result (λ code. list_any (bytes_eq code) before.now ≡ false) }
{
    if before.contains(code.as_str().as_bytes()) {
        return Err(RulesFault::Twice(code));
    }
    Ok(code)
}

// The code of an issue, where its base is on tick.
#[tactic(auto, unfolding(crate::specs::Issues::on_tick))]
fn on_tick(ticks: &[TickRow], code: Name, base: u32) -> Result<Name, RulesFault>
    requires { AreTickRows ticks.now }
    ensures exact { Gives result (on_tick ticks.now code base) }
    ensures same { IfOk result (λ same. same ≡ code) }
    ensures on_tick { IfOk result (λ _. is_on_tick ticks.now base ≡ true) }
{
    if is_on_tick(ticks, base) {
        Ok(code)
    } else {
        Err(RulesFault::OffTick(code))
    }
}

// The code and the rules of the issue that a table says, after the codes before it.
#[tactic(auto, unfolding(crate::specs::Issues::issue_of))]
fn issue_of(
    alloc: Global,
    ticks: &[TickRow],
    limits: &[BandRow],
    before: &Names,
    row: &Table,
) -> Result<(Name, IssueRules), RulesFault>
    requires ticks { AreTickRows ticks.now }
    requires limits { AreBandRows limits.now }
    ensures exact { Gives result (issue_of ticks.now limits.now before.now (table_view row.now)) }
    ensures code { IfOk result (λ issue. IsNewCode before.now issue.0) }
    ensures sound { IfOk result (λ issue. IsIssue ticks.now limits.now issue.1) }
{
    let code = name_of(alloc, "issue.code", value_at(row, "code"))?;
    let base = integer_of(alloc, "issue.base", value_at(row, "base"), 1, MAX_PRICE)?;
    let unit = integer_of(alloc, "issue.unit", value_at(row, "unit"), 1, MAX_UNIT)?;
    let fresh = new_code(before, code)?;
    let placed = on_tick(ticks, fresh, base)?;
    with_grid(alloc, ticks, limits, placed, base, unit)
}

// Whether all values are tables.
fn all_tables(values: &[Value]) -> bool
    ensures { result ≡ list_all is_table (map view values.now) }
{
    for value in values {
        if value.as_table().is_none() {
            return false;
        }
    }
    true
}

// The issue that a value says, which is a table.
fn issue_in(
    alloc: Global,
    ticks: &[TickRow],
    limits: &[BandRow],
    before: &Names,
    value: &Value,
) -> Result<(Name, IssueRules), RulesFault>
    requires ticks { AreTickRows ticks.now }
    requires limits { AreBandRows limits.now }
    requires table { is_table (view value.now) ≡ true }
    ensures exact { let row = members_in (view value.now) in
        Gives result (issue_of ticks.now limits.now before.now row) }
    ensures code { IfOk result (λ issue. IsNewCode before.now issue.0) }
    ensures sound { IfOk result (λ issue. IsIssue ticks.now limits.now issue.1) }
{
    match value.as_table() {
        Some(row) => issue_of(alloc, ticks, limits, before, row),
        None => unreachable!(),
    }
}

// The issues that some tables say.
fn issues_of(
    alloc: Global,
    ticks: &[TickRow],
    limits: &[BandRow],
    values: &[Value],
) -> Result<Issues, RulesFault>
    requires ticks { AreTickRows ticks.now }
    requires limits { AreBandRows limits.now }
    requires tables { list_all is_table (map view values.now) ≡ true }
    requires few { length values.now ≤ 64 }
    ensures exact { let rows = map members_in (map view values.now) in
        Gives result (issues_of ticks.now limits.now no_issues rows) }
    ensures sound { IfOk result (AreIssues ticks.now limits.now) }
    ensures size { IfOk result (λ issues. length issues.rules ≡ length values.now) }
{
    let mut issues = Issues::new(alloc);
    for value in values {
        let issue = issue_in(alloc, ticks, limits, &issues.codes, value)?;
        issues = issues.with(alloc, issue)?;
    }
    Ok(issues)
}

// The issues of a rules file.
#[tactic(auto, unfolding(crate::specs::Issues::issues_at, crate::specs::Keys::rows_at))]
pub(crate) fn issues_at(
    alloc: Global,
    ticks: &[TickRow],
    limits: &[BandRow],
    table: &Table,
) -> Result<Issues, RulesFault>
    requires ticks { AreTickRows ticks.now }
    requires limits { AreBandRows limits.now }
    ensures exact { Gives result (issues_at ticks.now limits.now (table_view table.now)) }
    ensures sound { IfOk result (AreIssues ticks.now limits.now) }
    ensures size { IfOk result (λ issues. (1 ≤ length issues.rules) × (length issues.rules ≤ 64)) }
{
    let values = listed(alloc, table, "issue", MAX_ISSUES)?;
    if !all_tables(values) {
        return Err(bad_number(alloc, "issue"));
    }
    issues_of(alloc, ticks, limits, values)
}
