// The checks of the lists' own, row by row.
ghost use Rattle.std.specs.Prelude.{◌≡◌, ◌<◌, ◌≤◌, All, length};
ghost use Rattle.rules_file.specs.Keys.{band_row_fails, below_before, finish_before, goes_on, is_all, round_fails, session_fails, tick_row_fails, upto_before};
ghost use Rattle.rules_file.specs.declared.fault.RulesFault.TheVariants.{BadPhases, BadRounds, RowsOutOfOrder};

use crate::RulesFault;
use crate::fault::out_of_order;
use crate::keys::Row;
use allotment::Round;
use session_phase::Session;
use std::alloc::Global;
use tick_grid::{BandRow, TickRow};

/// The bound of the last row of ticks: the highest price.
const LAST_UPTO: u32 = 1_000_000_000;

/// The bound of the last row of limits or of ranges.
const LAST_BELOW: u32 = 1_000_000_001;

fn upto_before(rows: &[TickRow], i: usize) -> u32
    requires { i < length rows.now }
    ensures { result ≡ upto_before rows.now i }
{
    if i == 0 { 0 } else { rows[i - 1].upto }
}

// Whether the bound of a row of ticks ends the list, or is a multiple of the next row's tick.
fn goes_on(rows: &[TickRow], i: usize) -> bool
    requires place { i < length rows.now }
    requires ticks { All (λ row. (1 ≤ row.tick) × (row.tick ≤ 1000000)) rows.now }
    ensures { result ≡ goes_on rows.now i }
{
    let upto = rows[i].upto;
    if i + 1 == rows.len() {
        upto == LAST_UPTO
    } else {
        upto % rows[i + 1].tick == 0
    }
}

#[tactic(auto, unfolding(crate::specs::Keys::tick_row_fails))]
fn tick_row_fails(rows: &[TickRow], i: usize) -> bool
    requires place { i < length rows.now }
    requires ticks { All (λ row. (1 ≤ row.tick) × (row.tick ≤ 1000000)) rows.now }
    ensures { result ≡ tick_row_fails rows.now i }
{
    let row = rows[i];
    row.upto <= upto_before(rows, i) || row.upto % row.tick != 0 || !goes_on(rows, i)
}

impl Row for TickRow {
    ghost fails_at = { tick_row_fails };

    ghost fault_of = { RowsOutOfOrder };

    fn fails(rows: &[TickRow], i: usize) -> bool {
        tick_row_fails(rows, i)
    }

    fn fault(alloc: Global, key: &str, row: u32) -> RulesFault {
        out_of_order(alloc, key, row)
    }
}

fn below_before(rows: &[BandRow], i: usize) -> u32
    requires { i < length rows.now }
    ensures { result ≡ below_before rows.now i }
{
    if i == 0 { 0 } else { rows[i - 1].below }
}

#[tactic(auto, unfolding(crate::specs::Keys::band_row_fails))]
fn band_row_fails(rows: &[BandRow], i: usize) -> bool
    requires { i < length rows.now }
    ensures { result ≡ band_row_fails rows.now i }
{
    let below = rows[i].below;
    below <= below_before(rows, i) || i + 1 == rows.len() && below != LAST_BELOW
}

impl Row for BandRow {
    ghost fails_at = { band_row_fails };

    ghost fault_of = { RowsOutOfOrder };

    fn fails(rows: &[BandRow], i: usize) -> bool {
        band_row_fails(rows, i)
    }

    fn fault(alloc: Global, key: &str, row: u32) -> RulesFault {
        out_of_order(alloc, key, row)
    }
}

fn finish_before(rows: &[Session], i: usize) -> u32
    requires { i < length rows.now }
    ensures { result ≡ finish_before rows.now i }
{
    if i == 0 { 0 } else { rows[i - 1].finish.ms() }
}

#[tactic(auto, unfolding(crate::specs::Keys::session_fails))]
fn session_fails(rows: &[Session], i: usize) -> bool
    requires { i < length rows.now }
    ensures { result ≡ session_fails rows.now i }
{
    let session = rows[i];
    let accept = session.accept.ms();
    let begin = session.begin.ms();
    let finish = session.finish.ms();
    !(finish_before(rows, i) < accept && accept < begin && begin < finish)
}

impl Row for Session {
    ghost fails_at = { session_fails };

    ghost fault_of = { λ key row. BadPhases row };

    fn fails(rows: &[Session], i: usize) -> bool {
        session_fails(rows, i)
    }

    fn fault(_alloc: Global, _key: &str, row: u32) -> RulesFault {
        RulesFault::BadPhases(row)
    }
}

fn is_all(round: Round) -> bool
    ensures { result ≡ is_all round }
{
    match round {
        Round::Units(_) => false,
        Round::Part { .. } => false,
        Round::All => true,
    }
}

#[tactic(auto, unfolding(crate::specs::Keys::round_fails))]
fn round_fails(rows: &[Round], i: usize) -> bool
    requires { i < length rows.now }
    ensures { result ≡ round_fails rows.now i }
{
    if i + 1 == rows.len() {
        !is_all(rows[i])
    } else {
        is_all(rows[i])
    }
}

impl Row for Round {
    ghost fails_at = { round_fails };

    ghost fault_of = { λ key row. BadRounds row };

    fn fails(rows: &[Round], i: usize) -> bool {
        round_fails(rows, i)
    }

    fn fault(_alloc: Global, _key: &str, row: u32) -> RulesFault {
        RulesFault::BadRounds(row)
    }
}
