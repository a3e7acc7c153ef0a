// The lists of a rules file that have a check of their own.
ghost use Rattle.std.specs.Prelude.{◌≤◌, length, IfOk};
ghost use Rattle.toml.specs.View.{table_view};
ghost use Rattle.tick_grid.specs.Rows.{AreBandRows, AreTickRows};
ghost use Rattle.session_phase.specs.Sessions.{AreSessions};
ghost use Rattle.allotment.specs.Rounds.{AreRounds};
ghost use Rattle.rules_file.specs.Faults.{Gives};
ghost use Rattle.rules_file.specs.Keys.{bands_at, rounds_at, sessions_at, ticks_at};

use crate::RulesFault;
use crate::keys::checked_rows;
use allotment::Round;
use mkt_base::Rows;
use session_phase::Session;
use std::alloc::Global;
use tick_grid::{BandRow, TickRow};
use toml::Table;

/// How many rows the lists may have.
const MAX_TICKS: usize = 32;

const MAX_BANDS: usize = 64;

const MAX_SESSIONS: usize = 4;

const MAX_ROUNDS: usize = 16;

#[tactic(auto, unfolding(crate::specs::Keys::ticks_at))]
pub(crate) fn ticks_at(alloc: Global, table: &Table) -> Result<Rows<TickRow>, RulesFault>
    ensures exact { Gives result (ticks_at (table_view table.now)) }
    ensures sound { IfOk result AreTickRows }
    ensures few { IfOk result (λ rows. length rows ≤ 32) }
{
    checked_rows(alloc, table, "ticks", MAX_TICKS)
}

#[tactic(auto, unfolding(crate::specs::Keys::bands_at))]
pub(crate) fn bands_at(alloc: Global, table: &Table, key: &str) -> Result<Rows<BandRow>, RulesFault>
    ensures exact { Gives result (bands_at key.now (table_view table.now)) }
    ensures sound { IfOk result AreBandRows }
    ensures few { IfOk result (λ rows. length rows ≤ 64) }
{
    checked_rows(alloc, table, key, MAX_BANDS)
}

#[tactic(auto, unfolding(crate::specs::Keys::sessions_at))]
pub(crate) fn sessions_at(alloc: Global, table: &Table) -> Result<Rows<Session>, RulesFault>
    ensures exact { Gives result (sessions_at (table_view table.now)) }
    ensures sound { IfOk result AreSessions }
    ensures few { IfOk result (λ rows. (1 ≤ length rows) × (length rows ≤ 4)) }
{
    checked_rows(alloc, table, "sessions", MAX_SESSIONS)
}

#[tactic(auto, unfolding(crate::specs::Keys::rounds_at))]
pub(crate) fn rounds_at(alloc: Global, table: &Table) -> Result<Rows<Round>, RulesFault>
    ensures exact { Gives result (rounds_at (table_view table.now)) }
    ensures sound { IfOk result AreRounds }
    ensures few { IfOk result (λ rows. length rows ≤ 16) }
{
    checked_rows(alloc, table, "rounds", MAX_ROUNDS)
}
